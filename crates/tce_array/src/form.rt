// The forms of array files.
ghost use Rattle.std.specs.Prelude.{◌≡◌, ℕ, ◌+◌, ◌*◌, length};
ghost use Rattle.tce_space.specs.Box.{IsInside};

use tce_space::Shape;

/// How a file stores its words, which a file tells by its first 24 bytes.
#[derive(Clone, Copy, PartialEq, Eq)]
pub enum Form {
    /// The first version of the format, `TCARRAY1`: eight bytes a word.
    One,
    /// The second version, `TCARRAY2`, with four bytes a word: a signed number, which is taken modulo 2^64.
    Narrow,
    /// The second version, with eight bytes a word.
    Wide,
}

impl Form {
    ghost use Rattle.tce_array.specs.Forms.{width, head_len};

    /// How many bytes a word takes.
    pub fn width(self) -> u64
        ensures { result ≡ width self }
    {
        match self {
            Form::One => 8,
            Form::Narrow => 4,
            Form::Wide => 8,
        }
    }

    /// How many bytes the head has, which stands before the words.
    pub fn head_len(self, shape: &Shape) -> u64
        ensures { result ≡ head_len self shape.now }
    {
        let lists = 8 * (shape.extents().len() + shape.edges().len()) as u64;
        match self {
            Form::One => 16 + lists,
            Form::Narrow => 24 + lists,
            Form::Wide => 24 + lists,
        }
    }
}
