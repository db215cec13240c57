// The head of an array file.
ghost use Rattle.std.specs.Prelude.{◌≡◌, ℕ, ◌+◌, ◌*◌, ◌≤◌, ◌++◌, List, length, codes, MatchOption};
ghost use Rattle.std.specs.List.{flat_map};
ghost use Rattle.arrayvec.specs.ArrayVec.{array_vec_len};
ghost use Rattle.tce_base.specs.Word.{word_bytes};
ghost use Rattle.tce_array.specs.Forms.{magic, lead, head, head_len};
ghost use Rattle.tce_array.specs.Faults.{DifferFirst};

use crate::form::Form;
use arrayvec::ArrayVec;
use tce_space::Shape;

/// The most bytes that a head has.
pub const LARGEST_HEAD: usize = 152;

const MAGIC_ONE: &[u8] = b"TCARRAY1";

const MAGIC_TWO: &[u8] = b"TCARRAY2";

/// The bytes of a head.
pub type Head = ArrayVec<u8, LARGEST_HEAD>;

// Appends the bytes of a word.
fn push_word(head: &mut Head, w: u64)
    requires { array_vec_len head.old + 8 ≤ 152 }
    ensures items { head.new.items ≡ head.old.items ++ word_bytes 8 w }
    ensures len { array_vec_len head.new ≡ array_vec_len head.old + 8 }
{
    let Ok(()) = head.try_extend_from_slice(&w.to_le_bytes()) else {
        unreachable!()
    };
}

// Appends the bytes of words.
fn push_words(head: &mut Head, words: &[u64])
    requires { array_vec_len head.old + 8 * length words.now ≤ 152 }
    ensures items { head.new.items ≡ head.old.items ++ flat_map (word_bytes 8) words.now }
    ensures len { array_vec_len head.new ≡ array_vec_len head.old + 8 * length words.now }
{
    for w in words {
        push_word(head, *w);
    }
}

/// The first bytes of a file of this form.
pub fn magic(form: Form) -> &'static [u8]
    ensures { result.now ≡ magic form }
{
    match form {
        Form::One => MAGIC_ONE,
        Form::Narrow => MAGIC_TWO,
        Form::Wide => MAGIC_TWO,
    }
}

// The first bytes, and the numbers before the extents.
fn start(form: Form, rank: u64) -> Head
    ensures items { result.items ≡ magic form ++ flat_map (word_bytes 8) (lead form rank) }
    ensures len { array_vec_len result ≡ 8 + 8 * length (lead form rank) }
{
    let mut head = Head::new();
    let Ok(()) = head.try_extend_from_slice(magic(form)) else {
        unreachable!()
    };
    match form {
        Form::One => push_words(&mut head, &[rank]),
        Form::Narrow => push_words(&mut head, &[rank, 4]),
        Form::Wide => push_words(&mut head, &[rank, 8]),
    }
    head
}

/// The head of a file of this form and shape.
pub fn head(form: Form, shape: &Shape) -> Head
    ensures items { result.items ≡ head form shape.now }
    ensures len { array_vec_len result ≡ head_len form shape.now }
{
    let mut head = start(form, shape.extents().len() as u64);
    push_words(&mut head, shape.extents());
    push_words(&mut head, shape.edges());
    head
}

/// The first place at which two texts of one length differ.
pub fn first_difference(found: &[u8], expected: &[u8]) -> Option<usize>
    requires { length found.now ≡ length expected.now }
    ensures { MatchOption result (found.now ≡ expected.now) (DifferFirst found.now expected.now) }
{
    for i in 0..found.len() {
        if found[i] != expected[i] {
            return Some(i);
        }
    }
    None
}
