// The lines of a text, one after the other.
ghost use Rattle.std.specs.Prelude.{◌≡◌, ◌+◌, ◌<◌, ◌^◌, length, MatchResult};
ghost use Rattle.tce_cert.specs.Cut.{Lacks};
ghost use Rattle.tce_cert.specs.Reading.{ReadsLine};

use crate::cut::cut_at;
use crate::fault::CertFault;

// What is left of a text, and the number of its first line.
#[derive(Clone, Copy)]
pub(crate) struct Cursor<'a> {
    pub(crate) rest: &'a [u8],
    pub(crate) number: u64,
    ghost small: { number + length rest.now < 18446744073709551616 },
}

impl<'a> Cursor<'a> {
    // The whole text.
    pub(crate) fn new(text: &'a [u8]) -> Cursor<'a>
        ensures rest { result.rest.now ≡ text.now }
        ensures number { result.number ≡ 1 }
    {
        Cursor {
            rest: text,
            number: 1,
        }
    }

    // The next line without its line feed, and what stands behind it. A line without a line feed is bad text.
    pub(crate) fn line(self) -> Result<(&'a [u8], Cursor<'a>), CertFault>
        ensures { MatchResult result
            (λ read. ReadsLine self.entry.rest.now self.entry.number read.0.now read.1.rest.now read.1.number)
            (λ fault. Lacks 10 self.entry.rest.now × (fault ≡ CertFault.BadText self.entry.number)) }
    {
        match cut_at(self.rest, b'\n') {
            Some((line, rest)) => Ok((
                line,
                Cursor {
                    rest,
                    number: self.number + 1,
                },
            )),
            None => Err(CertFault::BadText(self.number)),
        }
    }
}
