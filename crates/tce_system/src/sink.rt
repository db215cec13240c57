// Standard output.
ghost use Rattle.std.specs.Prelude.{◌≡◌, None, IfErr, OnOk, is_err, if◌then◌else◌};
ghost use Rattle.std.specs.Io.KnownBytes.{Appends};
ghost use Rattle.tce_outside.specs.Schedule.{one_more};

use std::io;
use std::io::Write;
use tce_outside::{OutFault, Sink};

/// Standard output. It tells nothing of what was put.
#[derive(Drop)]
pub struct OutSink<'a, R: Print> {
    to: &'a R,
    faults: u64,
}

impl<'a, R: Print> OutSink<'a, R> {
    /// What `to` prints to.
    pub fn new(to: &'a R) -> Self
        ensures { result.faults ≡ 0 }
    {
        OutSink { to, faults: 0 }
    }

    /// How many puts have failed, up to 2^64 - 1.
    pub fn faults(&self) -> u64
        ensures { result ≡ self.now.faults }
    {
        self.faults
    }
}

// Writes the whole piece.
fn write_whole<W: Write>(out: &mut W, piece: &[u8]) -> io::Result<()>
    ensures { OnOk result (Appends (W.contents out.old) (W.contents out.new) piece.now) }
{
    out.write_all(piece)?;
    out.flush()
}

impl<R: Print> Sink for OutSink<'_, R> {
    ghost bytes = { λ _. None };

    ghost faults = { λ s. s.faults };

    fn put(&mut self, piece: &[u8]) -> Result<(), OutFault>
        ensures failed { IfErr result (λ fault. fault ≡ OutFault.Failed) }
        ensures counted { self.new.faults ≡ (if is_err result then one_more self.old.faults else self.old.faults) }
    {
        if write_whole(&mut io::writer(self.to), piece).is_ok() {
            return Ok(());
        }
        self.faults = self.faults.saturating_add(1);
        Err(OutFault::Failed)
    }
}
