// A sink in memory that fails at stated puts.
ghost use Rattle.std.specs.Prelude.{◌≡◌, ◌++◌, ◌↔◌, IsTrue, IsErrOf, OnOk, OnErr, Some};
ghost use Rattle.tce_outside.specs.Schedule.{new_schedule, fails_next, after_call};

use crate::device::{OutFault, Sink};
use crate::memory::MemSink;
use crate::schedule::FaultSchedule;
use std::marker::Model;

/// A sink in memory that fails at stated puts, for tests of what a failure leaves. It tells its bytes.
///
/// The puts are counted from 0 on. The put of a number that is in the list answers that the sink failed, and
/// appends nothing. Each other put is that of the sink inside.
#[derive(Drop)]
pub struct FaultySink {
    inner: MemSink,
    schedule: FaultSchedule,
}

impl Model for FaultySink {
    ghost use Rattle.tce_outside.specs.Schedule.{FaultyBytes};

    ghost Value = { FaultyBytes };

    ghost view = { λ s. record { bytes = s.inner; schedule = s.schedule } };
}

impl FaultySink {
    /// This sink, whose puts with the numbers in `failing` are to fail. The order of the numbers does not
    /// matter, nor how often one stands there.
    pub fn new(inner: MemSink, failing: Vec<u64>) -> Self
        ensures { result ≡ record { bytes = inner; schedule = new_schedule failing.items } }
    {
        FaultySink {
            inner,
            schedule: FaultSchedule::new(failing),
        }
    }

    /// The sink inside, as the puts so far have left it.
    pub fn inner(&self) -> &MemSink
        ensures { result.now ≡ self.now.bytes }
    {
        &self.inner
    }

    /// How many puts have failed, up to 2^64 - 1.
    pub fn faults(&self) -> u64
        ensures { result ≡ self.now.schedule.faults }
    {
        self.schedule.faults()
    }
}

impl Sink for FaultySink {
    ghost bytes = { λ s. Some s.bytes };

    ghost faults = { λ s. s.schedule.faults };

    fn put(&mut self, piece: &[u8]) -> Result<(), OutFault>
        ensures fails { IsErrOf result OutFault.Failed ↔ IsTrue (fails_next self.old.schedule) }
        ensures whole { OnOk result (self.new.bytes ≡ self.old.bytes ++ piece.now) }
        ensures err { OnErr result (self.new.bytes ≡ self.old.bytes) }
        ensures counted { self.new.schedule ≡ after_call self.old.schedule }
    {
        if self.schedule.count_call() {
            return Err(OutFault::Failed);
        }
        self.inner.put(piece)
    }
}
