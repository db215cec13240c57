// Which calls of a device are to fail.
ghost use Rattle.std.specs.Prelude.{◌≡◌, vec_items, IsTrue};
ghost use Rattle.tce_outside.specs.Fault.{HasCause};
ghost use Rattle.tce_outside.specs.Schedule.{new_schedule, fails_next, after_call};

use std::marker::Model;

/// The numbers of the calls that fail, and how far the calls have come.
#[derive(Drop)]
pub struct FaultSchedule {
    failing: Vec<u64>,
    next_call: u64,
    faults: u64,
}

impl Model for FaultSchedule {
    ghost use Rattle.tce_outside.specs.Schedule.{Schedule};

    ghost Value = { Schedule };

    ghost view = { λ s. record { failing = s.failing.items; next_call = s.next_call; faults = s.faults } };
}

impl FaultSchedule {
    /// Before the first call: the calls with the numbers in `failing` are to fail.
    pub fn new(failing: Vec<u64>) -> Self
        ensures { result ≡ new_schedule failing.items }
    {
        FaultSchedule {
            failing,
            next_call: 0,
            faults: 0,
        }
    }

    /// How many calls have failed, up to 2^64 - 1.
    pub fn faults(&self) -> u64
        ensures { result ≡ self.now.faults }
    {
        self.faults
    }

    /// Counts a call, and tells whether it is to fail.
    pub fn count_call(&mut self) -> bool
        ensures fails { result ≡ fails_next self.old }
        ensures counted { self.new ≡ after_call self.old }
        ensures cause { HasCause self.old.faults self.new.faults (IsTrue result) }
    {
        let fails = self.failing.contains(&self.next_call);
        self.next_call = self.next_call.saturating_add(1);
        if fails {
            self.faults = self.faults.saturating_add(1);
        }
        fails
    }
}
