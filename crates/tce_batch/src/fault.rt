// Why several formulas are refused.
ghost use Rattle.std.specs.Prelude.{◌≡◌, ◌+◌, ◌<◌, ◌^◌};
ghost use Rattle.tce_batch.specs.Refusals.{IsNamed};

use tce_job::JobFault;

/// Why several formulas are refused, and which of them, from 1.
#[derive(Clone, Copy)]
pub struct BatchFault {
    pub formula: u64,
    pub fault: JobFault,
}

/// The fault of a formula by its number from 0, before any formula is run: a failure or want of memory is told of the
/// first formula.
pub(crate) fn before_runs(number: usize, fault: JobFault) -> BatchFault
    requires { number + 1 < 2 ^ 64 }
    ensures fault { result.fault ≡ fault }
    ensures formula { IsNamed number fault result.formula }
{
    let formula = match fault {
        JobFault::Disk | JobFault::Memory => 1,
        _ => number as u64 + 1,
    };
    BatchFault { formula, fault }
}
