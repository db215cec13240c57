// Refusals for the faults of the pieces of a tree.
ghost use Rattle.tce_run.specs.SpillRefusals.{IsOfFiles, IsToldAs};

use crate::refusals::array_refusal;
use tce_command::{Refusal, SpillTrouble};
use tce_spill::SpillFault;

/// The refusal that tells why the pieces are not run: of an array by its file where that is not there, else by its name.
pub(crate) fn refusal_of_pieces(fault: SpillFault) -> Refusal
    requires { IsOfFiles fault }
    ensures { IsToldAs fault result }
{
    match fault {
        SpillFault::TooManyTensors => Refusal::Spill(SpillTrouble::TooManyTensors),
        SpillFault::LimitTooSmall(root, least) => {
            Refusal::Spill(SpillTrouble::LimitTooSmall(root, least))
        }
        SpillFault::BudgetTooSmall(least) => Refusal::Budget(least),
        SpillFault::Array(name, fault) => array_refusal(name, fault),
        SpillFault::Disk => Refusal::Disk,
        SpillFault::Memory => Refusal::Memory,
    }
}
