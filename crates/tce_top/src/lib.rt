//! The commands of the program.
//!
//! [`tce`] does all that the program does, over any disk, sink and room. Its contract says when each [`Status`] comes and what
//! it leaves on the disk, on the sink and in the room. What a command needs, why it is refused and what it leaves stands for each
//! command in `specs/Performed.antt`. All that a status holds is exported beside it. [`answer`] calls `tce` over the files of
//! the system.
#![tactic(auto)]

mod laws;
mod perform;
mod program;
mod top;

pub use laws::written_is_verified;
pub use program::{answer, words_of};
pub use tce_array::ArrayFault;
pub use tce_cert::CertFault;
pub use tce_check::Verdict;
pub use tce_command::{CertTrouble, EinsumTrouble, SpillTrouble, Status, SymTrouble};
pub use tce_nesting::Nesting;
pub use tce_space::{FileName, IndexSet, Name};
pub use tce_spec::{Limit, SpecFault};
pub use tce_tree::TreeFault;
pub use top::tce;
