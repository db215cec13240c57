// Why commands are refused, those on certificates among them.
ghost use Rattle.tce_command.specs.CommandRefusals.{IsOfCertificate};
ghost use Rattle.tce_command.specs.Report.{NamesDeclared, trouble_of};

use crate::refusal::Refusal;
use crate::trouble::CertFlaw;
use crate::trouble_line::{TroubleLine, trouble_line};
use tce_space::Space;

/// Why a command is refused.
#[derive(Drop)]
pub enum CommandRefusal {
    /// For a reason that other commands have too.
    Common(Refusal),
    /// The certificate is refused, with the line that says why.
    Certificate(CertFlaw, TroubleLine),
}

impl CommandRefusal {
    /// The refusal of a certificate. Indexes are named by this space.
    pub fn certificate(space: &Space, flaw: CertFlaw) -> Self
        requires { NamesDeclared space.now (trouble_of flaw) }
        ensures { IsOfCertificate space.now flaw result }
    {
        let line = trouble_line(space, &flaw);
        CommandRefusal::Certificate(flaw, line)
    }
}

impl From<Refusal> for CommandRefusal {
    ghost use Rattle.std.specs.Prelude.{◌≡◌};
    ghost use Rattle.tce_command.specs.declared.command_refusal.CommandRefusal.TheVariants.{Common};

    ghost from_gives = { λ refusal made. made ≡ Common refusal };

    fn from(refusal: Refusal) -> CommandRefusal {
        CommandRefusal::Common(refusal)
    }
}
