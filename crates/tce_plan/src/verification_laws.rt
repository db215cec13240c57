//! Laws of the definitions of `check`. These functions do nothing: their contracts are the laws.

ghost use Rattle.tce_plan.specs.VerificationLaws.{AcceptedIsLeast, VerificationsHaveOneAnswer};

/// What can be verified is not refused, what is refused has one reason, and what is accepted has one report.
pub fn verifications_have_one_answer()
    ensures { VerificationsHaveOneAnswer }
{}

/// No legal fusion takes less memory than that of an accepted plan, whoever wrote the certificate.
pub fn accepted_is_least()
    ensures { AcceptedIsLeast }
{}
