//! Laws of the definitions. These functions do nothing: their contracts are the laws.

ghost use Rattle.tce_plan.specs.TextLaws.{CertificatesHaveOneAnswer, EinsumsHaveOneAnswer};

/// What can be certified is not refused, and what is refused has one reason.
pub fn certificates_have_one_answer()
    ensures { CertificatesHaveOneAnswer }
{}

/// An einsum that can be written is not refused, and one that is refused has one reason.
pub fn einsums_have_one_answer()
    ensures { EinsumsHaveOneAnswer }
{}
