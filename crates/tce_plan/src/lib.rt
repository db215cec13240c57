//! The commands on plans and certificates, and the one that writes the specification of an einsum.
//!
//! [`plan`] reads a specification from its file, finds a fusion of least memory for its tree, and gives the report. What it
//! says is `specs/Done.antt`, and why the command is refused `specs/Refusals.antt`.
//!
//! [`certify`] finds a fusion of least memory for a specification and writes all that shows it to be least to a file. What it
//! leaves and reports is `specs/CertificateDone.antt`, and why it is refused `specs/CertificateRefusals.antt`.
//!
//! [`verify`] accepts a text that anyone may have written where it shows that the fusion of its plan is least. What is
//! accepted is `specs/VerificationDone.antt`, and why the command is refused `specs/VerificationRefusals.antt`. The
//! certificate is judged by the definitions of certificates and plans alone, and never by a search.
//!
//! [`write_einsum`] writes the specification that an einsum text and a path produce: `specs/EinsumDone.antt` and
//! `specs/EinsumRefusals.antt`.
#![tactic(auto)]

mod certificate;
mod certifying;
mod command;
mod einsum;
mod judging;
mod laws;
mod reading;
mod saving;
mod text_laws;
mod verification;
mod verification_laws;

pub use certifying::certify;
pub use command::plan;
pub use einsum::write_einsum;
pub use laws::plans_have_one_answer;
pub use text_laws::{certificates_have_one_answer, einsums_have_one_answer};
pub use verification::verify;
pub use verification_laws::{accepted_is_least, verifications_have_one_answer};
