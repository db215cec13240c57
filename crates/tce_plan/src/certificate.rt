// Certificates of plans, and the reports of files that hold them.
ghost use Rattle.std.specs.Prelude.{◌≡◌, IfOk};
ghost use Rattle.std.specs.String.{string_bytes};
ghost use Rattle.tce_plan.specs.CertificateDone.{IsCertificate, report_text};

use std::alloc::{AllocError, Global};
use tce_cert::write_cert;
use tce_search::search;
use tce_spec::Spec;

/// The text of a certificate, and the report of its file.
#[derive(Drop)]
pub struct Certificate {
    pub text: Vec<u8>,
    pub report: String,
}

impl Certificate {
    /// The report, which is all that is left once the text is written.
    pub fn into_report(self) -> String
        ensures { result ≡ self.report }
    {
        self.report
    }
}

/// The certificate of a plan of least memory for a specification, and the report where it stands in this file.
pub fn certificate_of(alloc: Global, spec: &Spec, cert: &str) -> Result<Certificate, AllocError>
    ensures { IfOk result (λ made.
        IsCertificate spec.now cert.now made.text.items (string_bytes made.report)) }
{
    let space = spec.space();
    let tree = spec.tree();
    let _declared = space.index_count();
    let _count = tree.count();
    let least = search(alloc, space, tree)?;
    let text = write_cert(alloc, space, tree, &least)?;
    let report = report(alloc, least.memory, cert, text.len())?;
    Ok(Certificate { text, report })
}

// The report of a certificate of so many bytes in this file.
fn report(alloc: Global, memory: u128, cert: &str, len: usize) -> Result<String, AllocError>
    ensures { IfOk result (λ text. string_bytes text ≡ report_text memory cert.now len) }
{
    format!(in alloc; "tce cert 1\nmemory {memory}\nwrote {cert} {len}\n")
}
