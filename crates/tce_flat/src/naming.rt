// Names of files, and reports of files that were written.
ghost use Rattle.std.specs.Prelude.{◌≡◌, ◌+◌, ◌≤◌, ◌++◌, IfOk, length};
ghost use Rattle.std.specs.String.{string_bytes};
ghost use Rattle.tce_flat.specs.Done.{report_text};

use std::alloc::{AllocError, Global};
use tce_space::FileName;

/// The name of a tensor's file with this suffix.
pub fn file_of(tensor: &str, suffix: &str) -> FileName
    requires { length tensor.now + length suffix.now ≤ 204 }
    ensures { result.bytes ≡ tensor.now ++ suffix.now }
{
    let mut name = FileName::new();
    name.push_str(tensor);
    name.push_str(suffix);
    name
}

/// The report of a command that writes a file of so many bytes.
pub fn report(alloc: Global, verb: &str, written: &str, len: u64) -> Result<String, AllocError>
    ensures { IfOk result (λ text. string_bytes text ≡ report_text verb.now written.now len) }
{
    format!(in alloc; "tce {verb} 1\nwrote {written} {len}\n")
}
