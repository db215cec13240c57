// What the command reports.
ghost use Rattle.std.specs.Prelude.{◌≡◌, IfOk};
ghost use Rattle.std.specs.String.{string_bytes};
ghost use Rattle.tce_run.specs.DemoDone.{report_text};

use std::alloc::{AllocError, Global};

/// The report of a run with so many words for intermediates and for tiles, and with this sum.
pub fn report(alloc: Global, memory: u128, tiles: u64, sum: u64) -> Result<String, AllocError>
    ensures { IfOk result (λ text. string_bytes text ≡ report_text memory tiles sum) }
{
    format!(in alloc; "tce demo 1\nmemory {memory}\ntiles {tiles}\nsum {sum}\n")
}
