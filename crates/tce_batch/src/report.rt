// What a run of several formulas reports.
ghost use Rattle.std.specs.Prelude.{◌≡◌, ◌++◌, OnOk, IfOk, codes};
ghost use Rattle.tce_batch.specs.Reports.{section_of, without_first_line};

use std::alloc::{AllocError, Global};
use tce_job::Bytes;

/// What a run of several formulas reports.
#[derive(Drop)]
pub struct BatchReport {
    /// The lines of the report.
    pub text: Bytes,
}

// The length of the first line of a run's report, `tce run 1`, with its line feed.
const FIRST_LINE: usize = 10;

/// The first line.
pub(crate) fn first_line(alloc: Global) -> Result<Vec<u8>, AllocError>
    ensures { IfOk result (λ text. text.items ≡ codes "tce batch 1\n") }
{
    let mut text = Vec::new(alloc);
    text.extend_from_slice("tce batch 1\n".as_bytes())?;
    Ok(text)
}

/// The lines of a run but the first.
fn lines_behind(run: &[u8]) -> &[u8]
    ensures { result.now ≡ without_first_line run.now }
{
    if run.len() < FIRST_LINE {
        return &[];
    }
    &run[FIRST_LINE..]
}

/// Puts the lines of a formula's run behind the others.
pub(crate) fn push_section(
    alloc: Global,
    text: &mut Vec<u8>,
    formula: u64,
    run: &[u8],
) -> Result<(), AllocError>
    ensures { OnOk result (text.new.items ≡ text.old.items ++ section_of formula run.now) }
{
    let number = format!(in alloc; "{formula}")?;
    let pushed = push_lines(text, number.as_str().as_bytes(), run);
    drop(number);
    pushed
}

// The same by the digits of the formula's number.
fn push_lines(text: &mut Vec<u8>, number: &[u8], run: &[u8]) -> Result<(), AllocError>
    ensures { OnOk result (text.new.items ≡ text.old.items
        ++ (codes "formula " ++ (number.now ++ (codes "\n" ++ without_first_line run.now)))) }
{
    text.extend_from_slice("formula ".as_bytes())?;
    text.extend_from_slice(number)?;
    text.extend_from_slice("\n".as_bytes())?;
    text.extend_from_slice(lines_behind(run))
}
