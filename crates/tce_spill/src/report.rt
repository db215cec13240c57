// What the runs of the pieces report.
ghost use Rattle.std.specs.Prelude.{◌≡◌, ◌++◌, OnOk, IfOk, codes};
ghost use Rattle.std.specs.Fmt.{decimal};
ghost use Rattle.std.specs.String.{string_bytes};
ghost use Rattle.tce_spill.specs.Reports.{piece_line, wrote_line};

use std::alloc::{AllocError, Global};
use tce_array::{Form, form_len};
use tce_job::{Bytes, RunReport, file_of};
use tce_space::FileName;
use tce_spec::Spec;

/// What the runs of the pieces report.
#[derive(Drop)]
pub struct SpillReport {
    /// The lines of the report.
    pub text: Bytes,
}

/// The first line.
pub(crate) fn first_line(alloc: Global) -> Result<Vec<u8>, AllocError>
    ensures { IfOk result (λ text. text.items ≡ codes "tce spill 1\n") }
{
    let mut text = Vec::new(alloc);
    text.extend_from_slice("tce spill 1\n".as_bytes())?;
    Ok(text)
}

/// Puts the line of a piece behind the others.
pub(crate) fn push_piece(
    alloc: Global,
    text: &mut Vec<u8>,
    root: u8,
    run: &RunReport,
) -> Result<(), AllocError>
    ensures { OnOk result (text.new.items ≡ text.old.items ++ piece_line root run.now.memory run.now.tiles) }
{
    let line = line_of_piece(alloc, root, run.memory, run.tiles)?;
    push_line(text, line)
}

// The line of a piece.
fn line_of_piece(alloc: Global, root: u8, memory: u128, tiles: u64) -> Result<String, AllocError>
    ensures { IfOk result (λ line. string_bytes line ≡ piece_line root memory tiles) }
{
    format!(in alloc; "piece {root} memory {memory} tiles {tiles}\n")
}

// Puts a line behind the others.
fn push_line(text: &mut Vec<u8>, line: String) -> Result<(), AllocError>
    ensures { OnOk result (text.new.items ≡ text.old.items ++ string_bytes line) }
{
    let pushed = text.extend_from_slice(line.as_str().as_bytes());
    drop(line);
    pushed
}

/// Puts the line of the result's file behind the others.
pub(crate) fn push_wrote(alloc: Global, text: &mut Vec<u8>, spec: &Spec) -> Result<(), AllocError>
    ensures { OnOk result (text.new.items ≡ text.old.items ++ wrote_line spec.now) }
{
    let number = spec.result().tensor;
    let name = file_of(spec, number);
    let bytes = form_len(Form::One, &spec.tensor(number).shape);
    let line = line_of_file(alloc, &name, bytes)?;
    push_line(text, line)
}

// The line of a file of so many bytes.
fn line_of_file(alloc: Global, name: &FileName, bytes: u64) -> Result<String, AllocError>
    ensures { IfOk result (λ line. string_bytes line
        ≡ codes "wrote " ++ (name.now.bytes ++ (codes " " ++ (decimal bytes ++ codes "\n")))) }
{
    format!(in alloc; "wrote {name} {bytes}\n")
}
