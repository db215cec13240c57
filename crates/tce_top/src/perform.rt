// What a command does.
ghost use Rattle.std.specs.Prelude.{IfOk, IfErr, string_bytes, vec_items};
ghost use Rattle.tce_command.specs.Command.{KeepsRules};
ghost use Rattle.tce_command.specs.CommandCode.{command_of};
ghost use Rattle.tce_top.specs.Performed.{Carries, Finishes, Refuses, seen};

use std::alloc::Global;
use tce_command::{Command, CommandRefusal, Refusal};
use tce_flat::{convert, expand, pack, unpack};
use tce_outside::Disk;
use tce_plan::{certify, plan, verify, write_einsum};
use tce_run::{demo, run, run_all, spill};
use tce_words::Room;

/// Does what a command says, and gives its report.
pub fn perform<D: Disk, R: Room>(
    alloc: Global,
    command: Command<'_>,
    disk: &mut D,
    room: &mut R,
) -> Result<Vec<u8>, CommandRefusal>
    requires { KeepsRules (command_of command) }
    ensures done { IfOk result (λ report. Finishes (command_of command.entry)
        (seen (D.files disk.old) (D.faults disk.old) (R.takings room.old))
        (seen (D.files disk.new) (D.faults disk.new) (R.takings room.new)) report.items) }
    ensures refused { IfErr result (Refuses (command_of command.entry)
        (seen (D.files disk.old) (D.faults disk.old) (R.takings room.old))
        (seen (D.files disk.new) (D.faults disk.new) (R.takings room.new))) }
{
    match command {
        Command::Run { spec, budget } => of_report(run(alloc, spec, budget, disk, room)),
        Command::Batch { spec, budget } => of_report(run_all(alloc, spec, budget, disk, room)),
        Command::Spill {
            spec,
            budget,
            limit,
        } => of_report(spill(alloc, spec, budget, limit, disk, room)),
        Command::Plan { spec } => of_report(plan(alloc, spec, disk)),
        Command::Cert { spec, cert } => of_text(certify(alloc, spec, cert, disk)),
        Command::Check { spec, cert } => of_verdict(verify(alloc, spec, cert, disk)),
        Command::Pack { spec, tensor, flat } => of_text(pack(alloc, spec, tensor, flat, disk)),
        Command::Unpack { spec, tensor, flat } => of_text(unpack(alloc, spec, tensor, flat, disk)),
        Command::Convert { spec, tensor, form } => of_text(convert(
            alloc, spec, tensor, form, disk,
        )),
        Command::Expand { spec, tensor } => of_text(expand(alloc, spec, tensor, disk)),
        Command::Einsum { text, path, spec } => of_text(write_einsum(
            alloc, text, path, spec, disk,
        )),
        Command::Demo { seed, v, o } => of_text(demo(alloc, seed, v, o, disk, room)),
    }
}

// The answer of a command whose report is bytes.
fn of_report(done: Result<Vec<u8>, Refusal>) -> Result<Vec<u8>, CommandRefusal>
    ensures { Carries vec_items vec_items CommandRefusal.Common done result }
{
    match done {
        Ok(report) => Ok(report),
        Err(refusal) => Err(CommandRefusal::Common(refusal)),
    }
}

// The answer of a command whose report is a text.
fn of_text(done: Result<String, Refusal>) -> Result<Vec<u8>, CommandRefusal>
    ensures { Carries string_bytes vec_items CommandRefusal.Common done result }
{
    match done {
        Ok(report) => Ok(report.into_bytes()),
        Err(refusal) => Err(CommandRefusal::Common(refusal)),
    }
}

// The answer of a command that may refuse a certificate.
fn of_verdict(done: Result<String, CommandRefusal>) -> Result<Vec<u8>, CommandRefusal>
    ensures { Carries string_bytes vec_items (λ refusal. refusal) done result }
{
    match done {
        Ok(report) => Ok(report.into_bytes()),
        Err(refusal) => Err(refusal),
    }
}
