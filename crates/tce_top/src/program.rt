// The program over what the system gives it: the words of its command line and the files of the current folder.
ghost use Rattle.std.specs.Prelude.{◌≡◌, drop, map, IfOk};
ghost use Rattle.std.specs.Process.{exit_status};
ghost use Rattle.std.specs.String.{string_bytes};
ghost use Rattle.std.specs.Vec.Iter.{into_iter_items};
ghost use Rattle.tce_top.specs.Answer.{IsAnswer};

use crate::top::tce;
use std::alloc::{AllocError, Global};
use std::env::{self, Args};
use std::fs::File;
use std::io::ErrorKind;
use std::process::ExitCode;
use std::rt::{Env, Files};
use tce_outside::Sink;
use tce_system::{FileDisk, SparseDisk};
use tce_words::HeapRoom;

/// The words behind the program's name. Where the system does not give them as text there are none, which are no command.
///
/// # Errors
/// There is no memory.
pub fn words_of<R: Env>(alloc: Global, env: &R) -> Result<Vec<String>, AllocError> {
    match env::args(&(env, alloc)) {
        Ok(args) => behind_first(alloc, args),
        Err(error) if error.kind() == ErrorKind::OutOfMemory => Err(AllocError),
        Err(_) => Ok(Vec::new(alloc)),
    }
}

// The arguments behind the first, which is the program's name.
fn behind_first(alloc: Global, args: Args) -> Result<Vec<String>, AllocError>
    ensures { IfOk result (λ words. words.items ≡ drop 1 (into_iter_items args)) }
{
    args.skip(1).collect(alloc)
}

/// Does what the words say over the files of the system, of which holes are not read. The exit status is that of a
/// `Status` of which all holds that [`tce`] says of words and sink.
pub fn answer<R: Files<File = File>, K: Sink>(
    alloc: Global,
    words: &[String],
    files: &R,
    out: &mut K,
) -> ExitCode
    ensures { IsAnswer (map string_bytes words.now) (K.bytes out.old) (K.bytes out.new)
        (K.faults out.old) (K.faults out.new) (exit_status result) }
{
    let mut disk = SparseDisk::new(alloc, FileDisk::new(alloc, files));
    let mut room = HeapRoom::new(alloc);
    let status = tce(alloc, words, &mut disk, out, &mut room);
    drop(room);
    drop(disk);
    status.exit_code()
}
