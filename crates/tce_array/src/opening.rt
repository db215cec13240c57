// Opening and creating array files.
ghost use Rattle.std.specs.Prelude.{◌≡◌, ℕ, ◌+◌, ◌*◌, ◌≤◌, ◌<◌, List, length, take, IfOk, IfErr, OnOk, IsErr, IsErrOf, Err, codes, ◌++◌};
ghost use Rattle.tce_outside.specs.Files.{others, written};
ghost use Rattle.tce_outside.specs.Fault.{FaultReported, HasFailed};
ghost use Rattle.tce_array.specs.Forms.{head, form_by_start};
ghost use Rattle.tce_array.specs.Faults.{IsDiskFault};
ghost use Rattle.std.specs.Str.{bytes_eq};
ghost use Rattle.tce_base.specs.Word.{word_of_bytes};
ghost use Rattle.tce_array.specs.OnDisk.{HasLengthOn, HasFormOn, HasArrayOn, HasFaultOn, IsOnlyAnswerOn, HoldsZeros, HasRoomForHead, HoldsHead, SameBehindHead};

use crate::fault::ArrayFault;
use crate::form::Form;
use crate::head::{LARGEST_HEAD, first_difference, head, magic};
use crate::place::form_len;
use byteorder::{ByteOrder, LittleEndian};
use tce_outside::{Disk, Failed, OutFault};
use tce_space::Shape;

// Whether a file begins as one of the second version.
fn is_second_version(start: &[u8]) -> bool
    requires { 8 ≤ length start.now }
    ensures { result ≡ bytes_eq (take 8 start.now) (codes "TCARRAY2") }
{
    &start[..8] == magic(Form::Wide)
}

// The form of a file, by its first bytes.
#[tactic(auto, unfolding(tce_base::specs::Word::word_of_bytes))]
fn form_of_start(start: &[u8]) -> Form
    requires { length start.now ≡ 24 }
    ensures { result ≡ form_by_start start.now }
{
    if !is_second_version(start) {
        Form::One
    } else if LittleEndian::read_u64(&start[16..]) == 4 {
        Form::Narrow
    } else {
        Form::Wide
    }
}

// The form of a file of this length.
fn find_form<D: Disk>(disk: &mut D, name: &str, len: u64) -> Result<Form, Failed>
    requires { HasLengthOn (D.files disk.old) name.now len }
    ensures form { IfOk result (HasFormOn (D.files disk.old) name.now) }
    ensures same { D.files disk.new ≡ D.files disk.old }
    ensures fault_reported { FaultReported D.faults disk.old disk.new (IsErr result) }
{
    if len < 24 {
        return Ok(Form::One);
    }
    let mut start = [0; 24];
    disk.read_at(name, 0, &mut start)?;
    Ok(form_of_start(&start))
}

/// The form of the array file of this name, if it is one of this shape.
///
/// `NoFile` where there is no such file. Else `BadLength` with the file's length in bytes where that is not the
/// length of the file's form for this shape. Else `BadHeader` with the place of the first byte at which the file
/// differs from the head of its form for this shape. `Disk` only where the disk failed.
///
/// No file changes. Nothing is sized by what the file says of itself: at most one head is read, and no memory taken.
pub fn open<D: Disk>(disk: &mut D, name: &str, shape: &Shape) -> Result<Form, ArrayFault>
    ensures form { IfOk result (HasArrayOn (D.files disk.old) name.now shape.now) }
    ensures fault { IfErr result (HasFaultOn (D.files disk.old) name.now shape.now) }
    ensures exact { IsOnlyAnswerOn (D.files disk.old) name.now shape.now result }
    ensures same { D.files disk.new ≡ D.files disk.old }
    ensures fault_reported { FaultReported D.faults disk.old disk.new (IsDiskFault result) }
{
    let Ok(size) = disk.size(name) else {
        return Err(ArrayFault::Disk);
    };
    let Some(len) = size else {
        return Err(ArrayFault::NoFile);
    };
    let Ok(form) = find_form(disk, name, len) else {
        return Err(ArrayFault::Disk);
    };
    if len != form_len(form, shape) {
        return Err(ArrayFault::BadLength(len));
    }
    let expected = head(form, shape);
    let mut buffer = [0; LARGEST_HEAD];
    let found = &mut buffer[..expected.len()];
    let Ok(()) = disk.read_at(name, 0, found) else {
        return Err(ArrayFault::Disk);
    };
    match first_difference(found, expected.as_slice()) {
        Some(place) => Err(ArrayFault::BadHeader(place as u64)),
        None => Ok(form),
    }
}

/// Puts an array of this form and shape, whose elements are all 0, in the place of whatever has this name.
///
/// For want of memory (`Memory`) no file changes. Where the disk fails (`Failed`), the file of this name may hold
/// anything or be absent. All other files stay in every case. The head alone is written: the zeros come from
/// making the file.
pub fn create<D: Disk>(disk: &mut D, name: &str, form: Form, shape: &Shape) -> Result<(), OutFault>
    ensures zeros { OnOk result (HoldsZeros D.files disk.old disk.new name.now form shape.now) }
    ensures memory { IsErrOf result OutFault.Memory → D.files disk.new ≡ D.files disk.old }
    ensures others { others name.now (D.files disk.new) ≡ others name.now (D.files disk.old) }
    ensures fault_reported { FaultReported D.faults disk.old disk.new (HasFailed result) }
{
    disk.make(name, form_len(form, shape))?;
    let head = head(form, shape);
    match disk.write_at(name, 0, head.as_slice()) {
        Ok(()) => Ok(()),
        Err(Failed) => Err(OutFault::Failed),
    }
}

/// Writes the head of an array of this form and shape over the first bytes of the file of this name.
///
/// It comes last where a file is made that is an array only when all its elements are there: before that the file is
/// of zeros where its head is to be. Where the disk fails, these first bytes may hold anything. All that stands behind
/// them and all other files stay in every case.
pub fn write_head<D: Disk>(
    disk: &mut D,
    name: &str,
    form: Form,
    shape: &Shape,
) -> Result<(), Failed>
    requires { HasRoomForHead (D.files disk.old) name.now form shape.now }
    ensures written { OnOk result (HoldsHead D.files disk.old disk.new name.now form shape.now) }
    ensures behind { SameBehindHead name.now form shape.now (D.files disk.old) (D.files disk.new) }
    ensures others { others name.now (D.files disk.new) ≡ others name.now (D.files disk.old) }
    ensures fault_reported { FaultReported D.faults disk.old disk.new (IsErr result) }
{
    let head = head(form, shape);
    disk.write_at(name, 0, head.as_slice())
}
