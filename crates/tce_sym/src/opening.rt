// Opening files of stored elements.
ghost use Rattle.std.specs.Prelude.{◌≡◌, ◌+◌, ◌<◌, ◌≤◌, false, IsTrue, length, take, codes, IfOk, IfErr, IsErr, MatchOption};
ghost use Rattle.tce_outside.specs.Fault.{FaultReported};
ghost use Rattle.tce_array.specs.Faults.{DifferFirst};
ghost use Rattle.tce_sym.specs.Storage.{AreRight, IsHead, number_at};
ghost use Rattle.tce_sym.specs.Faults.{ArePositions, IsWrongAt};
ghost use Rattle.tce_sym.specs.Told.{IsStoredIn, IsFaultOf, IsOnlyAnswerTo, IsDiskFault};

use crate::fault::SymFault;
use crate::symmetry::{Symmetry, stored_count};
use byteorder::{ByteOrder, LittleEndian};
use tce_outside::Disk;
use tce_space::Shape;

// The bytes of a head.
const HEAD_LEN: usize = 32;

const MARK: &[u8] = b"TCSYMM01";

// The first place at which two texts of one length differ.
fn first_difference(found: &[u8], expected: &[u8]) -> Option<usize>
    requires { length found.now ≡ length expected.now }
    ensures { MatchOption result (found.now ≡ expected.now) (DifferFirst found.now expected.now) }
{
    for i in 0..found.len() {
        if found[i] != expected[i] {
            return Some(i);
        }
    }
    None
}

// A number in the head.
#[tactic(auto, unfolding(tce_base::specs::Word::word_of_bytes))]
fn number_at(head: &[u8], at: usize) -> u64
    requires { at + 8 ≤ length head.now }
    ensures { result ≡ number_at head.now at }
{
    LittleEndian::read_u64(&head[at..])
}

// Whether two numbers are right positions.
fn are_positions(shape: &Shape, first: u64, second: u64) -> bool
    ensures yes { IsTrue result → ArePositions shape.now.extents first second }
    ensures no { result ≡ false → ArePositions shape.now.extents first second → ⊥ }
    ensures few { IsTrue result → second < 8 }
{
    let extents = shape.extents();
    let rank = extents.len() as u64;
    first < second && second < rank && extents[first as usize] == extents[second as usize]
}

// The symmetry that a head tells, or the first byte from which on the head is wrong.
fn read_head(shape: &Shape, head: &[u8]) -> Result<Symmetry, u64>
    requires { length head.now ≡ 32 }
    ensures read { IfOk result (λ s. IsHead shape.now.extents s head.now) }
    ensures wrong { IfErr result (λ place. IsWrongAt shape.now.extents head.now place) }
{
    if let Some(place) = first_difference(&head[..8], MARK) {
        return Err(place as u64);
    }
    let first = number_at(head, 8);
    let second = number_at(head, 16);
    if !are_positions(shape, first, second) {
        return Err(8);
    }
    let sign = number_at(head, 24);
    if sign > 1 {
        return Err(24);
    }
    Ok(Symmetry {
        first: first as u8,
        second: second as u8,
        negated: sign == 1,
    })
}

/// The symmetry of the file of stored elements of this name, if it is one for this shape.
///
/// In this order: `NoFile` where there is no such file; `BadLength` with the file's length in bytes where it is below 32;
/// `BadHeader` with the first byte at which the mark differs; `BadHeader(8)` where the positions are not those of two
/// dimensions of one extent, the lower first; `BadHeader(24)` where the sign is neither 0 nor 1; `BadLength` where the
/// length is not that of the stored elements. `Disk` only where the disk failed.
///
/// No file changes. Nothing is sized by what the file says of itself: at most the head is read, and no memory taken.
pub fn open_sym<D: Disk>(disk: &mut D, name: &str, shape: &Shape) -> Result<Symmetry, SymFault>
    ensures right { IfOk result (λ s. AreRight shape.now.extents s) }
    ensures opened { IfOk result (IsStoredIn (D.files disk.old) name.now shape.now.extents) }
    ensures fault { IfErr result (IsFaultOf (D.files disk.old) name.now shape.now.extents) }
    ensures exact { IsOnlyAnswerTo (D.files disk.old) name.now shape.now.extents result }
    ensures same { D.files disk.new ≡ D.files disk.old }
    ensures fault_reported { FaultReported D.faults disk.old disk.new (IsDiskFault result) }
{
    let Ok(size) = disk.size(name) else {
        return Err(SymFault::Disk);
    };
    let Some(len) = size else {
        return Err(SymFault::NoFile);
    };
    if len < HEAD_LEN as u64 {
        return Err(SymFault::BadLength(len));
    }
    let mut head = [0; HEAD_LEN];
    let Ok(()) = disk.read_at(name, 0, &mut head) else {
        return Err(SymFault::Disk);
    };
    match read_head(shape, &head) {
        Err(place) => Err(SymFault::BadHeader(place)),
        Ok(s) => {
            if len == HEAD_LEN as u64 + 8 * stored_count(shape, &s) {
                Ok(s)
            } else {
                Err(SymFault::BadLength(len))
            }
        }
    }
}
