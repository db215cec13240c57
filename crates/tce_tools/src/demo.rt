// The data of the demonstration.
ghost use Rattle.std.specs.Prelude.{◌≡◌, ℕ, ◌+◌, ◌<◌, ◌≤◌, length, slice_index, OnOk, IfOk, IsErrOf};
ghost use Rattle.tce_space.specs.Tiling.{elements};
ghost use Rattle.tce_outside.specs.Files.{others};
ghost use Rattle.tce_outside.specs.Fault.{FaultReported, HasFailed};
ghost use Rattle.std.specs.String.{string_bytes};
ghost use Rattle.tce_tools.specs.Demo.{drawn, digit, range_line, demo_text};
ghost use Rattle.tce_tools.specs.Told.{Draws, DrawsBare, MayDraw};

use crate::band::band_at;
use crate::banding::write_band;
use crate::buffers::Buffers;
use crate::storage::{ElementFile, Storage, make, write_start};
use std::alloc::{AllocError, Global};
use tce_array::Form;
use tce_outside::{Disk, Failed, OutFault};
use tce_space::Shape;

const FORMULA: &str =
    "index V a b c d e f\nindex O i j k l\ntensor demoA[V,V,O,O]\ntensor demoB[V,V,V,O]\ntensor demoC[V,V,O,O]\ntensor demoD[V,V,V,O]\ntensor demoS[V,V,O,O]\ndemoS[a,b,i,j] = sum{c,k}(sum{d,f}(sum{e,l}(demoB[b,e,f,l] * demoD[c,d,e,l]) * demoC[d,f,j,k]) * demoA[a,c,i,k])\n";

// The line of a range, in tiles of at most four; tiles of one are not said.
fn range_line(alloc: Global, name: &str, extent: u64) -> Result<String, AllocError>
    ensures { IfOk result (λ line. string_bytes line ≡ range_line name.now extent) }
{
    if extent == 1 {
        return format!(in alloc; "range {name} {extent}\n");
    }
    let edge = extent.min(4);
    format!(in alloc; "range {name} {extent} tile {edge}\n")
}

/// The text of the specification of the demonstration: the ranges `V` and `O` have these extents, in tiles of at most
/// four, and the formula multiplies and sums four arrays as the term of a coupled cluster theory does (Baumgartner et
/// al. 2005).
pub fn demo_spec(alloc: Global, v: u64, o: u64) -> Result<Vec<u8>, AllocError>
    requires v { (1 ≤ v) × (v ≤ 32) }
    requires o { (1 ≤ o) × (o ≤ 32) }
    ensures { IfOk result (λ text. text.items ≡ demo_text v o) }
{
    let mut text = range_line(alloc, "V", v)?;
    let other = range_line(alloc, "O", o)?;
    text.push_str(other.as_str())?;
    text.push_str(FORMULA)?;
    Ok(text.into_bytes())
}

// The next number of the generator of Park and Miller (1988), with the multiplier of 1993.
#[tactic(auto, unfolding(crate::specs::Demo::drawn))]
fn next_number(x: u64) -> u64
    requires { x < 2147483647 }
    ensures drawn { result ≡ drawn x 1 }
    ensures small { result < 2147483647 }
{
    x * 48271 % 2147483647
}

// Puts the last digits of the next numbers, and gives the last number.
fn draw(x: u64, digits: &mut [u64]) -> u64
    requires { x < 2147483647 }
    ensures digits { (k : ℕ) → k < length digits.new → slice_index digits.new k ≡ digit x (k + 1) }
    ensures last { result ≡ drawn x (length digits.new) }
    ensures len { length digits.new ≡ length digits.old }
    ensures small { result < 2147483647 }
{
    let mut number = x;
    for k in 0..digits.len() {
        number = next_number(number);
        digits[k] = number % 10;
    }
    number
}

// Makes a file of the last digits of the numbers that are drawn after `x`, with zeros in the place of its head, and gives
// the last number drawn.
fn demo_elements<D: Disk>(
    disk: &mut D,
    shape: &Shape,
    array: &str,
    x: u64,
    buffers: &mut Buffers,
) -> Result<u64, OutFault>
    requires low { 1 ≤ x }
    requires high { x ≤ 2147483646 }
    ensures made { OnOk result
        (DrawsBare array.now shape.now x (D.files disk.old) (D.files disk.new)) }
    ensures last { IfOk result (λ number. number ≡ drawn x (elements shape.now)) }
    ensures memory { IsErrOf result OutFault.Memory → D.files disk.new ≡ D.files disk.old }
    ensures no_half { MayDraw array.now shape.now x (D.files disk.old) (D.files disk.new) }
    ensures others { others array.now (D.files disk.new) ≡ others array.now (D.files disk.old) }
    ensures fault_reported { FaultReported D.faults disk.old disk.new (HasFailed result) }
{
    make(disk, array, Storage::Array(Form::One), shape)?;
    let bytes = buffers.bytes.as_mut_slice();
    let tiled = buffers.tiled.as_mut_slice();
    let buffer = buffers.words.as_mut_slice();
    let made = ElementFile {
        name: array,
        storage: Storage::Array(Form::One),
        shape,
    };
    let elements = shape.elements();
    let mut number = x;
    let mut done = 0;
    while done < elements {
        let band = band_at(shape, done);
        let digits = &mut buffer[..band.len as usize];
        number = draw(number, digits);
        let Ok(()) = write_band(disk, &made, band, bytes, tiled, digits) else {
            return Err(OutFault::Failed);
        };
        done += band.len;
    }
    Ok(number)
}

/// Makes an array file, in the first form, of the last digits of the numbers that the generator draws after `x`, in
/// row-major order, and gives the last number drawn.
///
/// The generator takes 48271 times its number, modulo 2^31 - 1 (Park, Miller and Stockmeyer 1993). For want of memory no
/// file changes; where the disk fails, the array file is as it was, is absent, begins with zeros as no array does, or is
/// whole but for its head, which is written last.
pub fn demo_array<D: Disk>(
    disk: &mut D,
    shape: &Shape,
    array: &str,
    x: u64,
    buffers: &mut Buffers,
) -> Result<u64, OutFault>
    requires low { 1 ≤ x }
    requires high { x ≤ 2147483646 }
    ensures made { OnOk result (Draws array.now shape.now x (D.files disk.old) (D.files disk.new)) }
    ensures last { IfOk result (λ number. number ≡ drawn x (elements shape.now)) }
    ensures memory { IsErrOf result OutFault.Memory → D.files disk.new ≡ D.files disk.old }
    ensures no_half { MayDraw array.now shape.now x (D.files disk.old) (D.files disk.new) }
    ensures others { others array.now (D.files disk.new) ≡ others array.now (D.files disk.old) }
    ensures fault_reported { FaultReported D.faults disk.old disk.new (HasFailed result) }
{
    let _limits = shape.elements();
    let number = demo_elements(disk, shape, array, x, buffers)?;
    match write_start(disk, array, Storage::Array(Form::One), shape) {
        Ok(()) => Ok(number),
        Err(Failed) => Err(OutFault::Failed),
    }
}
