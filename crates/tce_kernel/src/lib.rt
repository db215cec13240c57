//! Kernels over slices of words, whose sums, differences and products are taken modulo 2^64. Each goes over whole
//! blocks of lanes, and then word by word over those that are left.
//!
//! A name's end says what the operands are: `vv` two slices, `sv` one word and a slice, `vs` a slice and one word.
#![tactic(auto)]

ghost use Rattle.std.specs.Prelude.{◌≡◌, map, length, replicate};
ghost use Rattle.std.specs.Simd.Lanes.{zip2};
ghost use Rattle.tce_base.specs.Word.{wrapping_add, wrapping_sub, wrapping_mul, wrapping_sum};

mod rows;

pub use rows::mul_add_rows;
use std::simd::prelude::*;

const LANES: usize = 8;

/// Makes each word of `out` the product of the words of `a` and `b` at its place.
pub fn mul_vv(out: &mut [u64], a: &[u64], b: &[u64])
    requires a { length a.now ≡ length out.old }
    requires b { length b.now ≡ length out.old }
    ensures { out.new ≡ zip2 wrapping_mul a.now b.now }
{
    let blocks = out.len() / LANES;
    for block in 0..blocks {
        let at = LANES * block;
        let lanes = u64x8::from_slice(&a[at..]) * u64x8::from_slice(&b[at..]);
        lanes.copy_to_slice(&mut out[at..]);
    }
    for at in LANES * blocks..out.len() {
        out[at] = a[at].wrapping_mul(b[at]);
    }
}

/// Makes each word of `out` the product of `s` and the word of `b` at its place.
pub fn mul_sv(out: &mut [u64], s: u64, b: &[u64])
    requires { length b.now ≡ length out.old }
    ensures { out.new ≡ map (wrapping_mul s) b.now }
{
    let factor = u64x8::splat(s);
    let blocks = out.len() / LANES;
    for block in 0..blocks {
        let at = LANES * block;
        let lanes = factor * u64x8::from_slice(&b[at..]);
        lanes.copy_to_slice(&mut out[at..]);
    }
    for at in LANES * blocks..out.len() {
        out[at] = s.wrapping_mul(b[at]);
    }
}

/// Makes each word of `out` the sum of the words of `a` and `b` at its place.
pub fn plus_vv(out: &mut [u64], a: &[u64], b: &[u64])
    requires a { length a.now ≡ length out.old }
    requires b { length b.now ≡ length out.old }
    ensures { out.new ≡ zip2 wrapping_add a.now b.now }
{
    let blocks = out.len() / LANES;
    for block in 0..blocks {
        let at = LANES * block;
        let lanes = u64x8::from_slice(&a[at..]) + u64x8::from_slice(&b[at..]);
        lanes.copy_to_slice(&mut out[at..]);
    }
    for at in LANES * blocks..out.len() {
        out[at] = a[at].wrapping_add(b[at]);
    }
}

/// Makes each word of `out` the sum of `s` and the word of `b` at its place.
pub fn plus_sv(out: &mut [u64], s: u64, b: &[u64])
    requires { length b.now ≡ length out.old }
    ensures { out.new ≡ map (wrapping_add s) b.now }
{
    let summand = u64x8::splat(s);
    let blocks = out.len() / LANES;
    for block in 0..blocks {
        let at = LANES * block;
        let lanes = summand + u64x8::from_slice(&b[at..]);
        lanes.copy_to_slice(&mut out[at..]);
    }
    for at in LANES * blocks..out.len() {
        out[at] = s.wrapping_add(b[at]);
    }
}

/// Makes each word of `out` the word of `a` at its place less that of `b`.
pub fn minus_vv(out: &mut [u64], a: &[u64], b: &[u64])
    requires a { length a.now ≡ length out.old }
    requires b { length b.now ≡ length out.old }
    ensures { out.new ≡ zip2 wrapping_sub a.now b.now }
{
    let blocks = out.len() / LANES;
    for block in 0..blocks {
        let at = LANES * block;
        let lanes = u64x8::from_slice(&a[at..]) - u64x8::from_slice(&b[at..]);
        lanes.copy_to_slice(&mut out[at..]);
    }
    for at in LANES * blocks..out.len() {
        out[at] = a[at].wrapping_sub(b[at]);
    }
}

/// Makes each word of `out` the word `s` less the word of `b` at its place.
pub fn minus_sv(out: &mut [u64], s: u64, b: &[u64])
    requires { length b.now ≡ length out.old }
    ensures { out.new ≡ map (wrapping_sub s) b.now }
{
    let minuend = u64x8::splat(s);
    let blocks = out.len() / LANES;
    for block in 0..blocks {
        let at = LANES * block;
        let lanes = minuend - u64x8::from_slice(&b[at..]);
        lanes.copy_to_slice(&mut out[at..]);
    }
    for at in LANES * blocks..out.len() {
        out[at] = s.wrapping_sub(b[at]);
    }
}

/// Makes each word of `out` the word of `a` at its place less `s`.
pub fn minus_vs(out: &mut [u64], a: &[u64], s: u64)
    requires { length a.now ≡ length out.old }
    ensures { out.new ≡ map (λ x. wrapping_sub x s) a.now }
{
    let subtrahend = u64x8::splat(s);
    let blocks = out.len() / LANES;
    for block in 0..blocks {
        let at = LANES * block;
        let lanes = u64x8::from_slice(&a[at..]) - subtrahend;
        lanes.copy_to_slice(&mut out[at..]);
    }
    for at in LANES * blocks..out.len() {
        out[at] = a[at].wrapping_sub(s);
    }
}

/// Adds to each word of `out` the word of `a` at its place.
pub fn add_vv(out: &mut [u64], a: &[u64])
    requires { length a.now ≡ length out.old }
    ensures { out.new ≡ zip2 wrapping_add out.old a.now }
{
    let blocks = out.len() / LANES;
    for block in 0..blocks {
        let at = LANES * block;
        let lanes = u64x8::from_slice(&out[at..]) + u64x8::from_slice(&a[at..]);
        lanes.copy_to_slice(&mut out[at..]);
    }
    for at in LANES * blocks..out.len() {
        out[at] = out[at].wrapping_add(a[at]);
    }
}

/// Adds to each word of `out` the product of the words of `a` and `b` at its place.
pub fn mul_add_vv(out: &mut [u64], a: &[u64], b: &[u64])
    requires a { length a.now ≡ length out.old }
    requires b { length b.now ≡ length out.old }
    ensures { out.new ≡ zip2 wrapping_add out.old (zip2 wrapping_mul a.now b.now) }
{
    let blocks = out.len() / LANES;
    for block in 0..blocks {
        let at = LANES * block;
        let lanes = u64x8::from_slice(&out[at..])
            + u64x8::from_slice(&a[at..]) * u64x8::from_slice(&b[at..]);
        lanes.copy_to_slice(&mut out[at..]);
    }
    for at in LANES * blocks..out.len() {
        out[at] = out[at].wrapping_add(a[at].wrapping_mul(b[at]));
    }
}

/// Adds to each word of `out` the product of `s` and the word of `b` at its place.
pub fn mul_add_sv(out: &mut [u64], s: u64, b: &[u64])
    requires { length b.now ≡ length out.old }
    ensures { out.new ≡ zip2 wrapping_add out.old (map (wrapping_mul s) b.now) }
{
    let factor = u64x8::splat(s);
    let blocks = out.len() / LANES;
    for block in 0..blocks {
        let at = LANES * block;
        let lanes = u64x8::from_slice(&out[at..]) + factor * u64x8::from_slice(&b[at..]);
        lanes.copy_to_slice(&mut out[at..]);
    }
    for at in LANES * blocks..out.len() {
        out[at] = out[at].wrapping_add(s.wrapping_mul(b[at]));
    }
}

/// The sum of the products of the words of `a` and `b` at each place.
pub fn dot(a: &[u64], b: &[u64]) -> u64
    requires { length b.now ≡ length a.now }
    ensures { result ≡ wrapping_sum (zip2 wrapping_mul a.now b.now) }
{
    let mut lanes = u64x8::splat(0);
    let blocks = a.len() / LANES;
    for block in 0..blocks {
        let at = LANES * block;
        lanes += u64x8::from_slice(&a[at..]) * u64x8::from_slice(&b[at..]);
    }
    let mut total = lanes.reduce_sum();
    for at in LANES * blocks..a.len() {
        total = total.wrapping_add(a[at].wrapping_mul(b[at]));
    }
    total
}

/// The sum of the words of `a`.
pub fn sum(a: &[u64]) -> u64
    ensures { result ≡ wrapping_sum a.now }
{
    let mut lanes = u64x8::splat(0);
    let blocks = a.len() / LANES;
    for block in 0..blocks {
        lanes += u64x8::from_slice(&a[LANES * block..]);
    }
    let mut total = lanes.reduce_sum();
    for at in LANES * blocks..a.len() {
        total = total.wrapping_add(a[at]);
    }
    total
}

/// Makes each word of `out` 0.
pub fn clear(out: &mut [u64])
    ensures { out.new ≡ replicate (length out.old) 0 }
{
    out.fill(0);
}
