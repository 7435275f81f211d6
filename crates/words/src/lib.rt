// What every module speaks: numbers and floats in little-endian bytes, the refusals, the limits, judged dims, the metric.
#![tactic(auto)]

ghost use Rattle.std.specs.Prelude.{◌≡◌, ◌+◌, ◌*◌, ◌%◌, ◌^◌, ◌≤◌, ◌<◌, leb, length, get_or, false, cond};
ghost use Rattle.std.specs.Float.Ieee.{is_nan, nan_bits};
ghost use Rattle.std.specs.Float.{binary32};
ghost use Rattle.std.proofs.lemmas.List.Edits.{sets};
ghost use Rattle.words.specs.Bytes.{num_at, bytes_of, f32_at, float_bytes};
ghost use Rattle.words.specs.Floats.{missing, any_nan};
ghost use Rattle.words.specs.Lists.{any_below, any_above};

pub use dims::Dims;
pub use metric::Metric;
pub use refusal::{Refusal, has_length, has_lists, status};

mod dims;
mod metric;
mod refusal;

// The paper's limits (specs/Limits says of what).
pub const MOST_DIMS: u32 = 4369;

pub const MOST_SCALAR_DIMS: u32 = 65535;

pub const TOP_CODE: u32 = 15;

pub const MOST_RECORDS: u32 = 1048576;

pub const MOST_PLACES: usize = 4096;

pub const MOST_MARK: u8 = GIVEN;

// The marks of a candidate. They are bytes of a list that a caller lends (the C interface), which may hold any other: so no enum.
pub const WAITING: u8 = 0;

pub const ASKED: u8 = 1;

pub const GIVEN: u8 = 2;

// The bits of an infinity, and the least of a NaN, their sign dropped.
const INFINITY: u32 = 0x7F80_0000;

const LEAST_NAN: u32 = INFINITY + 1;

// Byte i of s, and 0 past its end.
pub fn byte_at(s: &[u8], i: usize) -> u8
    ensures { result ≡ get_or s.now i 0 }
{
    s.get(i).copied().unwrap_or(0)
}

// The 32-bit number whose four bytes stand at place at, lowest first. They are a part of their own, so that the places in it
// are constants: LLVM makes one load of that, and whole vectors of the loops over it.
pub fn u32_at(s: &[u8], at: usize) -> u32
    requires { at + 4 ≤ length s.now }
    ensures { result ≡ num_at 4 s.now at }
{
    let p = &s[at..at + 4];
    u32::from_le_bytes([p[0], p[1], p[2], p[3]])
}

// The 64-bit number whose eight bytes stand at place at, lowest first.
pub fn u64_at(s: &[u8], at: usize) -> u64
    requires { at + 8 ≤ length s.now }
    ensures { result ≡ num_at 8 s.now at }
{
    // By two halves: over u64::from_le_bytes, which adds eight bytes, the loop of digits that packs codes of one bit goes by no vectors and
    // takes 147 ns in place of 76 (1,024 codes, the loop alone, in C).
    let lo = u32_at(s, at);
    let hi = u32_at(s, at + 4);
    u64::from(lo) + u64::from(hi) * 0x1_0000_0000
}

// The float whose four bytes are those of place i, for every bit pattern: a NaN pattern gives a NaN.
pub fn f32_at(s: &[u8], i: usize) -> f32
    requires { 4 * i + 4 ≤ length s.now }
    ensures { result ≡ f32_at s.now i }
{
    let n = u32_at(s, 4 * i);
    if INFINITY < n % 0x8000_0000 {
        return f32::NAN;
    }
    f32::from_bits(n)
}

// The float of place i where it is no NaN.
pub fn number_at(s: &[u8], i: usize) -> f32
    requires { (4 * i + 4 ≤ length s.now) × (is_nan (f32_at s.now i) ≡ false) }
    ensures { result ≡ f32_at s.now i }
{
    f32::from_bits(u32_at(s, 4 * i))
}

// ---- tests over a buffer. Their loops don't leave early, and add up a number for each float and no truth: so they go by vectors. They take
// the first n floats of a buffer, which may be longer (the factors of a block): the facts of n stand in three contracts, where a type would
// serve these three alone. They go by place, as their definitions do.

// 1 where the bits n, their sign dropped, are at least `least`, else 0. A mask in place of the quotient would split the load.
fn reaches(least: u32, n: u32) -> u32
    ensures { (result ≡ cond (leb least (n % 0x8000_0000)) 1 0) × (result ≤ 1) }
{
    let sign = n / 0x8000_0000;
    u32::from(least <= n - sign * 0x8000_0000)
}

// 1 where the bits are a NaN's, else 0.
pub fn nan_one(n: u32) -> u32
    ensures { (result ≡ cond (nan_bits binary32 n) 1 0) × (result ≤ 1) }
{
    reaches(LEAST_NAN, n)
}

// Whether the bits of one of the first n floats of s, their sign dropped, are at least `least`.
fn any_from(least: u32, s: &[u8], n: usize) -> bool
    requires { (4 * n ≤ length s.now) × (n < 2 ^ 32) }
    ensures { result ≡ any_below n (λ i. leb least (num_at 4 s.now (4 * i) % 0x8000_0000)) }
{
    let mut count: u32 = 0;
    for i in 0..n {
        count += reaches(least, u32_at(s, 4 * i));
    }
    0 < count
}

// Whether one of the first n floats of s is a NaN or an infinity.
pub fn any_missing(s: &[u8], n: usize) -> bool
    requires { (4 * n ≤ length s.now) × (n < 2 ^ 32) }
    ensures { result ≡ missing n s.now }
{
    any_from(INFINITY, s, n)
}

// Whether one of the first n floats of s is a NaN.
pub fn any_nan(s: &[u8], n: usize) -> bool
    requires { (4 * n ≤ length s.now) × (n < 2 ^ 32) }
    ensures { result ≡ any_nan n s.now }
{
    any_from(LEAST_NAN, s, n)
}

// Whether a byte of s is above top. The loop takes the largest, in bytes alone.
pub fn any_above(top: u32, s: &[u8]) -> bool
    ensures { result ≡ any_above top s.now }
{
    let mut most: u8 = 0;
    for x in s {
        most = most.max(*x);
    }
    top < u32::from(most)
}

// ---- writers

// The four bytes of x, lowest first, from place at on.
pub fn put_u32(out: &mut [u8], at: usize, x: u32)
    requires { at + 4 ≤ length out.old }
    ensures { out.new ≡ sets out.old at (bytes_of 4 x) }
{
    out[at..at + 4].copy_from_slice(&x.to_le_bytes());
}

// The eight bytes of x, lowest first, from place at on. As put_u32: one function over both sizes would be longer than this line of it.
pub fn put_u64(out: &mut [u8], at: usize, x: u64)
    requires { at + 8 ≤ length out.old }
    ensures { out.new ≡ sets out.old at (bytes_of 8 x) }
{
    out[at..at + 8].copy_from_slice(&x.to_le_bytes());
}

// The four bytes of a float, from place at on. A NaN is written as the one pattern 0x7FC0_0000. One store for both: where there were two,
// no loop over floats went by vectors.
pub fn put_f32(out: &mut [u8], at: usize, x: f32)
    requires { at + 4 ≤ length out.old }
    ensures { out.new ≡ sets out.old at (float_bytes x) }
{
    let pattern = if x.is_nan() { 0x7FC0_0000 } else { x.to_bits() };
    put_u32(out, at, pattern);
}

// A 32-bit number as a whole buffer.
pub fn put_number(out: &mut [u8], x: u32)
    requires { length out.old ≡ 4 }
    ensures { out.new ≡ bytes_of 4 x }
{
    put_u32(out, 0, x);
}

// A float as a whole buffer.
pub fn put_float(out: &mut [u8], x: f32)
    requires { length out.old ≡ 4 }
    ensures { out.new ≡ float_bytes x }
{
    put_f32(out, 0, x);
}
