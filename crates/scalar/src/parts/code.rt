// The code of a vector (`encode` of scalar.rs), within what the calls have tested. The number of bits is a const parameter:
// LLVM makes a loop of its own for each width, by vectors, and one proof serves the four.
// A const parameter carries no fact, so that BITS is a width's stands in the contracts.
ghost use Rattle.std.specs.Prelude.{◌≡◌, true, ◌+◌, ◌^◌, ◌≤◌, ◌<◌, length};
ghost use Rattle.words.specs.Digits.{join};
ghost use Rattle.digits.specs.Digits as d;
ghost use Rattle.digits.specs.Digits.{bits_of, is_width, per_byte, packed_size};
ghost use Rattle.scalar.specs.Code.{del_of, rounded_code, dimension_code, scalar_code};

use crate::parts::vectors::Vectors;
use digits::Width;
use digits::parts::{per_byte, top};

// The pattern of 2^23: from there on a float has no fraction, and the patterns count the whole numbers up.
const WHOLE: u32 = 0x4B00_0000;

// The code of q. It is held between 0 and top first, and then rounded by adding 2^23: so there is neither a branch nor a
// call, and the loop goes by vectors.
fn code_of(q: f32, top: u8) -> u8
    ensures { result ≡ rounded_code top q }
{
    let x = q.max(0.0).min(f32::from(top));
    (f32::to_bits(x + f32::from_bits(WHOLE)) - WHOLE) as u8
}

// del of a dimension.
pub fn del_of(top: u8, lo: f32, hi: f32) -> f32
    ensures { result ≡ del_of top lo hi }
{
    (hi - lo) / f32::from(top)
}

// The code of dimension i.
#[tactic(auto, unfolding(crate::specs::Code::dimension_code, crate::specs::Code::quotient))]
fn code_at(top: u8, v: &Vectors, i: usize) -> u8
    requires { i < v.now.dims }
    ensures { result ≡ dimension_code top v.now.vector v.now.lo v.now.hi i }
{
    let (x, lo, hi) = v.at(i);
    code_of((x - lo) / del_of(top, lo, hi), top)
}

// The codes of n dimensions from at on, in one byte. This and encode_bits have the loops of digits once more: one loop over
// closures is longer, since the closures for a whole byte and for the last one each state again the place, the count and the result of
// the function that they call, and the shared loop states them a third time.
fn join_at<const BITS: u32>(n: usize, v: &Vectors, at: usize) -> u8
    requires { (is_width BITS ≡ true) × (n ≤ per_byte BITS) × (at + n ≤ v.now.dims) × (v.now.dims < 2 ^ 64) }
    ensures { result ≡ join BITS n (λ j. dimension_code (d.top BITS) v.now.vector v.now.lo v.now.hi (at + j)) }
{
    let mut byte = 0u8;
    for j in 0..n {
        byte += code_at(top::<BITS>(), v, at + j) << (BITS * (j as u32));
    }
    byte
}

fn encode_bits<const BITS: u32>(v: Vectors, out: &mut [u8])
    requires { (is_width BITS ≡ true) × (length out.old ≡ packed_size BITS v.dims) }
    ensures { out.new ≡ scalar_code BITS v.entry.dims v.entry.vector v.entry.lo v.entry.hi }
{
    let dims = v.dims();
    let per = per_byte::<BITS>();
    let whole = dims / per;
    for (k, byte) in out[..whole].iter_mut().enumerate() {
        *byte = join_at::<BITS>(per, &v, k * per);
    }
    let at = whole * per;
    if at < dims {
        out[whole] = join_at::<BITS>(dims - at, &v, at);
    }
}

// The code of a vector.
#[tactic(auto, unfolding(digits::specs::Digits::is_width))]
pub fn encode(w: Width, v: Vectors, out: &mut [u8])
    requires { length out.old ≡ packed_size (bits_of w) v.dims }
    ensures { out.new ≡ scalar_code (bits_of w) v.entry.dims v.entry.vector v.entry.lo v.entry.hi }
{
    match w {
        Width::One => encode_bits::<1>(v, out),
        Width::Two => encode_bits::<2>(v, out),
        Width::Four => encode_bits::<4>(v, out),
        Width::Eight => encode_bits::<8>(v, out),
    }
}
