// Module 3: the square root of an f32, IEEE 754-2019, correctly rounded, ties to even.
#![tactic(auto)]

ghost use Rattle.std.specs.Prelude.{◌≡◌};
ghost use Rattle.words.specs.Refusals.{status};
ghost use Rattle.root.specs.Root.{root_of};
ghost use Rattle.root.specs.Calls.{root_answer};

mod pattern;

use words::{Refusal, has_length, put_float};

// The square root of x. A zero keeps its sign; a NaN and a number below 0 have none. Past the test for a NaN all is done on the bit
// pattern, so the machine's rounding mode changes no answer, nor does a mode in which it takes subnormal numbers for 0.
pub fn square_root(x: f32) -> Option<f32>
    ensures { result ≡ root_of x }
{
    if x.is_nan() {
        return None;
    }
    let b = x.to_bits();
    if b > 0x8000_0000 {
        return None;
    }
    // a zero or the infinity
    if b == 0 || b >= 0x7F80_0000 {
        return Some(x);
    }
    Some(f32::from_bits(pattern::root_bits(b)))
}

// The root of x as the four bytes of out.
#[tactic(auto, unfolding(crate::specs::Calls::root_answer, crate::specs::Calls::root_number, words::specs::Refusals::answer, words::specs::Refusals::after))]
pub fn root_bytes(x: f32, out: &mut [u8]) -> Result<(), Refusal>
    ensures { (status result, out.new) ≡ root_answer x out.old }
{
    has_length(out, 4)?;
    let root = square_root(x).ok_or(Refusal::Missing)?;
    put_float(out, root);
    Ok(())
}
