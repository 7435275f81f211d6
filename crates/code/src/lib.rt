// Module 4, the single code: its public calls. The functions of the crate lintelkite are these.
#![tactic(auto)]

ghost use Rattle.std.specs.Prelude.{◌≡◌};
ghost use Rattle.words.specs.Refusals.{status};
ghost use Rattle.code.specs.Calls.{size_answer, encode_answer, bit_answer};

use vector::Vector;
use words::{Dims, MOST_DIMS, Refusal, has_length, put_number};

pub mod parts;
mod vector;

// The size of a single code.
#[tactic(auto, unfolding(words::specs::Refusals::size_answer, words::specs::Refusals::size_number, words::specs::Refusals::answer, words::specs::Refusals::after))]
pub fn code_size(dims: u32, out: &mut [u8]) -> Result<(), Refusal>
    ensures { (status result, out.new) ≡ size_answer dims out.old }
{
    let dims = Dims::<MOST_DIMS>::try_from(dims)?;
    has_length(out, 4)?;
    put_number(out, parts::code_size(dims) as u32);
    Ok(())
}

// The four factors, bit for bit, and the signs of a vector of dims floats.
#[tactic(auto, unfolding(crate::specs::Calls::encode_answer, crate::specs::Calls::encode_number, words::specs::Refusals::answer, words::specs::Refusals::after))]
pub fn code_encode(dims: u32, factors: &[u8], vector: &[u8], code: &mut [u8]) -> Result<(), Refusal>
    ensures { (status result, code.new) ≡ encode_answer dims factors.now vector.now code.old }
{
    let dims = Dims::<MOST_DIMS>::try_from(dims)?;
    has_length(factors, 16)?;
    let vector = Vector::judged(dims, vector)?;
    has_length(code, parts::code_size(dims))?;
    if vector.any_missing() {
        return Err(Refusal::Missing);
    }
    vector.encode(factors, code);
    Ok(())
}

// The bit of a dimension.
#[tactic(auto, unfolding(crate::specs::Calls::bit_answer, crate::specs::Calls::bit_number, words::specs::Refusals::answer, words::specs::Refusals::after))]
pub fn code_bit(dims: u32, code: &[u8], index: u32, out: &mut [u8]) -> Result<(), Refusal>
    ensures { (status result, out.new) ≡ bit_answer dims code.now index out.old }
{
    let dims = Dims::<MOST_DIMS>::try_from(dims)?;
    has_length(code, parts::code_size(dims))?;
    has_length(out, 4)?;
    let d = index as usize;
    if dims.get() <= d {
        return Err(Refusal::OutOfRange);
    }
    put_number(out, parts::bit(code, d));
    Ok(())
}
