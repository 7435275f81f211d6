// Module 2, scalar quantizer: the code of a vector. Tables and distances stand in the crate tables.
#![tactic(auto)]

ghost use Rattle.std.specs.Prelude.{◌≡◌};
ghost use Rattle.words.specs.Refusals.{status};
ghost use Rattle.scalar.specs.Calls.{encode_answer};

use digits::Width;
use digits::parts::packed_size;
use parts::vectors::Vectors;
use words::{Dims, MOST_SCALAR_DIMS, Refusal, has_length};

pub mod parts;

// The code of a vector.
#[tactic(auto, unfolding(crate::specs::Calls::encode_answer, crate::specs::Calls::encode_number, words::specs::Refusals::answer, words::specs::Refusals::after))]
pub fn scalar_encode<'a>(
    dims: u32,
    bits: u32,
    vector: &'a [u8],
    min: &'a [u8],
    max: &'a [u8],
    code: &mut [u8],
) -> Result<(), Refusal>
    ensures { (status result, code.new) ≡ encode_answer dims bits vector.now min.now max.now code.old }
{
    let dims = Dims::<MOST_SCALAR_DIMS>::try_from(dims)?;
    let w = Width::try_from(bits)?;
    has_length(code, packed_size(w, dims))?;
    let v = Vectors::judged(dims, vector, min, max)?;
    parts::code::encode(w, v, code);
    Ok(())
}
