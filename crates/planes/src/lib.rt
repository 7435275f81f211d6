// Module 6, the sum of a single code. The planes are made here, from the query codes, and never handed in.
#![tactic(auto)]

ghost use Rattle.std.specs.Prelude.{◌≡◌};
ghost use Rattle.words.specs.Refusals.{status};
ghost use Rattle.sums.specs.Calls.{code_sum_answer};

use code::parts::code_size;
pub use planes::{PLANE_WORDS, Planes};
use sums::QueryCodes;
use words::{Dims, MOST_DIMS, Refusal, has_length, put_number};

pub mod parts;
mod planes;

// The sum of a single code, by planes.
#[tactic(auto, unfolding(sums::specs::Calls::code_sum_answer, sums::specs::Calls::sum_number, words::specs::Refusals::answer, words::specs::Refusals::after))]
pub fn code_sum(dims: u32, query: &[u8], code: &[u8], out: &mut [u8]) -> Result<(), Refusal>
    ensures { (status result, out.new) ≡ code_sum_answer dims query.now code.now out.old }
{
    let dims = Dims::<MOST_DIMS>::try_from(dims)?;
    has_length(query, dims.get())?;
    has_length(code, code_size(dims))?;
    has_length(out, 4)?;
    let query = QueryCodes::judged(dims, query)?;
    let mut room = [0u64; PLANE_WORDS];
    put_number(out, parts::code_sum(query.as_slice(), code, &mut room));
    Ok(())
}
