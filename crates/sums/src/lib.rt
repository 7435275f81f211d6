// Module 6, the sums: the call on the query alone. Those on a single code and on a block stand in the crates planes and lanes.
#![tactic(auto)]

ghost use Rattle.std.specs.Prelude.{◌≡◌};
ghost use Rattle.words.specs.Refusals.{status};
ghost use Rattle.sums.specs.Calls.{query_sum_answer};

pub use codes::QueryCodes;
use words::{Dims, MOST_DIMS, Refusal, has_length, put_number};

mod codes;
pub mod parts;

// The sum of all query codes.
#[tactic(auto, unfolding(crate::specs::Calls::query_sum_answer, crate::specs::Calls::sum_number, words::specs::Refusals::answer, words::specs::Refusals::after))]
pub fn query_sum(dims: u32, query: &[u8], out: &mut [u8]) -> Result<(), Refusal>
    ensures { (status result, out.new) ≡ query_sum_answer dims query.now out.old }
{
    let dims = Dims::<MOST_DIMS>::try_from(dims)?;
    has_length(query, dims.get())?;
    has_length(out, 4)?;
    let query = QueryCodes::judged(dims, query)?;
    put_number(out, query.total());
    Ok(())
}
