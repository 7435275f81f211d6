// Module 6, the sums of a block. The table is made here, from the query codes, and never handed in.
#![tactic(auto)]

ghost use Rattle.std.specs.Prelude.{◌≡◌};
ghost use Rattle.words.specs.Refusals.{status};
ghost use Rattle.sums.specs.Calls.{block_sums_answer};

use block::parts::block_size;
use sums::QueryCodes;
pub use wide::{WideTable, with_wide_table};
use words::{Dims, MOST_DIMS, Refusal, has_length};

pub mod parts;
mod tabled;
mod wide;

// The sums of the 32 lanes of a block, by the fast form.
#[tactic(auto, unfolding(sums::specs::Calls::block_sums_answer, sums::specs::Calls::sum_number, words::specs::Refusals::answer, words::specs::Refusals::after))]
pub fn block_sums(dims: u32, query: &[u8], block: &[u8], out: &mut [u8]) -> Result<(), Refusal>
    ensures { (status result, out.new) ≡ block_sums_answer dims query.now block.now out.old }
{
    let dims = Dims::<MOST_DIMS>::try_from(dims)?;
    has_length(query, dims.get())?;
    has_length(block, block_size(dims))?;
    has_length(out, 128)?;
    let query = QueryCodes::judged(dims, query)?;
    with_wide_table(
        &query,
        &(),
        out,
        |_, table, out| table.put_lane_sums(block, out),
    );
    Ok(())
}
