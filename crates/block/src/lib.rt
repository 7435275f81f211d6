// Module 5, the block of 32 codes: its public calls. The functions of the crate lintelkite are these.
#![tactic(auto)]

ghost use Rattle.std.specs.Prelude.{◌≡◌};
ghost use Rattle.words.specs.Refusals.{status};
ghost use Rattle.block.specs.Calls.{size_answer, pack_answer, lane_answer};

use codes::Codes;
use lane::Lane;
use words::{Dims, MOST_DIMS, Refusal, has_length, put_number};

mod codes;
mod lane;
pub mod parts;

// The size of a block.
#[tactic(auto, unfolding(words::specs::Refusals::size_answer, words::specs::Refusals::size_number, words::specs::Refusals::answer, words::specs::Refusals::after))]
pub fn block_size(dims: u32, out: &mut [u8]) -> Result<(), Refusal>
    ensures { (status result, out.new) ≡ size_answer dims out.old }
{
    let dims = Dims::<MOST_DIMS>::try_from(dims)?;
    has_length(out, 4)?;
    put_number(out, parts::block_size(dims) as u32);
    Ok(())
}

// The block of 32 codes laid end to end.
#[tactic(auto, unfolding(crate::specs::Calls::pack_answer, crate::specs::Calls::pack_number, words::specs::Refusals::answer, words::specs::Refusals::after))]
pub fn block_pack(dims: u32, codes: &[u8], block: &mut [u8]) -> Result<(), Refusal>
    ensures { (status result, block.new) ≡ pack_answer dims codes.now block.old }
{
    let dims = Dims::<MOST_DIMS>::try_from(dims)?;
    let codes = Codes::judged(dims, codes)?;
    has_length(block, parts::block_size(dims))?;
    codes.pack(block);
    Ok(())
}

// A lane as a single code.
#[tactic(auto, unfolding(crate::specs::Calls::lane_answer, crate::specs::Calls::lane_number, words::specs::Refusals::answer, words::specs::Refusals::after))]
pub fn block_lane(dims: u32, block: &[u8], lane: u32, code: &mut [u8]) -> Result<(), Refusal>
    ensures { (status result, code.new) ≡ lane_answer dims block.now lane code.old }
{
    let dims = Dims::<MOST_DIMS>::try_from(dims)?;
    has_length(block, parts::block_size(dims))?;
    has_length(code, code::parts::code_size(dims))?;
    let lane = Lane::judged(dims, block, lane)?;
    lane.put_code(code);
    Ok(())
}
