// What the crates above call, and what packs a block and reads a lane of it.
ghost use Rattle.std.specs.Prelude.{◌≡◌, ◌*◌, ◌/◌, ◌%◌, ◌^◌, ◌<◌, ◌≤◌, min, length};
ghost use Rattle.words.specs.Limits.{most_dims};
ghost use Rattle.code.specs.Code.{code_size};
ghost use Rattle.block.specs.Block.{block_size, lane_code, packed_block};

use crate::codes::Codes;
use crate::lane::Lane;
use words::{Dims, MOST_DIMS};

// How many bytes a block takes.
pub fn size(dims: usize) -> usize
    requires { dims ≤ most_dims }
    ensures { result ≡ block_size dims }
{
    512 + 16 * dims.div_ceil(4)
}

// The same, of judged dims.
pub fn block_size(dims: Dims<MOST_DIMS>) -> usize
    ensures { (result ≡ block_size dims) × (result ≤ block_size most_dims) }
{
    size(dims.get())
}

// The lowest digits of a byte, as many as are left of the dims: the rest are pad bits.
#[tactic(auto, using(crate::proofs::ClearedLaws::all_left))]
pub fn cleared(x: u8, left: usize) -> u8
    ensures { result ≡ x % 2 ^ min 8 left }
{
    if 8 <= left {
        return x;
    }
    x & ((1u8 << left) - 1)
}

// The half of a byte that has group g of a code, or lane 16 g + j of a group: the low one where g is even.
pub fn half(x: u8, g: usize) -> u8
    ensures { (result ≡ x / 16 ^ (g % 2) % 16) × (result < 16) }
{
    if g % 2 == 0 { x % 16 } else { x / 16 }
}

// The block of 32 codes laid end to end: the Rust's `fscan_encode`, and `pack` of b4.rs in our lane order.
pub fn pack(codes: &[u8], dims: usize, block: &mut [u8])
    requires { (dims ≤ most_dims) × (length codes.now ≡ 32 * code_size dims) × (length block.old ≡ block_size dims) }
    ensures { block.new ≡ packed_block dims codes.now }
{
    Codes { dims, bytes: codes }.pack(block);
}

// Lane k as a single code.
pub fn lane(block: &[u8], dims: usize, k: usize, code: &mut [u8])
    requires { (dims ≤ most_dims) × (k < 32) × (length code.old ≡ code_size dims) }
    ensures { code.new ≡ lane_code dims block.now k }
{
    Lane { dims, block, k }.put_code(code);
}
