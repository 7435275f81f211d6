// The workers, over plain codes: the wide table of a query, the sums of a block's 32 lanes by it, and their numbers. `WideTable` keeps the
// table beside its codes; these serve an empty query too.
ghost use Rattle.std.specs.Prelude.{◌≡◌, ℕ, ◌*◌, ◌≤◌, length, get_or};
ghost use Rattle.words.specs.Bytes.{words_of};
ghost use Rattle.block.specs.Block.{block_groups, block_size};
ghost use Rattle.sums.specs.Sums.{QueryCodes};
ghost use Rattle.sums.specs.Parts.{LaneSums};
ghost use Rattle.lanes.specs.Parts.{Wide, BlockReady};

use crate::tabled::Tabled;
use crate::wide::with_table;
use words::{MOST_DIMS, byte_at, put_u32};

// How many bytes the wide table of a query has at most.
// Not by `div_ceil`: a constant's value cannot hold a call.
pub const WIDE: usize = 64 * ((MOST_DIMS as usize + 3) / 4);

// The same of queries of few dims, and of a middling number. An array is cleared when it is made, and to clear all of WIDE takes
// longer than to sum a block of 1,024 dims.
pub const FEW_DIMS: usize = 256;

pub const FEW_WIDE: usize = 16 * FEW_DIMS;

pub const MIDDLING_DIMS: usize = 1024;

pub const MIDDLING_WIDE: usize = 16 * MIDDLING_DIMS;

// The wide table of a query, in a buffer of its size or a longer one: each query code 16 times, and 0 past the last, up to whole groups.
pub fn fill_wide(q: &[u8], t: &mut [u8])
    requires { 64 * block_groups (length q.now) ≤ length t.old }
    ensures { Wide q.now t.new }
{
    let n = 4 * q.len().div_ceil(4);
    for d in 0..n {
        t[16 * d..16 * d + 16].fill(byte_at(q, d));
    }
}

// The sums of the 32 lanes, from the query's wide table.
pub fn lane_sums(q: &[u8], t: &[u8], block: &[u8]) -> [u32; 32]
    requires { BlockReady q.now t.now block.now }
    ensures { LaneSums q.now block.now result }
{
    let tabled = Tabled {
        codes: q,
        table: t,
        block,
    };
    tabled.lane_sums()
}

// The sums of a block, with a table of their own.
pub fn block_sums(q: &[u8], block: &[u8]) -> [u32; 32]
    requires { QueryCodes q.now × (length block.now ≡ block_size (length q.now)) }
    ensures { LaneSums q.now block.now result }
{
    with_table(
        q,
        &(),
        &mut [],
        |_, table, _|
            requires { length block.now ≡ block_size (length table.now) }
            ensures { LaneSums table.now block.entry.now result }
        { table.lane_sums(block) },
    )
}

// Thirty-two sums, as numbers of 32 bits.
pub fn put_sums(out: &mut [u8], sums: &[u32])
    requires { (length out.old ≡ 128) × (length sums.now ≡ 32) }
    ensures { out.new ≡ words_of 32 (λ k. get_or sums.now k 0) }
{
    for (k, sum) in sums.iter().enumerate() {
        put_u32(out, 4 * k, *sum);
    }
}
