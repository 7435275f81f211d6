// The sums of a block's lanes by a table of 16 sums for each group of four dimensions: the Rust's `gen` and `fast_scan_b4`. The calls
// use the form of `lanes`; this one serves any table of bytes, 16 a group.
ghost use Rattle.std.specs.Prelude.{◌≡◌, ℕ, ◌+◌, ◌*◌, ◌/◌, ◌%◌, ◌<◌, ◌≤◌, length, get_or};
ghost use Rattle.words.specs.Digits.{bit};
ghost use Rattle.words.specs.Limits.{most_dims, top_code};
ghost use Rattle.block.specs.Block.{block_groups, block_size};
ghost use Rattle.sums.specs.Sums.{group_sum, groups_nibble, table_count, QueryCodes};
ghost use Rattle.sums.specs.Parts.{Table, Each, Scanned, LaneSums};

use block::parts::half;
use std::array;
use words::byte_at;

// Digit b of m.
#[tactic(auto, unfolding(words::specs::Digits::bit))]
fn digit(m: u8, b: usize) -> u8
    requires { b < 8 }
    ensures { (result ≡ bit m b) × (result < 2) }
{
    (m >> b) % 2
}

// The four query codes of group g, and 0 past the last. They are read once for all the group's entries.
fn group_codes(q: &[u8], g: usize) -> [u8; 4]
    requires { g < block_groups most_dims }
    ensures { Each 4 (λ b. get_or q.now (4 * g + b) 0) result }
{
    array::from_fn(|b| byte_at(q, 4 * g + b))
}

// Entry m of a group with these codes: the sum of those at the set digits of m.
fn entry(codes: &[u8; 4], m: u8) -> u8
    requires { (b : ℕ) → b < 4 → get_or codes.now b 0 ≤ top_code }
    ensures { result ≡ group_sum codes.now 0 m }
{
    let mut sum = 0u8;
    for (b, code) in codes.iter().enumerate() {
        sum += *code * digit(m, b);
    }
    sum
}

// The 16 entries of a group with these codes.
fn fill_group(codes: &[u8; 4], part: &mut [u8])
    requires { ((b : ℕ) → b < 4 → get_or codes.now b 0 ≤ top_code) × (length part.old ≡ 16) }
    ensures { Each 16 (λ m. group_sum codes.now 0 m) part.new }
{
    for (m, byte) in part.iter_mut().enumerate() {
        *byte = entry(codes, m as u8);
    }
}

// The table of a query, in a buffer of its size or a longer one: entry m of group g at 16g + m. The Rust's `gen`.
pub fn gen_table(q: &[u8], t: &mut [u8])
    requires { QueryCodes q.now × (16 * block_groups (length q.now) ≤ length t.old) }
    ensures { Table q.now t.new }
{
    let n = q.len().div_ceil(4);
    for g in 0..n {
        let codes = group_codes(q, g);
        fill_group(&codes, &mut t[16 * g..16 * g + 16]);
    }
}

// The nibble of lane k in group g.
#[tactic(auto, unfolding(crate::specs::Sums::groups_nibble))]
fn nibble(groups: &[u8], k: usize, g: usize) -> usize
    requires { (k < 32) × (16 * g + 16 ≤ length groups.now) }
    ensures { (result ≡ groups_nibble groups.now k g) × (result < 16) }
{
    usize::from(half(groups[16 * g + k % 16], k / 16))
}

// What lane k picks in n groups of a table, added. It has the parameters of its caller.
#[tactic(auto, using(crate::proofs::TableLaws::count_none, crate::proofs::TableLaws::count_more))]
fn scan_lane(t: &[u8], groups: &[u8], n: usize, k: usize) -> u32
    requires { (k < 32) × (n ≤ block_groups most_dims) × (16 * n ≤ length t.now) × (length groups.now ≡ 16 * n) }
    ensures { result ≡ table_count t.now (groups_nibble groups.now k) n }
{
    let mut sum = 0u32;
    // by g: a lane picks one byte of the 16 of a group in two lists
    for g in 0..n {
        sum += u32::from(t[16 * g + nibble(groups, k, g)]);
    }
    sum
}

// What the lanes pick in n groups of a table, added. The Rust's `fast_scan_b4`, whose parameters it has: n beside groups of 16 n bytes.
pub fn fast_scan_b4(t: &[u8], groups: &[u8], n: usize) -> [u32; 32]
    requires { (n ≤ block_groups most_dims) × (16 * n ≤ length t.now) × (length groups.now ≡ 16 * n) }
    ensures { Scanned t.now groups.now n result }
{
    array::from_fn(|k| scan_lane(t, groups, n, k))
}

// The sums of the 32 lanes of a block, by the table.
pub fn table_sums(q: &[u8], t: &mut [u8], block: &[u8]) -> [u32; 32]
    requires { QueryCodes q.now × (16 * block_groups (length q.now) ≤ length t.old) × (length block.now ≡ block_size (length q.now)) }
    ensures { LaneSums q.now block.now result }
{
    gen_table(q, t);
    fast_scan_b4(t, &block[512..], q.len().div_ceil(4))
}
