// The wide table of a query: each query code 16 times, so that a group of four dimensions is worked out for 16 lanes by operations on 16
// bytes.
ghost use Rattle.std.specs.Prelude.{◌≡◌, ℕ, ◌*◌, ◌≤◌, List, length};
ghost use Rattle.std.specs.Borrow.{Bor, MutBor};
ghost use Rattle.words.specs.Bytes.{words_of};
ghost use Rattle.block.specs.Block.{block_groups, block_size, lane_bit};
ghost use Rattle.sums.specs.Sums.{plain_sum};
ghost use Rattle.sums.specs.Sums as sums;
ghost use Rattle.sums.specs.Parts.{LaneSums};
ghost use Rattle.lanes.specs.Parts as parts;

use crate::parts::{
    FEW_DIMS, FEW_WIDE, MIDDLING_DIMS, MIDDLING_WIDE, WIDE, fill_wide, lane_sums, put_sums,
};
use std::marker::Model;
use sums::QueryCodes;

// A query and its wide table, in room that is lent. Clauses see the query's codes.
#[derive(Drop)]
pub struct WideTable<'a> {
    codes: &'a [u8],
    bytes: &'a [u8],
}

impl<'a> Model for WideTable<'a> {
    ghost Value = { List ℕ };

    ghost view = { λ t. t.codes.now };

    ghost invariant = { λ t. sums.QueryCodes t.codes.now × parts.Wide t.codes.now t.bytes.now };
}

impl<'a> WideTable<'a> {
    // In room of its size or longer.
    fn fill(codes: &'a [u8], room: &'a mut [u8]) -> WideTable<'a>
        requires { sums.QueryCodes codes.now × (64 * block_groups (length codes.now) ≤ length room.old) }
        ensures { result ≡ codes.now }
    {
        fill_wide(codes, room);
        WideTable { codes, bytes: room }
    }

    // The sums of a block's 32 lanes. A block is a plain part of the caller's records, judged by its length alone; a type for it would hold
    // nothing else. The same holds of out and its 128 bytes.
    pub fn lane_sums(&self, block: &[u8]) -> [u32; 32]
        requires { length block.now ≡ block_size (length self.now) }
        ensures { LaneSums self.now block.now result }
    {
        lane_sums(self.codes, self.bytes, block)
    }

    // The same, as numbers of 32 bits.
    pub fn put_lane_sums(&self, block: &[u8], out: &mut [u8])
        requires { (length block.now ≡ block_size (length self.now)) × (length out.old ≡ 128) }
        ensures { out.new ≡ words_of 32 (λ k. plain_sum self.now (lane_bit block.now k)) }
    {
        put_sums(out, &self.lane_sums(block));
    }
}

// What f gives and leaves in out, called once with the codes' table in room of N bytes. What f needs besides is lent to it, since nothing is
// known of what a closure gives that captures a struct with a lifetime.
fn with_room<const N: usize, E, R, F: FnOnce(&E, &WideTable, &mut [u8]) -> R>(
    codes: &[u8],
    env: &E,
    out: &mut [u8],
    f: F,
) -> R
    requires room { sums.QueryCodes codes.now × (64 * block_groups (length codes.now) ≤ N) × (N ≤ WIDE) }
    requires callable { (e : Bor E) (t : Bor _) (o : MutBor _) → e.now ≡ env.now → t.now ≡ codes.now → o.now ≡ out.old → F.pre f e t o }
    ensures { (e : Bor E) × (t : Bor _) × (o : MutBor _) × (p : MutBor _) × F.post f e t o result p
        × (e.now ≡ env.now) × (t.now ≡ codes.now) × (o.now ≡ out.old) × (p.now ≡ out.new) }
{
    let mut room = [0u8; N];
    f(env, &WideTable::fill(codes, &mut room), out)
}

// The same, in room of as many bytes as the codes' number asks for.
pub(crate) fn with_table<E, R, F: FnOnce(&E, &WideTable, &mut [u8]) -> R>(
    codes: &[u8],
    env: &E,
    out: &mut [u8],
    f: F,
) -> R
    requires codes { sums.QueryCodes codes.now }
    requires callable { (e : Bor E) (t : Bor _) (o : MutBor _) → e.now ≡ env.now → t.now ≡ codes.now → o.now ≡ out.old → F.pre f e t o }
    ensures { (e : Bor E) × (t : Bor _) × (o : MutBor _) × (p : MutBor _) × F.post f e t o result p
        × (e.now ≡ env.now) × (t.now ≡ codes.now) × (o.now ≡ out.old) × (p.now ≡ out.new) }
{
    let n = codes.len();
    if n <= FEW_DIMS {
        with_room::<FEW_WIDE, E, R, F>(codes, env, out, f)
    } else if n <= MIDDLING_DIMS {
        with_room::<MIDDLING_WIDE, E, R, F>(codes, env, out, f)
    } else {
        with_room::<WIDE, E, R, F>(codes, env, out, f)
    }
}

// The same, for a judged query.
pub fn with_wide_table<E, F: FnOnce(&E, &WideTable, &mut [u8])>(
    query: &QueryCodes,
    env: &E,
    out: &mut [u8],
    f: F,
)
    requires callable { (e : Bor E) (t : Bor _) (o : MutBor _) → e.now ≡ env.now → t.now ≡ query.now → o.now ≡ out.old → F.pre f e t o }
    ensures { (e : Bor E) × (t : Bor _) × (o : MutBor _) × (p : MutBor _) × F.post f e t o tt p
        × (e.now ≡ env.now) × (t.now ≡ query.now) × (o.now ≡ out.old) × (p.now ≡ out.new) }
{
    with_table::<E, (), F>(query.as_slice(), env, out, f)
}
