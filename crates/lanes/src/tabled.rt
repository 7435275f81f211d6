// The sums of a block's 32 lanes, by the wide table: a group of four dimensions is worked out for 16 lanes by operations on 16 bytes;
// the bytes of four groups are added before they are widened.
ghost use Rattle.std.specs.Prelude.{◌≡◌, ℕ, ◌+◌, ◌*◌, ◌/◌, ◌<◌, ◌≤◌, length, get_or};
ghost use Rattle.words.specs.Digits.{bit};
ghost use Rattle.words.specs.Limits.{most_sum, top_code};
ghost use Rattle.block.specs.Block.{lane_nibble, block_groups};
ghost use Rattle.sums.specs.Sums.{group_sum};
ghost use Rattle.sums.specs.Parts.{groups_sum, Each, LaneSums};
ghost use Rattle.lanes.specs.Parts.{BlockReady, Sixteen, Lanes, stretch_groups};

use std::array;

// How many groups are added as numbers of 16 bits: what a lane picks in them is at most 61,440.
const STRETCH: usize = 1024;

// The query codes at the set digits of c's high half: a code is at most 15 and the digit's weight is 16 or more, so the
// lesser of the two is the code or 0.
fn four(c: u8, q0: u8, q1: u8, q2: u8, q3: u8) -> u8
    requires { (q0 ≤ top_code) × (q1 ≤ top_code) × (q2 ≤ top_code) × (q3 ≤ top_code) }
    ensures { (result ≡ q0 * bit (c / 16) 0 + q1 * bit (c / 16) 1 + q2 * bit (c / 16) 2 + q3 * bit (c / 16) 3) × (result ≤ 60) }
{
    (c / 16 % 2 * 16).min(q0)
        + (c / 32 % 2 * 32).min(q1)
        + (c / 64 % 2 * 64).min(q2)
        + (c / 128 % 2 * 128).min(q3)
}

// Sixteen numbers with 16 bytes added.
fn widened(sums: &[u16; 16], part: &[u8; 16]) -> [u16; 16]
    requires { (j : ℕ) → j < 16 → get_or sums.now j 0 + get_or part.now j 0 < 65536 }
    ensures { Each 16 (λ j. get_or sums.now j 0 + get_or part.now j 0) result }
{
    array::from_fn(|j| sums[j] + u16::from(part[j]))
}

// Thirty-two sums with 32 numbers added. It is apart from `widened`: one function over both widths would need a trait that says what `+`
// and `from` do to numbers of each, and be longer than both.
fn added(sums: &[u32; 32], part: &[u16; 32]) -> [u32; 32]
    requires { (k : ℕ) → k < 32 → get_or sums.now k 0 + get_or part.now k 0 ≤ most_sum }
    ensures { Each 32 (λ k. get_or sums.now k 0 + get_or part.now k 0) result }
{
    array::from_fn(|k| sums[k] + u32::from(part[k]))
}

// A block, and the codes and the wide table of a query of its dims.
#[derive(Drop)]
pub(crate) struct Tabled<'a> {
    pub(crate) codes: &'a [u8],
    pub(crate) table: &'a [u8],
    pub(crate) block: &'a [u8],
    ghost ready: { BlockReady codes.now table.now block.now },
}

impl<'a> Tabled<'a> {
    // What lanes j and j + 16 pick in group g.
    fn group(&self, g: usize, j: usize) -> (u8, u8)
        requires { (g < block_groups (length self.now.codes.now)) × (j < 16) }
        ensures low { (result.0 ≡ group_sum self.now.codes.now g (lane_nibble self.now.block.now j g)) × (result.0 ≤ 60) }
        ensures high { (result.1 ≡ group_sum self.now.codes.now g (lane_nibble self.now.block.now (j + 16) g)) × (result.1 ≤ 60) }
    {
        let c = self.block[512 + 16 * g + j];
        let q0 = self.table[64 * g + j];
        let q1 = self.table[64 * g + 16 + j];
        let q2 = self.table[64 * g + 32 + j];
        let q3 = self.table[64 * g + 48 + j];
        (four(c % 16 * 16, q0, q1, q2, q3), four(c, q0, q1, q2, q3))
    }

    // What they pick in the N groups from g on.
    fn groups<const N: usize>(&self, g: usize, j: usize) -> (u8, u8)
        requires { (N ≤ 4) × (g + N ≤ block_groups (length self.now.codes.now)) × (j < 16) }
        ensures low { result.0 ≡ groups_sum self.now.codes.now (lane_nibble self.now.block.now j) g N }
        ensures high { result.1 ≡ groups_sum self.now.codes.now (lane_nibble self.now.block.now (j + 16)) g N }
    {
        let mut low = 0u8;
        let mut high = 0u8;
        for i in 0..N {
            let (a, b) = self.group(g + i, j);
            low += a;
            high += b;
        }
        (low, high)
    }

    // What the lanes below 16, and those from 16 on, pick in them, as bytes.
    fn part<const N: usize>(&self, g: usize) -> ([u8; 16], [u8; 16])
        requires { (N ≤ 4) × (g + N ≤ block_groups (length self.now.codes.now)) }
        ensures low { Sixteen self.now.codes.now self.now.block.now 0 g N result.0 }
        ensures high { Sixteen self.now.codes.now self.now.block.now 16 g N result.1 }
    {
        let mut low = [0u8; 16];
        let mut high = [0u8; 16];
        // by j, which `groups` takes too: a zip of both arrays under `enumerate` would be no plainer
        for j in 0..16 {
            let (a, b) = self.groups::<N>(g, j);
            low[j] = a;
            high[j] = b;
        }
        (low, high)
    }

    // What the 32 lanes pick in the m groups from g on. A function of its own: were it put into its caller, its numbers of 16 bits would
    // be kept in the shape of those of 32, which costs a tenth.
    #[inline(never)]
    fn stretch(&self, g: usize, m: usize) -> [u16; 32]
        requires { (m ≤ stretch_groups) × (g + m ≤ block_groups (length self.now.codes.now)) }
        ensures { Lanes self.now.codes.now self.now.block.now g m result }
    {
        let mut low = [0u16; 16];
        let mut high = [0u16; 16];
        for i in 0..m / 4 {
            let (a, b) = self.part::<4>(g + 4 * i);
            low = widened(&low, &a);
            high = widened(&high, &b);
        }
        for i in m / 4 * 4..m {
            let (a, b) = self.part::<1>(g + i);
            low = widened(&low, &a);
            high = widened(&high, &b);
        }
        let mut sums = [0u16; 32];
        sums[0..16].copy_from_slice(&low);
        sums[16..32].copy_from_slice(&high);
        sums
    }

    // The sums of the 32 lanes.
    pub(crate) fn lane_sums(&self) -> [u32; 32]
        ensures { LaneSums self.now.codes.now self.now.block.now result }
    {
        let n = self.codes.len().div_ceil(4);
        let mut sums = [0u32; 32];
        for g in (0..n).step_by(STRETCH) {
            sums = added(&sums, &self.stretch(g, STRETCH.min(n - g)));
        }
        sums
    }
}
