// A lane of a block.
ghost use Rattle.std.specs.Prelude.{◌≡◌, ◌*◌, ◌<◌, ◌≤◌, ltb, length, IfOk};
ghost use Rattle.words.specs.Limits.{most_dims};
ghost use Rattle.words.specs.Refusals.{RefusedIf};
ghost use Rattle.words.specs.declared.refusal.Refusal.TheVariants.{OutOfRange};
ghost use Rattle.code.specs.Code.{code_size, code_byte};
ghost use Rattle.block.specs.Block.{lane_factor, lane_nibble, lane_bit, lane_code};
ghost use Rattle.block.specs.Parts.{LaneOf};

use crate::parts::{cleared, half};
use std::marker::Model;
use words::{Dims, MOST_DIMS, Refusal, byte_at};

// Lane k of a block.
#[derive(Drop)]
pub struct Lane<'a> {
    pub(crate) dims: usize,
    pub(crate) block: &'a [u8],
    pub(crate) k: usize,
}

impl<'a> Model for Lane<'a> {
    ghost Value = { LaneOf };

    ghost view = { λ l. record { dims = l.dims; block = l.block.now; k = l.k } };

    ghost invariant = { λ l. (l.dims ≤ most_dims) × (l.k < 32) };
}

impl<'a> Lane<'a> {
    // Refuses a lane above 31.
    pub fn judged(dims: Dims<MOST_DIMS>, block: &'a [u8], k: u32) -> Result<Lane<'a>, Refusal>
        ensures refused { RefusedIf (ltb 31 k) OutOfRange result }
        ensures same { IfOk result (λ l. l ≡ record { dims = dims; block = block.now; k = k }) }
    {
        if 31 < k {
            return Err(Refusal::OutOfRange);
        }
        let dims = dims.get();
        let k = k as usize;
        Ok(Lane { dims, block, k })
    }

    // The nibble of group g, 0 past the last group.
    #[tactic(auto, unfolding(crate::specs::Block::lane_nibble))]
    fn nibble(&self, g: usize) -> u8
        requires { g ≤ 2 * most_dims }
        ensures { (result ≡ lane_nibble self.now.block self.now.k g) × (result < 16) }
    {
        half(byte_at(self.block, 512 + 16 * g + self.k % 16), self.k / 16)
    }

    // Byte i of the lane as a single code.
    #[tactic(auto, using(crate::proofs::LaneLaws::lane_factor_lem, crate::proofs::LaneLaws::lane_octet))]
    fn code_byte(&self, i: usize) -> u8
        requires { i < code_size self.now.dims }
        ensures { result ≡ code_byte self.now.dims (lane_factor self.now.block self.now.k) (lane_bit self.now.block self.now.k) i }
    {
        let dims = self.dims;
        if i < 16 {
            byte_at(self.block, 128 * (i / 4) + 4 * self.k + i % 4)
        } else {
            let x = i - 16;
            let y = self.nibble(2 * x) + 16 * self.nibble(2 * x + 1);
            cleared(y, dims.saturating_sub(8 * x))
        }
    }

    // The lane as a single code.
    pub fn put_code(&self, code: &mut [u8])
        requires { length code.old ≡ code_size self.now.dims }
        ensures { code.new ≡ lane_code self.now.dims self.now.block self.now.k }
    {
        for (i, byte) in code.iter_mut().enumerate() {
            *byte = self.code_byte(i);
        }
    }
}
