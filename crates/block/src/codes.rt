// The codes that a block is made of.
ghost use Rattle.std.specs.Prelude.{◌≡◌, ◌*◌, ◌≤◌, ◌<◌, length, get_or, IfOk};
ghost use Rattle.words.specs.Limits.{most_dims};
ghost use Rattle.words.specs.Lists.{record_of};
ghost use Rattle.words.specs.Refusals.{RefusedIf, bad_length};
ghost use Rattle.words.specs.declared.refusal.Refusal.TheVariants.{BadLength};
ghost use Rattle.code.specs.Code.{code_size, code_bit};
ghost use Rattle.block.specs.Block.{block_groups, block_size, group_nibble, packed_block};
ghost use Rattle.code.specs.Parts.{OfDims};

use crate::parts::{cleared, half};
use code::parts::code_size;
use std::marker::Model;
use words::{Dims, MOST_DIMS, Refusal, has_length};

// 32 single codes laid end to end. A type beside `Vector` of code: that one is of floats, this one of codes, and each knows its own size.
#[derive(Drop)]
pub struct Codes<'a> {
    pub(crate) dims: usize,
    pub(crate) bytes: &'a [u8],
}

impl<'a> Model for Codes<'a> {
    ghost Value = { OfDims };

    ghost view = { λ c. record { dims = c.dims; bytes = c.bytes.now } };

    ghost invariant = { λ c. (c.dims ≤ most_dims) × (length c.bytes.now ≡ 32 * code_size c.dims) };
}

impl<'a> Codes<'a> {
    // Refuses another number of bytes.
    pub fn judged(dims: Dims<MOST_DIMS>, bytes: &'a [u8]) -> Result<Codes<'a>, Refusal>
        ensures refused { RefusedIf (bad_length bytes.now (32 * code_size dims)) BadLength result }
        ensures same { IfOk result (λ c. c ≡ record { dims = dims; bytes = bytes.now }) }
    {
        has_length(bytes, 32 * code_size(dims))?;
        let dims = dims.get();
        Ok(Codes { dims, bytes })
    }

    // Byte i of code k.
    #[tactic(auto, using(words::proofs::ListLaws::record_byte))]
    fn byte(&self, k: usize, i: usize) -> u8
        requires { (k < 32) × (i < code_size self.now.dims) }
        ensures { result ≡ get_or (record_of (code_size self.now.dims) self.now.bytes k) i 0 }
    {
        self.bytes[code::parts::size(self.dims) * k + i]
    }

    // The nibble that a block has of code k in group g.
    fn nibble(&self, g: usize, k: usize) -> u8
        requires { (k < 32) × (g < block_groups self.now.dims) }
        ensures { (result ≡ group_nibble self.now.dims (λ k. code_bit (record_of (code_size self.now.dims) self.now.bytes k)) g k) × (result < 16) }
    {
        half(
            cleared(self.byte(k, 16 + g / 2), self.dims - 8 * (g / 2)),
            g,
        )
    }

    // The block of the codes: the Rust's `fscan_encode`, and `pack` of b4.rs in our lane order.
    pub fn pack(&self, block: &mut [u8])
        requires { length block.old ≡ block_size self.now.dims }
        ensures { block.new ≡ packed_block self.now.dims self.now.bytes }
    {
        // Three loops: one over the bytes of the block takes 15,617 ns in place of 3,620 (1,024 dims).
        // Of the factors: byte i % 4 of factor i / 128 of code i % 128 / 4.
        for (i, byte) in block[..512].iter_mut().enumerate() {
            *byte = self.byte(i % 128 / 4, 4 * (i / 128) + i % 4);
        }
        // By index: tried over chunks_exact_mut: its invariant is then over the borrows that the iterator gave out, and the proof didn't close.
        for g in 0..self.dims.div_ceil(4) {
            for j in 0..16 {
                block[512 + 16 * g + j] = self.nibble(g, j) + 16 * self.nibble(g, j + 16);
            }
        }
    }
}
