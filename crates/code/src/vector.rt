// A vector that is encoded.
ghost use Rattle.std.specs.Prelude.{◌≡◌, ◌+◌, ◌*◌, ◌≤◌, ◌<◌, length, get_or, IfOk};
ghost use Rattle.words.specs.Digits.{join, kept};
ghost use Rattle.words.specs.Floats.{missing};
ghost use Rattle.words.specs.Limits.{most_dims};
ghost use Rattle.words.specs.Refusals.{RefusedIf, bad_length};
ghost use Rattle.words.specs.declared.refusal.Refusal.TheVariants.{BadLength};
ghost use Rattle.code.specs.Code.{code_size, code_words, code_of, sign_clear};
ghost use Rattle.code.specs.Parts.{OfDims};

use std::marker::Model;
use words::{Dims, MOST_DIMS, Refusal, any_missing, byte_at, has_length, u32_at};

// A vector of dims floats; more may stand behind them. A type beside `Codes` of block: this one is of floats, that one of codes, and each
// knows its own size.
#[derive(Drop)]
pub struct Vector<'a> {
    pub(crate) dims: usize,
    pub(crate) floats: &'a [u8],
}

impl<'a> Model for Vector<'a> {
    ghost Value = { OfDims };

    ghost view = { λ v. record { dims = v.dims; bytes = v.floats.now } };

    ghost invariant = { λ v. (v.dims ≤ most_dims) × (4 * v.dims ≤ length v.floats.now) };
}

impl<'a> Vector<'a> {
    // Refuses another number of floats.
    pub fn judged(dims: Dims<MOST_DIMS>, floats: &'a [u8]) -> Result<Vector<'a>, Refusal>
        ensures refused { RefusedIf (bad_length floats.now (4 * dims)) BadLength result }
        ensures same { IfOk result (λ v. v ≡ record { dims = dims; bytes = floats.now }) }
    {
        let dims = dims.get();
        has_length(floats, 4 * dims)?;
        Ok(Vector { dims, floats })
    }

    // Whether one of the floats is a NaN or an infinity.
    pub fn any_missing(&self) -> bool
        ensures { result ≡ missing self.now.dims self.now.bytes }
    {
        any_missing(self.floats, self.dims)
    }

    // Dimension d's bit of the code, 0 for a pad bit.
    #[tactic(auto, using(crate::proofs::CodeLaws::sign_kept, words::proofs::DigitLaws::kept_out))]
    fn sign(&self, d: usize) -> u8
        ensures { (result ≡ kept self.now.dims (sign_clear self.now.bytes) d) × (result < 2) }
    {
        if d < self.dims {
            u8::from(u32_at(self.floats, 4 * d) < 0x8000_0000)
        } else {
            0
        }
    }

    // The bits of eight dimensions from 8 i on, in a byte.
    fn signs(&self, i: usize) -> u8
        requires { i < 8 * code_words most_dims }
        ensures { result ≡ join 1 8 (λ j. kept self.now.dims (sign_clear self.now.bytes) (8 * i + j)) }
    {
        let mut byte = 0;
        for j in 0..8 {
            byte += self.sign(8 * i + j) << j;
        }
        byte
    }

    // The code of the factors and of the vector's signs: the Rust's `encode`.
    pub fn encode(&self, factors: &[u8], code: &mut [u8])
        requires { length code.old ≡ code_size self.now.dims }
        ensures { code.new ≡ code_of self.now.dims (λ i. get_or factors.now i 0) (sign_clear self.now.bytes) }
    {
        // for the bound of dims
        let _ = &self.dims;
        // One loop: with the factors copied by copy_from_slice and a loop over the rest it takes 1,005 ns in place of 798 (1,024 dims).
        for (i, byte) in code.iter_mut().enumerate() {
            *byte = if i < 16 {
                byte_at(factors, i)
            } else {
                self.signs(i - 16)
            };
        }
    }
}
