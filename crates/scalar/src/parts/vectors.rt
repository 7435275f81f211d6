// The vectors of a call.
ghost use Rattle.std.specs.Prelude.{◌≡◌, false, ◌+◌, ◌*◌, ◌<◌, ◌≤◌, length, IfOk};
ghost use Rattle.words.specs.Bytes.{f32_at};
ghost use Rattle.words.specs.Floats.{missing};
ghost use Rattle.words.specs.Limits.{most_scalar_dims};
ghost use Rattle.words.specs.Refusals.{status};
ghost use Rattle.scalar.specs.Calls.{above_max, vectors_number};
ghost use Rattle.scalar.specs.Parts.{FineVectors, Ranged};

use std::marker::Model;
use words::{Dims, MOST_SCALAR_DIMS, Refusal, any_missing, has_length, number_at};

// A vector with the min and the max of each dimension: of dims floats each, and nothing missing in them. The workers take any of these,
// those of no dims, of more dims than a call takes, or with a min above its max too, which the calls refuse.
#[derive(Drop)]
pub struct Vectors<'a> {
    dims: usize,
    vector: &'a [u8],
    lo: &'a [u8],
    hi: &'a [u8],
}

impl<'a> Model for Vectors<'a> {
    ghost Value = { Ranged };

    ghost view = { λ v. record { dims = v.dims; vector = v.vector.now; lo = v.lo.now; hi = v.hi.now } };

    ghost invariant = { λ v. FineVectors v.dims v.vector.now v.lo.now v.hi.now };
}

impl<'a> Vectors<'a> {
    // Refuses what is of another length, then a NaN or an infinity, then a min above its max. What it makes has a call's dims, which the
    // type alone doesn't say.
    #[tactic(auto, unfolding(crate::specs::Calls::vectors_number, crate::specs::Calls::bad_vectors, crate::specs::Calls::any_missing))]
    pub fn judged(
        dims: Dims<MOST_SCALAR_DIMS>,
        vector: &'a [u8],
        lo: &'a [u8],
        hi: &'a [u8],
    ) -> Result<Vectors<'a>, Refusal>
        ensures refused { status result ≡ vectors_number dims vector.now lo.now hi.now false false }
        ensures made { IfOk result (λ v. v ≡ record { dims = dims; vector = vector.now; lo = lo.now; hi = hi.now }) }
        ensures few { IfOk result (λ v. (0 < v.dims) × (v.dims ≤ most_scalar_dims)) }
    {
        let n = dims.get();
        has_length(vector, 4 * n)?;
        has_length(lo, 4 * n)?;
        has_length(hi, 4 * n)?;
        if any_missing(vector, n) || any_missing(lo, n) || any_missing(hi, n) {
            return Err(Refusal::Missing);
        }
        if above_max(n, lo, hi) {
            return Err(Refusal::BadValue);
        }
        Ok(Vectors::fine(n, vector, lo, hi))
    }

    // What is known to be of its length, with nothing missing in it. It refuses nothing.
    pub fn fine(dims: usize, vector: &'a [u8], lo: &'a [u8], hi: &'a [u8]) -> Vectors<'a>
        requires { FineVectors dims vector.now lo.now hi.now }
        ensures { result ≡ record { dims = dims; vector = vector.now; lo = lo.now; hi = hi.now } }
    {
        Vectors {
            dims,
            vector,
            lo,
            hi,
        }
    }

    pub fn dims(&self) -> usize
        ensures { result ≡ self.now.dims }
    {
        self.dims
    }

    // The number of dimension i, its min and its max.
    pub fn at(&self, i: usize) -> (f32, f32, f32)
        requires { i < self.now.dims }
        ensures { result ≡ (f32_at self.now.vector i, f32_at self.now.lo i, f32_at self.now.hi i) }
    {
        (
            number_at(self.vector, i),
            number_at(self.lo, i),
            number_at(self.hi, i),
        )
    }
}

// Whether min is above max somewhere. It counts and doesn't leave early, so that it goes by vectors.
// By index: lo and hi stand side by side, and both are read as floats.
fn above_max(n: usize, lo: &[u8], hi: &[u8]) -> bool
    requires { (n ≤ most_scalar_dims) × (length lo.now ≡ 4 * n) × (length hi.now ≡ 4 * n)
        × (missing n lo.now ≡ false) × (missing n hi.now ≡ false) }
    ensures { result ≡ above_max n lo.now hi.now }
{
    let mut bad: u32 = 0;
    for i in 0..n {
        bad += u32::from(number_at(hi, i) < number_at(lo, i));
    }
    0 < bad
}
