// A number of dims that has been judged.
ghost use Rattle.std.specs.Prelude.{◌≡◌, ℕ, ◌≤◌, ◌<◌, IfOk};
ghost use Rattle.words.specs.Refusals.{bad_dims, RefusedIf};
ghost use Rattle.words.specs.declared.refusal.Refusal.TheVariants.{BadDims};

use crate::refusal::Refusal;
use std::marker::Model;

// A number of dims that is neither 0 nor above MOST. Clauses see the number.
#[derive(Clone, Copy)]
pub struct Dims<const MOST: u32> {
    n: u32,
}

impl<const MOST: u32> Model for Dims<MOST> {
    ghost Value = { ℕ };

    ghost view = { λ dims. dims.n };

    ghost invariant = { λ dims. (0 < dims.n) × (dims.n ≤ MOST) };

    ghost inverse = { λ n. record { n = n } };
}

impl<const MOST: u32> TryFrom<u32> for Dims<MOST> {
    type Error = Refusal;

    ghost try_from_gives = { λ n r. RefusedIf (bad_dims MOST n) BadDims r × IfOk r (λ dims. dims ≡ n) };

    #[tactic(auto, unfolding(crate::specs::Refusals::bad_dims))]
    fn try_from(n: u32) -> Result<Dims<MOST>, Refusal> {
        if n == 0 || MOST < n {
            return Err(Refusal::BadDims);
        }
        Ok(Dims { n })
    }
}

impl<const MOST: u32> Dims<MOST> {
    pub fn get(self) -> usize
        ensures { (result ≡ self.entry) × (0 < result) × (result ≤ MOST) }
    {
        self.n as usize
    }
}
