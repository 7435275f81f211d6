// The lists of a call of the reranker.
ghost use Rattle.std.specs.Prelude.{◌≡◌, ◌<◌, length, IfOk};
ghost use Rattle.words.specs.Bytes.{f32_at};
ghost use Rattle.words.specs.Refusals.{RefusedIf, bad_lists};
ghost use Rattle.words.specs.declared.refusal.Refusal.TheVariants.{BadLength};
ghost use Rattle.scan.specs.Lists.{places};

use std::marker::Model;
use words::{Refusal, has_lists};

// Estimates, distances and marks of one number of places, at most 4,096 (the C interface lends them apart). Clauses see the three lists.
#[derive(Drop)]
pub struct Lists<'a> {
    pub(crate) estimates: &'a [u8],
    pub(crate) distances: &'a [u8],
    pub(crate) marks: &'a [u8],
}

impl<'a> Model for Lists<'a> {
    ghost use Rattle.scan.specs.Lists.{Places, Sized, places};

    ghost Value = { Places };

    ghost view = { λ l. places l.estimates.now l.distances.now l.marks.now };

    ghost invariant = { λ l. Sized (places l.estimates.now l.distances.now l.marks.now) };
}

impl<'a> Lists<'a> {
    // Refuses lists that have not one number of places, or more than the most.
    pub fn judged(
        estimates: &'a [u8],
        distances: &'a [u8],
        marks: &'a [u8],
    ) -> Result<Lists<'a>, Refusal>
        ensures refused { RefusedIf (bad_lists (length estimates.now) (length distances.now) (length marks.now)) BadLength result }
        ensures lists { IfOk result (λ l. l ≡ places estimates.now distances.now marks.now) }
    {
        has_lists(estimates, distances, marks)?;
        Ok(Lists {
            estimates,
            distances,
            marks,
        })
    }

    // The distance of place p.
    pub fn distance(&self, p: usize) -> f32
        requires { p < length self.now.marks }
        ensures { result ≡ f32_at self.now.distances p }
    {
        words::f32_at(self.distances, p)
    }
}
