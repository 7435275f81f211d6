// The planes of a query: four bit planes, whose counts of ones weigh 1, 2, 4 and 8.
ghost use Rattle.std.specs.Prelude.{◌≡◌, ℕ, ◌*◌, ◌≤◌, List, length};
ghost use Rattle.words.specs.Limits.{most_sum};
ghost use Rattle.code.specs.Code.{code_words, words_bit};
ghost use Rattle.sums.specs.Sums.{plain_sum};
ghost use Rattle.planes.specs.Parts as parts;

use crate::parts::{asymmetric_binary_dot_product, binarize};
use std::marker::Model;
use sums::QueryCodes;
use words::MOST_DIMS;

// How many words the planes of a query have at most. Not by `div_ceil`: a constant's value cannot hold a call.
pub const PLANE_WORDS: usize = 4 * ((MOST_DIMS as usize + 63) / 64);

// A query and its planes, one after the other in room that is lent. Clauses see the query's codes.
#[derive(Drop)]
pub struct Planes<'a> {
    query: &'a QueryCodes<'a>,
    words: &'a [u64],
}

impl<'a> Model for Planes<'a> {
    ghost Value = { List ℕ };

    ghost view = { λ p. p.query.now };

    ghost invariant = { λ p. parts.Planes p.query.now p.words.now };
}

impl<'a> Planes<'a> {
    // The Rust's function of this name.
    pub fn binarize(query: &'a QueryCodes<'a>, room: &'a mut [u64]) -> Planes<'a>
        requires { 4 * code_words (length query.now) ≤ length room.old }
        ensures { result ≡ query.now }
    {
        binarize(query.as_slice(), room);
        Planes { query, words: room }
    }

    // The sum of a single code, from its word bytes, one pass for each plane. The Rust's function of this name.
    pub fn asymmetric_binary_dot_product(&self, words: &[u8]) -> u32
        requires { length words.now ≡ 8 * code_words (length self.now) }
        ensures { (result ≡ plain_sum self.now (words_bit words.now)) × (result ≤ most_sum) }
    {
        asymmetric_binary_dot_product(self.query.as_slice(), self.words, words)
    }
}
