// The codes of a query, judged.
ghost use Rattle.std.specs.Prelude.{◌≡◌, ℕ, ◌≤◌, ◌<◌, List, length, cond, IfOk};
ghost use Rattle.words.specs.Limits.{most_dims, most_sum, top_code};
ghost use Rattle.words.specs.Lists.{any_above};
ghost use Rattle.words.specs.Refusals.{status, bad_length};
ghost use Rattle.sums.specs.Sums.{query_sum};
ghost use Rattle.sums.specs.Sums as sums;

use std::marker::Model;
use words::{Dims, MOST_DIMS, Refusal, TOP_CODE, has_length};

// A query code for each of the dims, none above 15. Clauses see the list of them.
#[derive(Drop)]
pub struct QueryCodes<'a> {
    dims: Dims<MOST_DIMS>,
    codes: &'a [u8],
}

impl<'a> Model for QueryCodes<'a> {
    ghost Value = { List ℕ };

    ghost view = { λ q. q.codes.now };

    ghost invariant = { λ q. (q.dims ≡ length q.codes.now) × (0 < length q.codes.now) × sums.QueryCodes q.codes.now };
}

impl<'a> QueryCodes<'a> {
    // Of codes that are known to be such.
    #[tactic(auto, unfolding(words::specs::Refusals::bad_dims))]
    pub fn of(codes: &'a [u8]) -> QueryCodes<'a>
        requires { (0 < length codes.now) × sums.QueryCodes codes.now }
        ensures { result ≡ codes.now }
    {
        let dims = Dims::try_from(codes.len() as u32).unwrap();
        QueryCodes { dims, codes }
    }

    // Refuses another number of codes, and a code above 15.
    #[tactic(auto, using(crate::proofs::CallLaws::query))]
    pub fn judged(dims: Dims<MOST_DIMS>, codes: &'a [u8]) -> Result<QueryCodes<'a>, Refusal>
        ensures refused { status result ≡ cond (bad_length codes.now dims) 3 (cond (any_above top_code codes.now) 5 0) }
        ensures codes { IfOk result (λ q. q ≡ codes.now) }
    {
        has_length(codes, dims.get())?;
        if words::any_above(TOP_CODE, codes) {
            return Err(Refusal::BadValue);
        }
        Ok(QueryCodes { dims, codes })
    }

    pub fn dims(&self) -> Dims<MOST_DIMS>
        ensures { result ≡ length self.now }
    {
        self.dims
    }

    pub fn as_slice(&self) -> &'a [u8]
        ensures same { result.now ≡ self.now }
        ensures judged { sums.QueryCodes self.now }
    {
        self.codes
    }

    pub fn len(&self) -> usize
        ensures { (result ≡ length self.now) × (0 < result) × (result ≤ most_dims) }
    {
        self.codes.len()
    }

    // The sum of all query codes.
    pub fn total(&self) -> u32
        ensures { (result ≡ query_sum self.now) × (result ≤ most_sum) }
    {
        self.codes.iter().map(|x| u32::from(*x)).sum()
    }
}
