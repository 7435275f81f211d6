// Module 7: the rough estimate and the lower bound, of a single code and of the 32 lanes of a block.
#![tactic(auto)]

ghost use Rattle.std.specs.Prelude.{◌≡◌, cond, IfOk};
ghost use Rattle.std.specs.Float.Ieee.{lt};
ghost use Rattle.words.specs.Floats.{plus_zero};
ghost use Rattle.words.specs.Refusals.{status, bad_length, RefusedIf};
ghost use Rattle.words.specs.declared.refusal.Refusal.TheVariants.{Missing};
ghost use Rattle.estimate.specs.Calls.{missing_query, bad_query, code_answer, block_answer};

use block::parts::block_size;
use code::parts::code_size;
use lanes::with_wide_table;
use planes::{PLANE_WORDS, Planes};
pub use ready::Ready;
use sums::QueryCodes;
use words::{Dims, MOST_DIMS, Metric, Refusal, has_length, put_float};

mod ready;

// Which number a call gives.
#[derive(Clone, Copy, Debug, PartialEq, Eq, Hash)]
pub enum Asked {
    Rough,
    LowerBound,
}

// The query record beside its codes.
#[derive(Clone, Copy, Debug, PartialEq)]
pub struct Query {
    pub dis_v_2: f32,
    pub b: f32,
    pub k: f32,
}

impl Query {
    // Refuses a NaN and an infinity.
    #[tactic(auto, using(crate::proofs::EstimateLaws::finite_test), unfolding(crate::specs::Calls::missing_query))]
    pub fn has_numbers(self) -> Result<(), Refusal>
        ensures { RefusedIf (missing_query self) Missing result }
    {
        if self.dis_v_2.is_finite() && self.b.is_finite() && self.k.is_finite() {
            Ok(())
        } else {
            Err(Refusal::Missing)
        }
    }

    // The codes beside it. Refuses another number of codes, and a dis_v_2 below 0 and a code above 15.
    #[tactic(auto, unfolding(crate::specs::Calls::bad_query))]
    pub fn judged_codes<'a>(
        self,
        dims: Dims<MOST_DIMS>,
        codes: &'a [u8],
    ) -> Result<QueryCodes<'a>, Refusal>
        ensures refused { status result ≡ cond (bad_length codes.now dims) 3 (cond (bad_query self codes.now) 5 0) }
        ensures codes { IfOk result (λ q. q ≡ codes.now) }
    {
        let codes = QueryCodes::judged(dims, codes)?;
        if below_zero(self.dis_v_2) {
            return Err(Refusal::BadValue);
        }
        Ok(codes)
    }
}

// By the bits: a mode of the machine that takes subnormal numbers for 0 changes no refusal.
fn below_zero(x: f32) -> bool
    ensures { result ≡ lt x plus_zero }
{
    !x.is_nan() && 0x8000_0000 < x.to_bits()
}

// The number asked for of a single code, as the four bytes of out.
// The metric, the dims and the query are judged in the paper's order, with lengths between, so they are no struct.
#[tactic(auto, unfolding(crate::specs::Calls::code_answer, crate::specs::Calls::code_number, crate::specs::Calls::record_number, crate::specs::Calls::query_number, words::specs::Refusals::or_else, words::specs::Refusals::answer, words::specs::Refusals::after))]
pub fn code_call(
    asked: Asked,
    metric: u32,
    dims: u32,
    v: Query,
    q: &[u8],
    code: &[u8],
    out: &mut [u8],
) -> Result<(), Refusal>
    ensures { (status result, out.new) ≡ code_answer asked metric dims v q.now code.now out.old }
{
    let dims = Dims::<MOST_DIMS>::try_from(dims)?;
    has_length(q, dims.get())?;
    has_length(code, code_size(dims))?;
    has_length(out, 4)?;
    v.has_numbers()?;
    let m = Metric::try_from(metric)?;
    let p = Ready::judged(m, v, dims, q)?;
    let mut room = [0u64; PLANE_WORDS];
    let codes = p.codes();
    let planes = Planes::binarize(&codes, &mut room);
    let e = p.code_estimate(asked, &planes, code);
    if e.is_nan() {
        return Err(Refusal::NoEstimate);
    }
    put_float(out, e);
    Ok(())
}

// The number asked for of each lane of a block, four bytes each. Its arguments are no struct for the same reason. The two calls stay two:
// that on a code refuses a NaN, this one writes it.
#[tactic(auto, unfolding(crate::specs::Calls::block_answer, crate::specs::Calls::record_number, crate::specs::Calls::query_number, words::specs::Refusals::answer, words::specs::Refusals::after))]
pub fn block_call(
    asked: Asked,
    metric: u32,
    dims: u32,
    v: Query,
    q: &[u8],
    block: &[u8],
    out: &mut [u8],
) -> Result<(), Refusal>
    ensures { (status result, out.new) ≡ block_answer asked metric dims v q.now block.now out.old }
{
    let dims = Dims::<MOST_DIMS>::try_from(dims)?;
    has_length(q, dims.get())?;
    has_length(block, block_size(dims))?;
    has_length(out, 128)?;
    v.has_numbers()?;
    let m = Metric::try_from(metric)?;
    let p = Ready::judged(m, v, dims, q)?;
    with_wide_table(
        &p.codes(),
        &p,
        out,
        |p, table, out| p.put_lanes(asked, table, block, out),
    );
    Ok(())
}
