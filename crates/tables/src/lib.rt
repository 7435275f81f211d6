// Module 2, scalar quantizer: the table of a query, and the distance of a code by it.
#![tactic(auto)]

ghost use Rattle.std.specs.Prelude.{◌≡◌};
ghost use Rattle.words.specs.Refusals.{status};
ghost use Rattle.scalar.specs.Calls.{table_answer, distance_answer};

use digits::Width;
use digits::parts::packed_size;
use parts::table::table_size;
use scalar::parts::vectors::Vectors;
use words::{Dims, MOST_SCALAR_DIMS, Metric, Refusal, has_length};

pub mod parts;

// The table of a query: what a code adds to its distance in each dimension.
#[tactic(auto, unfolding(scalar::specs::Calls::table_answer, scalar::specs::Calls::table_number, words::specs::Refusals::answer, words::specs::Refusals::after))]
pub fn scalar_table<'a>(
    metric: u32,
    dims: u32,
    bits: u32,
    vector: &'a [u8],
    min: &'a [u8],
    max: &'a [u8],
    table: &mut [u8],
) -> Result<(), Refusal>
    ensures { (status result, table.new) ≡ table_answer metric dims bits vector.now min.now max.now table.old }
{
    let dims = Dims::<MOST_SCALAR_DIMS>::try_from(dims)?;
    let w = Width::try_from(bits)?;
    has_length(table, table_size(w, dims.get()))?;
    let v = Vectors::judged(dims, vector, min, max)?;
    let m = Metric::try_from(metric)?;
    parts::table::fill(m, w, v, table);
    Ok(())
}

// The distance of a code by a query's table.
#[tactic(auto, unfolding(scalar::specs::Calls::distance_answer, words::specs::Refusals::answer, words::specs::Refusals::after))]
pub fn scalar_distance(
    metric: u32,
    dims: u32,
    bits: u32,
    table: &[u8],
    code: &[u8],
    out: &mut [u8],
) -> Result<(), Refusal>
    ensures { (status result, out.new) ≡ distance_answer metric dims bits table.now code.now out.old }
{
    let dims = Dims::<MOST_SCALAR_DIMS>::try_from(dims)?;
    let w = Width::try_from(bits)?;
    has_length(table, table_size(w, dims.get()))?;
    has_length(code, packed_size(w, dims))?;
    has_length(out, 4)?;
    let m = Metric::try_from(metric)?;
    let s = parts::distance::sum(w, dims.get(), table, code);
    if s.is_nan() {
        return Err(Refusal::NoEstimate);
    }
    words::put_float(out, parts::distance::distance(m, s));
    Ok(())
}
