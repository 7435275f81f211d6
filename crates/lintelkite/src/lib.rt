// The calls of include/lintelkite.h, in the header's order. Each function forwards to its module's call and makes its promise: a
// `pub use` would leave the promise in the module, and out of a must-fail edit's reach. lintelkite_c exports each to C under the same
// name, with the same promise, and a number for the Result. The parameters are those of C.
#![tactic(auto)]

ghost use Rattle.std.specs.Prelude.{◌≡◌};
ghost use Rattle.words.specs.Refusals.{status};
ghost use Rattle.digits.specs.Calls as digits;
ghost use Rattle.scalar.specs.Calls as scalar;
ghost use Rattle.root.specs.Calls as root;
ghost use Rattle.code.specs.Calls as single;
ghost use Rattle.block.specs.Calls as blocks;
ghost use Rattle.sums.specs.Calls as sums;
ghost use Rattle.estimate.specs.declared.Asked.TheVariants.{Rough, LowerBound};
ghost use Rattle.estimate.specs.Estimate.{query_of};
ghost use Rattle.estimate.specs.Calls as estimates;
ghost use Rattle.walk.specs.Walk as walks;
ghost use Rattle.rerank.specs.Calls as rerank;

use estimate::{Asked, Query};
use words::Refusal;

// What lk_rerank_next's out says, read back. A type: its promise is its own.
pub use rerank::Answer;

// ---- sizes

pub fn lk_digits_size(dims: u32, bits: u32, out: &mut [u8]) -> Result<(), Refusal>
    ensures { (status result, out.new) ≡ digits.size_answer dims bits out.old }
{
    digits::digits_size(dims, bits, out)
}

pub fn lk_code_size(dims: u32, out: &mut [u8]) -> Result<(), Refusal>
    ensures { (status result, out.new) ≡ single.size_answer dims out.old }
{
    code::code_size(dims, out)
}

pub fn lk_block_size(dims: u32, out: &mut [u8]) -> Result<(), Refusal>
    ensures { (status result, out.new) ≡ blocks.size_answer dims out.old }
{
    block::block_size(dims, out)
}

// ---- module 1, digits

pub fn lk_digits_pack(dims: u32, bits: u32, codes: &[u8], packed: &mut [u8]) -> Result<(), Refusal>
    ensures { (status result, packed.new) ≡ digits.pack_answer dims bits codes.now packed.old }
{
    digits::digits_pack(dims, bits, codes, packed)
}

pub fn lk_digits_read(
    dims: u32,
    bits: u32,
    packed: &[u8],
    index: u32,
    out: &mut [u8],
) -> Result<(), Refusal>
    ensures { (status result, out.new) ≡ digits.read_answer dims bits packed.now index out.old }
{
    digits::digits_read(dims, bits, packed, index, out)
}

// ---- module 2, scalar quantizer

pub fn lk_scalar_encode(
    dims: u32,
    bits: u32,
    vector: &[u8],
    min: &[u8],
    max: &[u8],
    code: &mut [u8],
) -> Result<(), Refusal>
    ensures { (status result, code.new) ≡ scalar.encode_answer dims bits vector.now min.now max.now code.old }
{
    scalar::scalar_encode(dims, bits, vector, min, max, code)
}

pub fn lk_scalar_table(
    metric: u32,
    dims: u32,
    bits: u32,
    vector: &[u8],
    min: &[u8],
    max: &[u8],
    table: &mut [u8],
) -> Result<(), Refusal>
    ensures { (status result, table.new)
        ≡ scalar.table_answer metric dims bits vector.now min.now max.now table.old }
{
    tables::scalar_table(metric, dims, bits, vector, min, max, table)
}

pub fn lk_scalar_distance(
    metric: u32,
    dims: u32,
    bits: u32,
    table: &[u8],
    code: &[u8],
    out: &mut [u8],
) -> Result<(), Refusal>
    ensures { (status result, out.new) ≡ scalar.distance_answer metric dims bits table.now code.now out.old }
{
    tables::scalar_distance(metric, dims, bits, table, code, out)
}

// ---- module 3, square root

pub fn lk_root(x: f32, out: &mut [u8]) -> Result<(), Refusal>
    ensures { (status result, out.new) ≡ root.root_answer x out.old }
{
    root::root_bytes(x, out)
}

// ---- module 4, single code

pub fn lk_code_encode(
    dims: u32,
    factors: &[u8],
    vector: &[u8],
    code: &mut [u8],
) -> Result<(), Refusal>
    ensures { (status result, code.new) ≡ single.encode_answer dims factors.now vector.now code.old }
{
    code::code_encode(dims, factors, vector, code)
}

pub fn lk_code_bit(dims: u32, code: &[u8], index: u32, out: &mut [u8]) -> Result<(), Refusal>
    ensures { (status result, out.new) ≡ single.bit_answer dims code.now index out.old }
{
    code::code_bit(dims, code, index, out)
}

// ---- module 5, block

pub fn lk_block_pack(dims: u32, codes: &[u8], block: &mut [u8]) -> Result<(), Refusal>
    ensures { (status result, block.new) ≡ blocks.pack_answer dims codes.now block.old }
{
    block::block_pack(dims, codes, block)
}

pub fn lk_block_lane(dims: u32, block: &[u8], lane: u32, code: &mut [u8]) -> Result<(), Refusal>
    ensures { (status result, code.new) ≡ blocks.lane_answer dims block.now lane code.old }
{
    block::block_lane(dims, block, lane, code)
}

// ---- module 6, sums

pub fn lk_query_sum(dims: u32, query: &[u8], out: &mut [u8]) -> Result<(), Refusal>
    ensures { (status result, out.new) ≡ sums.query_sum_answer dims query.now out.old }
{
    sums::query_sum(dims, query, out)
}

pub fn lk_code_sum(dims: u32, query: &[u8], code: &[u8], out: &mut [u8]) -> Result<(), Refusal>
    ensures { (status result, out.new) ≡ sums.code_sum_answer dims query.now code.now out.old }
{
    planes::code_sum(dims, query, code, out)
}

pub fn lk_block_sums(dims: u32, query: &[u8], block: &[u8], out: &mut [u8]) -> Result<(), Refusal>
    ensures { (status result, out.new) ≡ sums.block_sums_answer dims query.now block.now out.old }
{
    lanes::block_sums(dims, query, block, out)
}

// ---- module 7, estimates

pub fn lk_code_rough(
    metric: u32,
    dims: u32,
    dis_v_2: f32,
    b: f32,
    k: f32,
    query: &[u8],
    code: &[u8],
    out: &mut [u8],
) -> Result<(), Refusal>
    ensures { (status result, out.new)
        ≡ estimates.code_answer Rough metric dims (query_of dis_v_2 b k) query.now code.now out.old }
{
    let v = Query { dis_v_2, b, k };
    estimate::code_call(Asked::Rough, metric, dims, v, query, code, out)
}

pub fn lk_code_lower_bound(
    metric: u32,
    dims: u32,
    dis_v_2: f32,
    b: f32,
    k: f32,
    query: &[u8],
    code: &[u8],
    out: &mut [u8],
) -> Result<(), Refusal>
    ensures { (status result, out.new)
        ≡ estimates.code_answer LowerBound metric dims (query_of dis_v_2 b k) query.now code.now out.old }
{
    let v = Query { dis_v_2, b, k };
    estimate::code_call(Asked::LowerBound, metric, dims, v, query, code, out)
}

pub fn lk_block_rough(
    metric: u32,
    dims: u32,
    dis_v_2: f32,
    b: f32,
    k: f32,
    query: &[u8],
    block: &[u8],
    out: &mut [u8],
) -> Result<(), Refusal>
    ensures { (status result, out.new)
        ≡ estimates.block_answer Rough metric dims (query_of dis_v_2 b k) query.now block.now out.old }
{
    let v = Query { dis_v_2, b, k };
    estimate::block_call(Asked::Rough, metric, dims, v, query, block, out)
}

pub fn lk_block_lower_bounds(
    metric: u32,
    dims: u32,
    dis_v_2: f32,
    b: f32,
    k: f32,
    query: &[u8],
    block: &[u8],
    out: &mut [u8],
) -> Result<(), Refusal>
    ensures { (status result, out.new)
        ≡ estimates.block_answer LowerBound metric dims (query_of dis_v_2 b k) query.now block.now out.old }
{
    let v = Query { dis_v_2, b, k };
    estimate::block_call(Asked::LowerBound, metric, dims, v, query, block, out)
}

// ---- module 8, range walk

pub fn lk_walk(
    metric: u32,
    layout: u32,
    dims: u32,
    dis_v_2: f32,
    b: f32,
    k: f32,
    query: &[u8],
    records: &[u8],
    n: u32,
    start: u32,
    end: u32,
    ids: &mut [u8],
    bounds: &mut [u8],
    marks: &mut [u8],
    count: &mut [u8],
) -> Result<(), Refusal>
    ensures { (status result, ids.new, bounds.new, marks.new, count.new)
        ≡ walks.walk_answer metric layout dims (query_of dis_v_2 b k) query.now records.now n start end
        ids.old bounds.old marks.old count.old }
{
    let v = Query { dis_v_2, b, k };
    walk::walk(
        metric, layout, dims, v, query, records, n, start, end, ids, bounds, marks, count,
    )
}

// ---- module 9, reranker

pub fn lk_rerank_next(
    estimates: &[u8],
    distances: &[u8],
    marks: &mut [u8],
    out: &mut [u8],
) -> Result<(), Refusal>
    ensures { (status result, marks.new, out.new)
        ≡ rerank.next_answer estimates.now distances.now marks.old out.old }
{
    rerank::next(estimates, distances, marks, out)
}

pub fn lk_rerank_supply(
    estimates: &[u8],
    distances: &mut [u8],
    marks: &mut [u8],
    place: u32,
    distance: f32,
    out: &mut [u8],
) -> Result<(), Refusal>
    ensures { (status result, distances.new, marks.new, out.new)
        ≡ rerank.supply_answer estimates.now distances.old marks.old place distance out.old }
{
    rerank::supply(estimates, distances, marks, place, distance, out)
}
