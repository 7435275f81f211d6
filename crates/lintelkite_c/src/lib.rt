// The C boundary of include/lintelkite.h, in the header's order. Each function calls the one of its name in lintelkite and makes its
// promise: what it returns is 0 or the refusal's number.
#![tactic(auto)]

ghost use Rattle.std.specs.Prelude.{◌≡◌};
ghost use Rattle.digits.specs.Calls as digits;
ghost use Rattle.scalar.specs.Calls as scalar;
ghost use Rattle.root.specs.Calls as root;
ghost use Rattle.code.specs.Calls as single;
ghost use Rattle.block.specs.Calls as blocks;
ghost use Rattle.sums.specs.Calls as sums;
ghost use Rattle.estimate.specs.declared.Asked.TheVariants.{Rough, LowerBound};
ghost use Rattle.estimate.specs.Estimate.{query_of};
ghost use Rattle.estimate.specs.Calls as estimates;
ghost use Rattle.walk.specs.Walk as walks;
ghost use Rattle.rerank.specs.Calls as rerank;

// ---- sizes

#[unsafe(no_mangle)]
pub extern "C" fn lk_digits_size(dims: u32, bits: u32, out: &mut [u8]) -> u32
    ensures { (result, out.new) ≡ digits.size_answer dims bits out.old }
{
    words::status(lintelkite::lk_digits_size(dims, bits, out))
}

#[unsafe(no_mangle)]
pub extern "C" fn lk_code_size(dims: u32, out: &mut [u8]) -> u32
    ensures { (result, out.new) ≡ single.size_answer dims out.old }
{
    words::status(lintelkite::lk_code_size(dims, out))
}

#[unsafe(no_mangle)]
pub extern "C" fn lk_block_size(dims: u32, out: &mut [u8]) -> u32
    ensures { (result, out.new) ≡ blocks.size_answer dims out.old }
{
    words::status(lintelkite::lk_block_size(dims, out))
}

// ---- module 1, digits

#[unsafe(no_mangle)]
pub extern "C" fn lk_digits_pack(dims: u32, bits: u32, codes: &[u8], packed: &mut [u8]) -> u32
    ensures { (result, packed.new) ≡ digits.pack_answer dims bits codes.now packed.old }
{
    words::status(lintelkite::lk_digits_pack(dims, bits, codes, packed))
}

#[unsafe(no_mangle)]
pub extern "C" fn lk_digits_read(
    dims: u32,
    bits: u32,
    packed: &[u8],
    index: u32,
    out: &mut [u8],
) -> u32
    ensures { (result, out.new) ≡ digits.read_answer dims bits packed.now index out.old }
{
    words::status(lintelkite::lk_digits_read(dims, bits, packed, index, out))
}

// ---- module 2, scalar quantizer

#[unsafe(no_mangle)]
pub extern "C" fn lk_scalar_encode(
    dims: u32,
    bits: u32,
    vector: &[u8],
    min: &[u8],
    max: &[u8],
    code: &mut [u8],
) -> u32
    ensures { (result, code.new) ≡ scalar.encode_answer dims bits vector.now min.now max.now code.old }
{
    words::status(lintelkite::lk_scalar_encode(dims, bits, vector, min, max, code))
}

#[unsafe(no_mangle)]
pub extern "C" fn lk_scalar_table(
    metric: u32,
    dims: u32,
    bits: u32,
    vector: &[u8],
    min: &[u8],
    max: &[u8],
    table: &mut [u8],
) -> u32
    ensures { (result, table.new)
        ≡ scalar.table_answer metric dims bits vector.now min.now max.now table.old }
{
    words::status(lintelkite::lk_scalar_table(metric, dims, bits, vector, min, max, table))
}

#[unsafe(no_mangle)]
pub extern "C" fn lk_scalar_distance(
    metric: u32,
    dims: u32,
    bits: u32,
    table: &[u8],
    code: &[u8],
    out: &mut [u8],
) -> u32
    ensures { (result, out.new) ≡ scalar.distance_answer metric dims bits table.now code.now out.old }
{
    words::status(lintelkite::lk_scalar_distance(metric, dims, bits, table, code, out))
}

// ---- module 3, square root

#[unsafe(no_mangle)]
pub extern "C" fn lk_root(x: f32, out: &mut [u8]) -> u32
    ensures { (result, out.new) ≡ root.root_answer x out.old }
{
    words::status(lintelkite::lk_root(x, out))
}

// ---- module 4, single code

#[unsafe(no_mangle)]
pub extern "C" fn lk_code_encode(dims: u32, factors: &[u8], vector: &[u8], code: &mut [u8]) -> u32
    ensures { (result, code.new) ≡ single.encode_answer dims factors.now vector.now code.old }
{
    words::status(lintelkite::lk_code_encode(dims, factors, vector, code))
}

#[unsafe(no_mangle)]
pub extern "C" fn lk_code_bit(dims: u32, code: &[u8], index: u32, out: &mut [u8]) -> u32
    ensures { (result, out.new) ≡ single.bit_answer dims code.now index out.old }
{
    words::status(lintelkite::lk_code_bit(dims, code, index, out))
}

// ---- module 5, block

#[unsafe(no_mangle)]
pub extern "C" fn lk_block_pack(dims: u32, codes: &[u8], block: &mut [u8]) -> u32
    ensures { (result, block.new) ≡ blocks.pack_answer dims codes.now block.old }
{
    words::status(lintelkite::lk_block_pack(dims, codes, block))
}

#[unsafe(no_mangle)]
pub extern "C" fn lk_block_lane(dims: u32, block: &[u8], lane: u32, code: &mut [u8]) -> u32
    ensures { (result, code.new) ≡ blocks.lane_answer dims block.now lane code.old }
{
    words::status(lintelkite::lk_block_lane(dims, block, lane, code))
}

// ---- module 6, sums

#[unsafe(no_mangle)]
pub extern "C" fn lk_query_sum(dims: u32, query: &[u8], out: &mut [u8]) -> u32
    ensures { (result, out.new) ≡ sums.query_sum_answer dims query.now out.old }
{
    words::status(lintelkite::lk_query_sum(dims, query, out))
}

#[unsafe(no_mangle)]
pub extern "C" fn lk_code_sum(dims: u32, query: &[u8], code: &[u8], out: &mut [u8]) -> u32
    ensures { (result, out.new) ≡ sums.code_sum_answer dims query.now code.now out.old }
{
    words::status(lintelkite::lk_code_sum(dims, query, code, out))
}

#[unsafe(no_mangle)]
pub extern "C" fn lk_block_sums(dims: u32, query: &[u8], block: &[u8], out: &mut [u8]) -> u32
    ensures { (result, out.new) ≡ sums.block_sums_answer dims query.now block.now out.old }
{
    words::status(lintelkite::lk_block_sums(dims, query, block, out))
}

// ---- module 7, estimates

#[unsafe(no_mangle)]
pub extern "C" fn lk_code_rough(
    metric: u32,
    dims: u32,
    dis_v_2: f32,
    b: f32,
    k: f32,
    query: &[u8],
    code: &[u8],
    out: &mut [u8],
) -> u32
    ensures { (result, out.new)
        ≡ estimates.code_answer Rough metric dims (query_of dis_v_2 b k) query.now code.now out.old }
{
    words::status(lintelkite::lk_code_rough(metric, dims, dis_v_2, b, k, query, code, out))
}

#[unsafe(no_mangle)]
pub extern "C" fn lk_code_lower_bound(
    metric: u32,
    dims: u32,
    dis_v_2: f32,
    b: f32,
    k: f32,
    query: &[u8],
    code: &[u8],
    out: &mut [u8],
) -> u32
    ensures { (result, out.new)
        ≡ estimates.code_answer LowerBound metric dims (query_of dis_v_2 b k) query.now code.now out.old }
{
    words::status(lintelkite::lk_code_lower_bound(metric, dims, dis_v_2, b, k, query, code, out))
}

#[unsafe(no_mangle)]
pub extern "C" fn lk_block_rough(
    metric: u32,
    dims: u32,
    dis_v_2: f32,
    b: f32,
    k: f32,
    query: &[u8],
    block: &[u8],
    out: &mut [u8],
) -> u32
    ensures { (result, out.new)
        ≡ estimates.block_answer Rough metric dims (query_of dis_v_2 b k) query.now block.now out.old }
{
    words::status(lintelkite::lk_block_rough(metric, dims, dis_v_2, b, k, query, block, out))
}

#[unsafe(no_mangle)]
pub extern "C" fn lk_block_lower_bounds(
    metric: u32,
    dims: u32,
    dis_v_2: f32,
    b: f32,
    k: f32,
    query: &[u8],
    block: &[u8],
    out: &mut [u8],
) -> u32
    ensures { (result, out.new)
        ≡ estimates.block_answer LowerBound metric dims (query_of dis_v_2 b k) query.now block.now out.old }
{
    words::status(lintelkite::lk_block_lower_bounds(metric, dims, dis_v_2, b, k, query, block, out))
}

// ---- module 8, range walk

#[unsafe(no_mangle)]
pub extern "C" fn lk_walk(
    metric: u32,
    layout: u32,
    dims: u32,
    dis_v_2: f32,
    b: f32,
    k: f32,
    query: &[u8],
    records: &[u8],
    n: u32,
    start: u32,
    end: u32,
    ids: &mut [u8],
    bounds: &mut [u8],
    marks: &mut [u8],
    count: &mut [u8],
) -> u32
    ensures { (result, ids.new, bounds.new, marks.new, count.new)
        ≡ walks.walk_answer metric layout dims (query_of dis_v_2 b k) query.now records.now n start end
        ids.old bounds.old marks.old count.old }
{
    words::status(lintelkite::lk_walk(
        metric, layout, dims, dis_v_2, b, k, query, records, n, start, end, ids, bounds, marks,
        count,
    ))
}

// ---- module 9, reranker

#[unsafe(no_mangle)]
pub extern "C" fn lk_rerank_next(
    estimates: &[u8],
    distances: &[u8],
    marks: &mut [u8],
    out: &mut [u8],
) -> u32
    ensures { (result, marks.new, out.new)
        ≡ rerank.next_answer estimates.now distances.now marks.old out.old }
{
    words::status(lintelkite::lk_rerank_next(estimates, distances, marks, out))
}

#[unsafe(no_mangle)]
pub extern "C" fn lk_rerank_supply(
    estimates: &[u8],
    distances: &mut [u8],
    marks: &mut [u8],
    place: u32,
    distance: f32,
    out: &mut [u8],
) -> u32
    ensures { (result, distances.new, marks.new, out.new)
        ≡ rerank.supply_answer estimates.now distances.old marks.old place distance out.old }
{
    words::status(lintelkite::lk_rerank_supply(estimates, distances, marks, place, distance, out))
}
