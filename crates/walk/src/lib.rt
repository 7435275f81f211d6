// Module 8: the range walk. The Rust's `flat_rerank_continue`.
#![tactic(auto)]

ghost use Rattle.std.specs.Prelude.{◌≡◌, ◌-◌, ◌*◌, ◌≤◌, ◌++◌, length, drop};
ghost use Rattle.words.specs.Refusals.{status};
ghost use Rattle.walk.specs.Walk.{id_words, walk_answer};

use estimate::{Query, Ready};
pub use layout::Layout;
use wanted::{ROOM, Wanted};
use words::{
    Dims, MOST_DIMS, MOST_RECORDS, Metric, Refusal, WAITING, has_length, has_lists, put_number,
    put_u32,
};

mod layout;
mod wanted;

// The ids of a range in the first places.
#[tactic(auto, using(crate::proofs::WalkLaws::no_ids, crate::proofs::WalkLaws::id_more))]
fn put_ids(ids: &mut [u8], start: u32, end: u32)
    requires { 4 * (end - start) ≤ length ids.old }
    ensures { ids.new ≡ id_words start end ++ drop (4 * (end - start)) ids.old }
{
    // tried: `(start..end).enumerate()`; the proof that the place and the id go by the number of turns did not close
    for id in start..end {
        put_u32(ids, 4 * (id - start) as usize, id);
    }
}

// The bounds that were found, in the first places. A loop: by copy_from_slice the archive would ask for memmove, which no other call needs.
fn put_bounds(bounds: &mut [u8], found: &[u8])
    requires { length found.now ≤ length bounds.old }
    ensures { bounds.new ≡ found.now ++ drop (length found.now) bounds.old }
{
    for (i, byte) in found.iter().enumerate() {
        bounds[i] = *byte;
    }
}

// The ids of a range with their lower bounds, marks 0, and the count. The bounds go to a buffer of the walk's own, so that
// nothing is written before all of them are known to be numbers. What is made of the query is made once, and not for an empty range.
// The metric, the dims and the query are judged in the paper's order, with lengths between, so they are no struct.
#[tactic(auto, using(crate::proofs::WalkLaws::put_front), unfolding(crate::specs::Walk::walk_answer, crate::specs::Walk::walk_number, crate::specs::Walk::bad_lengths, crate::specs::Walk::bad_records, crate::specs::Walk::bad_outs, crate::specs::Walk::out_of_range, crate::specs::Walk::range_number, estimate::specs::Calls::query_number, words::specs::Refusals::or_else, words::specs::Refusals::after, words::specs::Refusals::bad_length))]
pub fn walk(
    metric: u32,
    layout: u32,
    dims: u32,
    v: Query,
    q: &[u8],
    records: &[u8],
    n: u32,
    start: u32,
    end: u32,
    ids: &mut [u8],
    bounds: &mut [u8],
    marks: &mut [u8],
    count: &mut [u8],
) -> Result<(), Refusal>
    ensures { (status result, ids.new, bounds.new, marks.new, count.new)
        ≡ walk_answer metric layout dims v q.now records.now n start end
        ids.old bounds.old marks.old count.old }
{
    let dims = Dims::<MOST_DIMS>::try_from(dims)?;
    has_length(q, dims.get())?;
    has_lists(ids, bounds, marks)?;
    has_length(count, 4)?;
    if MOST_RECORDS < n {
        return Err(Refusal::BadLength);
    }
    // usize has no From<u32>: hence the casts
    let n = n as usize;
    // a layout that is none states no length, and is refused after the lengths
    let layout = Layout::try_from(layout);
    if let Ok(l) = layout {
        has_length(records, l.records_size(dims, n))?;
    }
    v.has_numbers()?;
    let layout = layout?;
    let metric = Metric::try_from(metric)?;
    let codes = v.judged_codes(dims, q)?;
    let c = end.saturating_sub(start) as usize;
    if start < end && n < end as usize {
        return Err(Refusal::OutOfRange);
    }
    if marks.len() < c {
        return Err(Refusal::NoRoom);
    }
    if c == 0 {
        put_number(count, 0);
        return Ok(());
    }
    let wanted = Wanted {
        query: Ready::of(metric, v, codes),
        layout,
        records,
        n,
        start: start as usize,
        c,
    };
    let mut buf = [0u8; ROOM];
    let found = wanted.bounds(&mut buf)?;
    put_ids(ids, start, end);
    put_bounds(bounds, found);
    marks[0..c].fill(WAITING);
    put_number(count, c as u32);
    Ok(())
}
