// The candidates, as the library wants them: lists with a place for each.
ghost use Rattle.std.specs.Prelude.{◌≡◌, ◌+◌, ◌^◌, ◌<◌, ◌≤◌, OnOk};
ghost use Rattle.words.specs.Limits.{most_places};

use crate::fault::Fault;
use crate::job::Job;
use lintelkite::Answer;
use std::io::Read;
use words::{MOST_PLACES, Refusal};

// The records are blocks. lk_walk takes the layout's number, as C does.
const BLOCKS: u32 = 2;

// Four lists side by side, in fixed memory: the calls lend them so, as C does.
// Of each candidate: which record of its block it is, its lower bound, its exact distance, and its mark. The first len places are filled.
#[derive(Drop)]
pub struct Lists {
    pub len: usize,
    ids: [u8; 4 * MOST_PLACES],
    bounds: [u8; 4 * MOST_PLACES],
    distances: [u8; 4 * MOST_PLACES],
    marks: [u8; MOST_PLACES],
    ghost room: { len ≤ most_places },
}

// Number i of s, and 0 where s has no such number.
fn u32_or_0(s: &[u8], i: u32) -> u32 {
    match s.as_chunks::<4>().0.get(i as usize) {
        Some(four) => u32::from_le_bytes(*four),
        None => 0,
    }
}

// Float i of s, and 0 where s has no such float.
fn f32_or_0(s: &[u8], i: u32) -> f32 {
    match s.as_chunks::<4>().0.get(i as usize) {
        Some(four) => words::f32_at(four, 0),
        None => 0.0,
    }
}

impl Lists {
    // The walk of a block whose first m records become candidates. Where there are too few places, it refuses.
    fn walk(&mut self, job: &Job, block: &[u8], m: u32) -> Result<(), Refusal>
        ensures { OnOk result (self.new.len ≡ self.old.len + m) }
    {
        let from = self.len;
        let to = (from + m as usize).min(MOST_PLACES);
        let h = job.header;
        let mut count = [0u8; 4];
        lintelkite::lk_walk(
            h.metric,
            BLOCKS,
            h.dims,
            h.dis_v_2,
            h.b,
            h.k,
            job.codes(),
            block,
            m,
            0,
            m,
            &mut self.ids[4 * from..4 * to],
            &mut self.bounds[4 * from..4 * to],
            &mut self.marks[from..to],
            &mut count,
        )?;
        self.len = to;
        Ok(())
    }

    // No candidate yet.
    pub fn new() -> Lists
        ensures { result.len ≡ 0 }
    {
        Lists {
            len: 0,
            ids: [0; 4 * MOST_PLACES],
            bounds: [0; 4 * MOST_PLACES],
            distances: [0; 4 * MOST_PLACES],
            marks: [0; MOST_PLACES],
        }
    }

    // All blocks, one after the other; the file ends with the last one. Every record becomes a candidate. The lists are lent: a Result
    // with them in it would take their room on the stack again.
    pub fn read(&mut self, job: &Job, records: &mut impl Read) -> Result<(), Fault>
        ensures { OnOk result (self.new.len ≡ job.now.header.n) }
    {
        self.len = 0;
        // a walk over no record at all judges what doesn't depend on one: the metric, the dims and the query
        self.walk(job, b"", 0).map_err(Fault::Query)?;
        let n = job.header.n as usize;
        // no heap: room for the longest block
        let mut block = [0u8; 18000];
        let block = &mut block[..job.size];
        for first in (0..n).step_by(32) {
            let m = (n - first).min(32) as u32;
            records
                .read_exact(block)
                .map_err(|_| Fault::ShortBlock(first))?;
            self.walk(job, block, m)
                .map_err(|why| Fault::Block(first, why))?;
        }
        if records.read_exact(&mut [0]).is_ok() {
            return Err(Fault::Longer);
        }
        Ok(())
    }

    // The record of a place. A walk counts from the first record of its block, and the blocks before it had 32 records each.
    pub fn record(&self, place: u32) -> u64
        ensures { result < 2 ^ 33 }
    {
        u64::from(place / 32 * 32) + u64::from(u32_or_0(&self.ids, place))
    }

    // What the reranker says to do next.
    pub fn next(&mut self) -> Result<Answer, Refusal> {
        let n = self.len;
        // a part of a slice of the field: a part of the field itself isn't followed
        let distances = &mut self.distances[..];
        let marks = &mut self.marks[..];
        let mut out = [0u8; 16];
        lintelkite::lk_rerank_next(
            &self.bounds[..4 * n],
            &distances[..4 * n],
            &mut marks[..n],
            &mut out,
        )?;
        Answer::try_from(&out[..])
    }

    // The distance of a place is supplied. One that is below its lower bound would break the order.
    pub fn supply(&mut self, place: u32, distance: f32) -> Result<(), Fault> {
        let n = self.len;
        let of = self.record(place);
        // as in next
        let distances = &mut self.distances[..];
        let marks = &mut self.marks[..];
        let mut count = [0u8; 4];
        lintelkite::lk_rerank_supply(
            &self.bounds[..4 * n],
            &mut distances[..4 * n],
            &mut marks[..n],
            place,
            distance,
            &mut count,
        )
        .map_err(|why| Fault::Distance(of, why))?;
        if distance < f32_or_0(&self.bounds[..4 * n], place) {
            return Err(Fault::Below(of));
        }
        Ok(())
    }

    // How many candidates still wait: their distances were never read.
    pub fn waiting(&self) -> usize {
        self.marks[..self.len]
            .iter()
            .filter(|mark| **mark == words::WAITING)
            .count()
    }
}
