// The bounds of a walk that has been judged.
ghost use Rattle.std.specs.Prelude.{◌≡◌, ◌+◌, ◌*◌, ◌/◌, ◌%◌, ◌<◌, ◌≤◌, length, take, IfOk};
ghost use Rattle.std.specs.Float.Ieee.{is_nan};
ghost use Rattle.words.specs.Limits.{most_records, most_places};
ghost use Rattle.words.specs.Lists.{any_below, record_of};
ghost use Rattle.words.specs.Refusals.{RefusedIf};
ghost use Rattle.words.specs.declared.refusal.Refusal.TheVariants.{NoEstimate};
ghost use Rattle.walk.specs.Walk.{records_size, bound_of, bound_words};
ghost use Rattle.walk.specs.Parts.{room_of};

use crate::layout::Layout;
use block::parts::block_size;
use code::parts::code_size;
use estimate::{Asked, Ready};
use lanes::{WideTable, with_wide_table};
use planes::{PLANE_WORDS, Planes};
use words::{MOST_PLACES, Refusal, any_nan, put_f32};

// Room for the bounds of every lane of the blocks that the most ids reach into.
pub const ROOM: usize = 128 * ((MOST_PLACES + 62) / 32);

// The ids that a walk asks for: c from start on, at least one, all of them among the n records.
#[derive(Drop)]
pub struct Wanted<'a> {
    pub query: Ready<'a>,
    pub layout: Layout,
    pub records: &'a [u8],
    pub n: usize,
    pub start: usize,
    pub c: usize,
    ghost few: { n ≤ most_records },
    ghost sized: { length records.now ≡ records_size layout (length query.codes.now) n },
    ghost some: { 0 < c },
    ghost inside: { start + c ≤ n },
    ghost places: { c ≤ most_places },
}

// Record i of records of size bytes each. By its place: chunks would take skip, take and enumerate, which is no plainer.
fn record_at(records: &[u8], size: usize, i: usize) -> &[u8]
    requires { size * i + size ≤ length records.now }
    ensures { (result.now ≡ record_of size records.now i) × (length result.now ≡ size) }
{
    let at = size * i;
    &records[at..at + size]
}

impl<'a> Wanted<'a> {
    // The bounds over single codes.
    fn fill_codes(&self, buf: &mut [u8])
        requires layout { self.now.layout ≡ Layout.Single }
        requires room { 4 * self.now.c ≤ length buf.old }
        ensures { let w = self.now in take (4 * w.c) buf.new ≡ bound_words Layout.Single w.query.m w.query.v w.query.codes.now w.records.now w.start w.c }
    {
        let q = self.query.codes();
        let size = code_size(q.dims());
        let mut room = [0u64; PLANE_WORDS];
        let planes = Planes::binarize(&q, &mut room);
        for i in 0..self.c {
            let code = record_at(self.records, size, self.start + i);
            let bound = self.query.code_estimate(Asked::LowerBound, &planes, code);
            put_f32(buf, 4 * i, bound);
        }
    }

    // The bounds of all lanes of the blocks that the ids reach into: each block is summed once.
    fn fill_blocks(&self, table: &WideTable, buf: &mut [u8])
        requires layout { self.now.layout ≡ Layout.Blocks }
        requires table { table.now ≡ self.now.query.codes.now }
        requires room { room_of self.now.c ≤ length buf.old }
        ensures { let w = self.now in let count = (w.start % 32 + w.c + 31) / 32 in take (128 * count) buf.new
            ≡ bound_words Layout.Blocks w.query.m w.query.v w.query.codes.now w.records.now (32 * (w.start / 32)) (32 * count) }
    {
        let size = block_size(self.query.codes().dims());
        let count = (self.start % 32 + self.c).div_ceil(32);
        for b in 0..count {
            let block = record_at(self.records, size, self.start / 32 + b);
            let at = 128 * b;
            self.query
                .put_lanes(Asked::LowerBound, table, block, &mut buf[at..at + 128]);
        }
    }

    // The bounds of the ids, four bytes each, worked out in buf.
    #[tactic(auto, using(crate::proofs::WalkLaws::wanted))]
    fn fill<'b>(&self, buf: &'b mut [u8; ROOM]) -> &'b [u8]
        ensures { let w = self.now in result.now ≡ bound_words w.layout w.query.m w.query.v w.query.codes.now w.records.now w.start w.c }
    {
        match self.layout {
            Layout::Single => {
                self.fill_codes(buf);
                &buf[0..4 * self.c]
            }
            Layout::Blocks => {
                with_wide_table(
                    &self.query.codes(),
                    self,
                    buf,
                    |w, table, buf| w.fill_blocks(table, buf),
                );
                let lane = self.start % 32;
                &buf[4 * lane..4 * (lane + self.c)]
            }
        }
    }

    // The same. Refuses a NaN among them.
    pub fn bounds<'b>(&self, buf: &'b mut [u8; ROOM]) -> Result<&'b [u8], Refusal>
        ensures refused { let w = self.now in
            RefusedIf (any_below w.c (λ j. is_nan (bound_of w.layout w.query.m w.query.v w.query.codes.now w.records.now (w.start + j)))) NoEstimate result }
        ensures bounds { let w = self.now in IfOk result (λ r. r.now ≡ bound_words w.layout w.query.m w.query.v w.query.codes.now w.records.now w.start w.c) }
        ensures size { IfOk result (λ r. length r.now ≡ 4 * self.now.c) }
    {
        let bounds = self.fill(buf);
        if any_nan(bounds, self.c) {
            return Err(Refusal::NoEstimate);
        }
        Ok(bounds)
    }
}
