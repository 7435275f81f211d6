// Module 9: the reranker, over lent byte buffers. It ports `ErrorFlatReranker` of the Rust's reranker/error.rs: the heaps
// become one scan over the lists (crate scan), the callback becomes Ask and supply.
#![tactic(auto)]

ghost use Rattle.std.specs.Prelude.{◌≡◌, ◌+◌, ◌*◌, ◌<◌, ◌++◌, length, Some};
ghost use Rattle.words.specs.Bytes.{bytes_of, float_bytes};
ghost use Rattle.words.specs.Refusals.{status};
ghost use Rattle.rerank.specs.Rerank.{answer_of, asks_for};
ghost use Rattle.rerank.specs.Calls.{next_answer, supply_answer, answer_bytes, answer_marks};
ghost use Rattle.rerank.specs.Parts.{held, Told, Inside, Accepting, Asks, Gives, Ruled};
ghost use Rattle.scan.specs.Parts.{waiting_key, asked_key, LeastOf};

use scan::{Least, Lists, Scan};
use words::{Refusal, has_length};

// The answers' numbers in next's out, as include/lintelkite.h has them.
pub const DONE: u32 = 0;

pub const ASK: u32 = 1;

pub const GIVE: u32 = 2;

// What the rule says to do next: ask for a place's distance, hand a place out, or nothing.
#[derive(Clone, Copy, Debug, PartialEq)]
pub enum Answer {
    Ask(u32),
    Give(u32, f32),
    Done,
}

impl Answer {
    // A place is now asked for exactly when the answer is Ask of it.
    #[tactic(auto, unfolding(crate::specs::Rerank::asks_for))]
    fn asks_for(self, place: u32) -> bool
        ensures { result ≡ asks_for self place }
    {
        matches!(self, Answer::Ask(p) if p == place)
    }
}

// Reads next's out back.
impl TryFrom<&[u8]> for Answer {
    type Error = Refusal;

    ghost try_from_gives = { λ out r. Told out.now r };

    #[tactic(auto, unfolding(crate::specs::Demand::told, words::specs::Refusals::bad_length))]
    fn try_from(out: &[u8]) -> Result<Answer, Refusal> {
        has_length(out, 16)?;
        let place = words::u32_at(out, 4);
        match words::u32_at(out, 0) {
            DONE => Ok(Answer::Done),
            ASK => Ok(Answer::Ask(place)),
            GIVE => Ok(Answer::Give(place, words::f32_at(out, 2))),
            _ => Err(Refusal::BadValue),
        }
    }
}

// Ask for the first waiting place of the least key.
#[tactic(auto, using(scan::proofs::ScanLaws::some_place, scan::proofs::ScanLaws::place_of))]
fn ask(lists: &Lists<'_>, least: Least) -> Answer
    requires { LeastOf (waiting_key lists.now) (length lists.now.marks) (Some least) }
    ensures { Asks lists.now least.key result }
{
    Answer::Ask(lists.first_waiting(least).unwrap() as u32)
}

// Give the first asked place of the least key.
#[tactic(auto, using(scan::proofs::ScanLaws::some_place, scan::proofs::ScanLaws::place_of))]
fn give(lists: &Lists<'_>, least: Least) -> Answer
    requires { LeastOf (asked_key lists.now) (length lists.now.marks) (Some least) }
    ensures { Gives lists.now least.key result }
{
    let place = lists.first_asked(least).unwrap();
    Answer::Give(place as u32, lists.distance(place))
}

// What the rule says, by the least keys that the scan found.
fn choose(lists: &Lists<'_>, s: Scan) -> Answer
    requires { Accepting lists.now s }
    ensures { result ≡ answer_of (held lists.now) }
{
    match (s.waiting(), s.asked()) {
        (None, None) => Answer::Done,
        (Some(w), None) => ask(lists, w),
        (None, Some(a)) => give(lists, a),
        (Some(w), Some(a)) => {
            if w.key < a.key {
                ask(lists, w)
            } else {
                give(lists, a)
            }
        }
    }
}

// The answer for lists that are not refused, and the count of marks 1 and 2.
#[derive(Clone, Copy)]
struct Ruling {
    answer: Answer,
    count: u32,
}

// The refusals 4 and 5, or what the rule says.
fn rule_on(lists: &Lists<'_>) -> Result<Ruling, Refusal>
    ensures { Ruled lists.now result }
{
    let s = lists.scan();
    if 0 < s.missing {
        return Err(Refusal::Missing);
    }
    if 0 < s.bad {
        return Err(Refusal::BadValue);
    }
    Ok(Ruling {
        answer: choose(lists, s),
        count: s.count,
    })
}

// A Give marks its place as given.
fn mark_given(marks: &mut [u8], answer: Answer)
    requires { Inside (length marks.old) answer }
    ensures { marks.new ≡ answer_marks answer marks.old }
{
    if let Answer::Give(place, _) = answer {
        marks[place as usize] = words::GIVEN;
    }
}

// The four numbers of next's out.
fn put_four(out: &mut [u8], number: u32, place: u32, distance: f32, count: u32)
    requires { length out.old ≡ 16 }
    ensures { out.new ≡ bytes_of 4 number ++ bytes_of 4 place ++ float_bytes distance ++ bytes_of 4 count }
{
    words::put_u32(out, 0, number);
    words::put_u32(out, 4, place);
    words::put_f32(out, 8, distance);
    words::put_u32(out, 12, count);
}

#[tactic(auto, using(crate::proofs::CallLaws::ask_bytes, crate::proofs::CallLaws::give_bytes, crate::proofs::CallLaws::done_bytes))]
fn put_answer(out: &mut [u8], a: Answer, count: u32)
    requires { length out.old ≡ 16 }
    ensures { out.new ≡ answer_bytes a count }
{
    match a {
        Answer::Ask(p) => put_four(out, ASK, p, 0.0, count),
        Answer::Give(p, d) => put_four(out, GIVE, p, d, count),
        Answer::Done => put_four(out, DONE, 0, 0.0, count),
    }
}

// The next answer, written to out. A Give marks its place as given; nothing else is changed.
#[tactic(auto, unfolding(crate::specs::Calls::next_answer, crate::specs::Calls::next_number, words::specs::Refusals::after))]
pub fn next(
    estimates: &[u8],
    distances: &[u8],
    marks: &mut [u8],
    out: &mut [u8],
) -> Result<(), Refusal>
    ensures { (status result, marks.new, out.new)
        ≡ next_answer estimates.now distances.now marks.old out.old }
{
    let lists = Lists::judged(estimates, distances, marks)?;
    has_length(out, 16)?;
    let ruling = rule_on(&lists)?;
    mark_given(marks, ruling.answer);
    put_answer(out, ruling.answer, ruling.count);
    Ok(())
}

// The distance of the place that is now asked for is stored, and the place marked as asked. out is the count.
#[tactic(auto, unfolding(crate::specs::Calls::supply_answer, crate::specs::Calls::supply_number, words::specs::Refusals::after))]
pub fn supply(
    estimates: &[u8],
    distances: &mut [u8],
    marks: &mut [u8],
    place: u32,
    distance: f32,
    out: &mut [u8],
) -> Result<(), Refusal>
    ensures { (status result, distances.new, marks.new, out.new)
        ≡ supply_answer estimates.now distances.old marks.old place distance out.old }
{
    let lists = Lists::judged(estimates, distances, marks)?;
    has_length(out, 4)?;
    if distance.is_nan() {
        return Err(Refusal::Missing);
    }
    let ruling = rule_on(&lists)?;
    if !ruling.answer.asks_for(place) {
        return Err(Refusal::NotAsked);
    }
    let at = place as usize;
    words::put_f32(distances, 4 * at, distance);
    marks[at] = words::ASKED;
    words::put_number(out, ruling.count + 1);
    Ok(())
}
