// The candidates in order of their exact distances, each of which is read only when it is asked for.
ghost use Rattle.std.specs.Prelude.{◌≤◌, length, IfOk};

use crate::decimal::Decimal;
use crate::fault::Fault;
use crate::lists::Lists;
use arrayvec::ArrayVec;
use lintelkite::Answer;
use std::io::{Seek, SeekFrom};
use std::os::unix::fs::FileExt;
use words::MOST_PLACES;

// A candidate that was given: its place in the lists, and its distance.
#[derive(Clone, Copy, Default)]
struct Given {
    place: u32,
    distance: f32,
}

// The candidates that were given, the best first, and how many distances were read for them.
#[derive(Drop)]
pub struct Ranking {
    given: ArrayVec<Given, MOST_PLACES>,
    read: usize,
}

// The distance that was asked for is read and supplied.
fn supply(file: &impl FileExt, lists: &mut Lists, place: u32) -> Result<(), Fault> {
    let of = lists.record(place);
    let mut four = [0u8; 4];
    file.read_exact_at(&mut four, 4 * of)
        .map_err(|_| Fault::Unread(of))?;
    lists.supply(place, words::f32_at(&four, 0))
}

// Calls the reranker until as many as wanted are given, or all: no more candidates than were asked for.
pub fn rank<F: Seek + FileExt>(
    file: &mut F,
    wanted: usize,
    lists: &mut Lists,
) -> Result<Ranking, Fault>
    ensures { IfOk result (λ r. length r.given.items ≤ wanted) }
{
    let n = lists.len;
    if file.seek(SeekFrom::End(0)).ok() != Some(4 * n as u64) {
        return Err(Fault::Floats);
    }
    let wanted = wanted.min(n);
    let mut given = ArrayVec::new();
    let mut read = 0;
    // a list of n takes n distances and n gives
    for _ in 0..2 * n {
        if given.len() == wanted {
            break;
        }
        match lists.next().map_err(Fault::Lists)? {
            Answer::Ask(place) => {
                supply(file, lists, place)?;
                read += 1;
            }
            Answer::Give(place, distance) => given.push(Given { place, distance }),
            Answer::Done => break,
        }
    }
    Ok(Ranking { given, read })
}

impl Ranking {
    // A write that fails is passed over, and the next line is written.
    pub fn print(&self, rt: &impl Print, lists: &Lists) {
        for (i, one) in self.given.iter().enumerate() {
            let record = lists.record(one.place);
            let distance = Decimal(one.distance);
            let _ = println!(rt; "{}. record {record} at {distance}", i + 1);
        }
        let _ = println!(rt;
            "{} of {} candidates given, {} distances read, {} spared",
            self.given.len(),
            lists.len,
            self.read,
            lists.waiting(),
        );
    }
}
