// The paper's refusals.
ghost use Rattle.std.specs.Prelude.{◌≡◌, ◌≤◌, ◌*◌, OnOk, length};
ghost use Rattle.words.specs.Limits.{most_places};
ghost use Rattle.words.specs.Refusals.{number_of, status, RefusedIf, bad_length, bad_lists};

use crate::MOST_PLACES;
use std::error::Error;
use std::fmt;

// Why a call turns its input away. The numbers are the paper's.
#[derive(Clone, Copy, Debug, PartialEq, Eq, Hash)]
pub enum Refusal {
    BadDims = 1,
    BadWidth = 2,
    BadLength = 3,
    Missing = 4,
    BadValue = 5,
    OutOfRange = 6,
    NoRoom = 7,
    NoEstimate = 8,
    NotAsked = 9,
}

// The paper's names.
impl fmt::Display for Refusal {
    fn fmt<W: fmt::Write>(&self, f: &mut fmt::Formatter<W>) -> fmt::Result {
        f.write_str(match self {
            Refusal::BadDims => "BAD_DIMS",
            Refusal::BadWidth => "BAD_WIDTH",
            Refusal::BadLength => "BAD_LENGTH",
            Refusal::Missing => "MISSING",
            Refusal::BadValue => "BAD_VALUE",
            Refusal::OutOfRange => "OUT_OF_RANGE",
            Refusal::NoRoom => "NO_ROOM",
            Refusal::NoEstimate => "NO_ESTIMATE",
            Refusal::NotAsked => "NOT_ASKED",
        })
    }
}

impl Error for Refusal {}

impl From<Refusal> for u32 {
    ghost from_gives = { λ e n. n ≡ number_of e };

    fn from(e: Refusal) -> u32 {
        e as u32
    }
}

// What a caller from C gets: 0, or the refusal's number.
pub fn status(answer: Result<(), Refusal>) -> u32
    ensures { result ≡ status answer }
{
    match answer {
        Ok(()) => 0,
        Err(e) => u32::from(e),
    }
}

// Refuses a buffer that isn't of n bytes.
pub fn has_length(s: &[u8], n: usize) -> Result<(), Refusal>
    ensures refused { RefusedIf (bad_length s.now n) Refusal.BadLength result }
    ensures length { OnOk result (length s.now ≡ n) }
{
    if s.len() == n {
        Ok(())
    } else {
        Err(Refusal::BadLength)
    }
}

// Refuses lists of candidates that have not one number of places, or more than the most. a and b are of four bytes for each place.
#[tactic(auto, unfolding(crate::specs::Refusals::bad_lists))]
pub fn has_lists(a: &[u8], b: &[u8], marks: &[u8]) -> Result<(), Refusal>
    ensures refused { RefusedIf (bad_lists (length a.now) (length b.now) (length marks.now)) Refusal.BadLength result }
    ensures lengths { OnOk result ((length marks.now ≤ most_places) × (length a.now ≡ 4 * length marks.now) × (length b.now ≡ 4 * length marks.now)) }
{
    if MOST_PLACES < marks.len() {
        return Err(Refusal::BadLength);
    }
    let size = 4 * marks.len();
    if a.len() != size || b.len() != size {
        return Err(Refusal::BadLength);
    }
    Ok(())
}
