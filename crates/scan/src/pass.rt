// The pass over the lists, and the search for a place that it found the key of.
ghost use Rattle.std.specs.Prelude.{◌≡◌, cond, ◌+◌, ◌*◌, ◌<◌, ◌≤◌, min, eqb, ltb, length, Some, None, IfSome};
ghost use Rattle.words.specs.Limits.{most_places};
ghost use Rattle.scan.specs.Lists.{Sized};
ghost use Rattle.scan.specs.Parts.{key_of, key_if, key_at, waiting_key, asked_key, nan_one, lacks};
ghost use Rattle.scan.specs.Parts.{KeysTo, CountsOf, ScanTo, FirstAt, stretch_places, no_key};

use crate::lists::Lists;

// Stands for no key in the pass: it is above every key of a number. With an Option for each key the loop over the places takes 2.5 times
// as long (4,096 places, the loop alone, in Rust).
pub const NO_KEY: u32 = 0xFFFF_FFFF;

// The places of a stretch: so few that their counts fit a byte.
const STRETCH: usize = 128;

// A number for a float's bits, in the order of the floats.
fn key(u: u32) -> u32
    ensures { result ≡ key_of u }
{
    if u < 0x8000_0000 {
        u + 0x8000_0000
    } else {
        0x8000_0000 - (u - 0x8000_0000)
    }
}

// The key of a place, where it has the mark. This and nan_if are functions of their own: written out in `Keys::with`, a branch stands in
// the loop over it, which then goes place by place (12.5 in place of 5.7 microseconds for a call of 4,096 places).
fn key_if(marked: bool, u: u32) -> u32
    ensures { result ≡ key_if marked u }
{
    if marked { key(u) } else { NO_KEY }
}

// 1 where the place has the mark and the bits are a NaN's, else 0. A number, as words::nan_one gives: it is added up without a branch.
fn nan_if(marked: bool, u: u32) -> u32
    ensures { (result ≡ cond marked (nan_one u) 0) × (result ≤ 1) }
{
    if marked { words::nan_one(u) } else { 0 }
}

// How many NaNs there are, and the least keys of a waiting place and of an asked one.
#[derive(Clone, Copy)]
pub struct Keys {
    pub missing: u32,
    pub waiting: u32,
    pub asked: u32,
}

impl Keys {
    // One place more. It adds and picks without a branch, so that the loop over it goes by vectors.
    #[tactic(auto, unfolding(crate::specs::Parts::lacks))]
    fn with(self, mark: u8, estimate: u32, distance: u32) -> Keys
        requires { self.missing ≤ 2 * most_places }
        ensures missing { result.missing ≡ self.missing + lacks mark estimate distance }
        ensures waiting { result.waiting ≡ min self.waiting (key_if (eqb mark 0) estimate) }
        ensures asked { result.asked ≡ min self.asked (key_if (eqb mark 1) distance) }
    {
        let waiting = key_if(mark == words::WAITING, estimate);
        let asked = key_if(mark == words::ASKED, distance);
        Keys {
            missing: self.missing
                + words::nan_one(estimate)
                + nan_if(mark == words::ASKED, distance),
            waiting: self.waiting.min(waiting),
            asked: self.asked.min(asked),
        }
    }
}

// How many marks are above the greatest, and how many are not 0. In bytes: so the loop that counts them goes by vectors of 16.
#[derive(Clone, Copy)]
struct Counts {
    bad: u8,
    count: u8,
}

// The least key of the places with one mark, and where the stretch starts that it first stands in.
#[derive(Clone, Copy)]
pub struct Least {
    pub key: u32,
    pub from: usize,
}

impl Least {
    // With the least key of one stretch more, which takes over only where it is lesser.
    fn with(self, key: u32, from: usize) -> Least
        ensures key { key ≤ self.key → result.key ≡ key }
        ensures from { result.from ≡ cond (ltb key self.key) from self.from }
    {
        if key < self.key {
            Least { key, from }
        } else {
            self
        }
    }

    // None where no place has a key.
    fn found(self) -> Option<Least>
        ensures { result ≡ cond (eqb self.key no_key) None (Some self) }
    {
        if self.key == NO_KEY { None } else { Some(self) }
    }
}

// What one pass over the lists finds: how many NaNs, bad marks and places that do not wait, and the least keys.
#[derive(Clone, Copy)]
pub struct Scan {
    pub missing: u32,
    pub bad: u32,
    pub count: u32,
    waiting: Least,
    asked: Least,
}

impl Scan {
    // The least estimate of a waiting place.
    pub fn waiting(self) -> Option<Least>
        ensures { result ≡ cond (eqb self.waiting.key no_key) None (Some self.waiting) }
    {
        self.waiting.found()
    }

    // The least distance of an asked place.
    pub fn asked(self) -> Option<Least>
        ensures { result ≡ cond (eqb self.asked.key no_key) None (Some self.asked) }
    {
        self.asked.found()
    }
}

impl<'a> Lists<'a> {
    // The marks from `from` up to `to`, which are at most a stretch. By index, as in add_keys, so that the two loops of a stretch read alike.
    fn count_marks(&self, from: usize, to: usize) -> Counts
        requires { (from ≤ to) × (to ≤ from + stretch_places) × (to ≤ length self.now.marks) }
        ensures { CountsOf self.now.marks from to result.bad result.count }
    {
        let mut bad = 0u8;
        let mut count = 0u8;
        for i in from..to {
            let mark = self.marks[i];
            bad += u8::from(words::MOST_MARK < mark);
            count += u8::from(mark != words::WAITING);
        }
        Counts { bad, count }
    }

    // The keys with those of the places from `from` up to `to`. The caller lends three lists side by side: a zip of three chunks is no plainer.
    fn add_keys(&self, start: Keys, from: usize, to: usize) -> Keys
        requires from_le_to { (from ≤ to) × (to ≤ length self.now.marks) }
        requires keys_to { KeysTo self.now from start }
        ensures { KeysTo self.now to result }
    {
        let mut keys = start;
        for i in from..to {
            let estimate = words::u32_at(self.estimates, 4 * i);
            let distance = words::u32_at(self.distances, 4 * i);
            keys = keys.with(self.marks[i], estimate, distance);
        }
        keys
    }

    // The scan with one stretch more, which starts at `from`.
    fn add_stretch(&self, s: Scan, from: usize) -> Scan
        requires { (from < length self.now.marks) × ScanTo self.now from s }
        ensures { ScanTo self.now (min (length self.now.marks) (from + stretch_places)) result }
    {
        let to = self.marks.len().min(from + STRETCH);
        let counts = self.count_marks(from, to);
        let start = Keys {
            missing: s.missing,
            waiting: s.waiting.key,
            asked: s.asked.key,
        };
        let keys = self.add_keys(start, from, to);
        Scan {
            missing: keys.missing,
            bad: s.bad + u32::from(counts.bad),
            count: s.count + u32::from(counts.count),
            waiting: s.waiting.with(keys.waiting, from),
            asked: s.asked.with(keys.asked, from),
        }
    }

    // One pass over the lists.
    pub fn scan(&self) -> Scan
        ensures scanned { ScanTo self.now (length self.now.marks) result }
        ensures sized { Sized self.now }
    {
        let none = Least {
            key: NO_KEY,
            from: 0,
        };
        let mut s = Scan {
            missing: 0,
            bad: 0,
            count: 0,
            waiting: none,
            asked: none,
        };
        for from in (0..self.marks.len()).step_by(STRETCH) {
            s = self.add_stretch(s, from);
        }
        s
    }

    // The first waiting place with this key, from where its stretch starts on.
    pub fn first_waiting(&self, least: Least) -> Option<usize>
        ensures first { FirstAt (waiting_key self.now) least.from (length self.now.marks) least.key result }
        ensures small { IfSome result (λ p. p < most_places) }
    {
        first_at(self.estimates, self.marks, words::WAITING, least)
    }

    // The first asked place with this key, from where its stretch starts on.
    pub fn first_asked(&self, least: Least) -> Option<usize>
        ensures first { FirstAt (asked_key self.now) least.from (length self.now.marks) least.key result }
        ensures small { IfSome result (λ p. p < most_places) }
    {
        first_at(self.distances, self.marks, words::ASKED, least)
    }
}

// The first place with the mark and the key. A loop and no `find`: its closure would have to state what it tells of a place, and how its
// captures bound it.
pub fn first_at(list: &[u8], marks: &[u8], mark: u8, least: Least) -> Option<usize>
    requires { length list.now ≡ 4 * length marks.now }
    ensures { FirstAt (key_at mark list.now marks.now) least.from (length marks.now) least.key result }
{
    for i in least.from..marks.len() {
        if key_if(marks[i] == mark, words::u32_at(list, 4 * i)) == least.key {
            return Some(i);
        }
    }
    None
}
