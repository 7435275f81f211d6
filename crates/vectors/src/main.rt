// Replays a list of answers and compares. Its argument names the list: one call to a line, blank lines and lines that begin with # aside.
//
//     digits_pack 3 4 [010203] [eeee] = 0 [2103]
//
// A line has the call's name in include/lintelkite.h without lk_; its parameters in the header's order; =; the number that it
// returns; and the buffers that it writes, as it leaves them. A number is decimal, or hexadecimal after 0x; a float is its bits. A
// buffer is its bytes in hexadecimal between brackets, at most 40,000; one that is written stands among the parameters with what it
// held before.
#![tactic(auto)]

use calls::{CALLS, Call};
use line::Wrong;
use std::alloc::Global;
use std::collections::BTreeMap;
use std::fs::File;
use std::io;
use std::io::Read;
use std::rt::{Env, Files};

mod calls;
mod line;

const MOST_TEXT: usize = 262_144;

// The bytes that a path may have, with one to spare: an argument is read into a buffer that is lent.
const MOST_PATH: usize = 4096;

// How many lines have a call, and how many of them agree.
#[derive(Clone, Copy, Default)]
struct Tally {
    seen: u64,
    agreed: u64,
}

impl Tally {
    fn count(&mut self, agrees: bool) {
        self.seen = self.seen.saturating_add(1);
        self.agreed = self.agreed.saturating_add(u64::from(agrees));
    }
}

// One line: its call is counted, and counted as agreeing if it does.
fn replay(alloc: Global, line: &[u8], tallies: &mut BTreeMap<Call, Tally>) -> Result<(), Wrong> {
    let call = Call::named(line::name(line)).ok_or(Wrong::Form)?;
    let answer = line::replay(alloc, call, line);
    tallies.entry(call)?.or_default().count(answer.is_ok());
    answer
}

fn replay_all(rt: &(impl Print + AllocGlobal), text: &[u8]) -> io::Result<()> {
    let mut tallies = BTreeMap::new(rt.alloc());
    for (at, line) in (1u64..).zip(text.split(|c| *c == b'\n')) {
        if line.is_empty() || line.starts_with(b"#") {
            continue;
        }
        if let Err(wrong) = replay(rt.alloc(), line, &mut tallies) {
            println!(rt; "line {at}: {wrong}")?;
        }
    }
    for (name, call) in CALLS {
        let Tally { seen, agreed } = tallies.get(&call).copied().unwrap_or_default();
        println!(rt; "{name}: {agreed} of {seen} agree")?;
    }
    Ok(())
}

// The file of that path, if it is text and the file can be opened.
fn opened<R: Files>(rt: &R, path: &[u8]) -> Option<R::File> {
    let text = std::str::from_utf8(path).ok()?;
    File::open(rt, text).ok()
}

fn main(rt: HostRuntime) -> io::Result<()> {
    let mut path = [0u8; MOST_PATH];
    let Ok(n) = rt.arg(1, &mut path) else {
        return println!(rt; "usage: vectors LIST");
    };
    let Some(file) = opened(&rt, &path[..n]) else {
        return println!(rt; "the list can't be opened");
    };
    let mut text = Vec::new(rt.alloc());
    file.take(MOST_TEXT as u64).read_to_end(&mut text)?;
    if text.len() == MOST_TEXT {
        return println!(rt; "the list is too long");
    }
    replay_all(&rt, &text)
}
