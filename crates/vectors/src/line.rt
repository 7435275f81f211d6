// A line of the list: its parts, and the call that it describes.
ghost use Rattle.std.specs.Prelude.{◌<◌, ◌≤◌, length, IfSome, IfOk};

use crate::calls::Call;
use std::alloc::{AllocError, AllocFailed, Global};
use std::error::Error;
use std::fmt;

// The bytes of the longest buffer, and its characters: two digits for each byte, between brackets.
const MOST_BYTES: usize = 40_000;

const MOST_CHARACTERS: usize = 2 * MOST_BYTES + 2;

// Why a line doesn't agree.
#[derive(Clone, Copy, Debug, PartialEq, Eq)]
pub enum Wrong {
    Number,
    Bytes,
    Form,
    TooLong,
    NoMemory,
}

impl fmt::Display for Wrong {
    fn fmt<W: fmt::Write>(&self, f: &mut fmt::Formatter<W>) -> fmt::Result {
        f.write_str(match self {
            Wrong::Number => "the number differs",
            Wrong::Bytes => "the bytes differ",
            Wrong::Form => "no such call, or parameters that it doesn't have",
            Wrong::TooLong => "a buffer of more than 40,000 bytes",
            Wrong::NoMemory => "no memory for its buffers",
        })
    }
}

impl Error for Wrong {}

impl From<AllocError> for Wrong {
    fn from(_e: AllocError) -> Wrong {
        Wrong::NoMemory
    }
}

impl<T: Drop> From<AllocFailed<T>> for Wrong {
    fn from(_e: AllocFailed<T>) -> Wrong {
        Wrong::NoMemory
    }
}

// The call's name: all up to the first space.
pub fn name(line: &[u8]) -> &[u8] {
    line.split(|c| *c == b' ').next().unwrap_or(line)
}

// The value of a digit, of either base. Capitals are none: `to_digit` would take them.
fn digit(c: u8) -> Option<u8>
    ensures { IfSome result (λ d. d < 16) }
{
    match c {
        b'0'..=b'9' => Some(c - b'0'),
        b'a'..=b'f' => Some(c - b'a' + 10),
        _ => None,
    }
}

// The number whose digits stand at the start, up to what is no digit, and the largest where it is larger.
fn number(part: &[u8]) -> u32 {
    let (digits, base) = match part.strip_prefix(b"0x") {
        Some(digits) => (digits, 16),
        None => (part, 10),
    };
    digits.iter().map_while(|c| digit(*c)).fold(
        0u32,
        |n, d| n.saturating_mul(base).saturating_add(u32::from(d)),
    )
}

// The byte of two digits. What is no digit counts as 16.
fn byte_of(two: &[u8]) -> u8 {
    let value = |k: usize| two.get(k).and_then(|c| digit(*c)).unwrap_or(16);
    value(0).wrapping_mul(16).wrapping_add(value(1))
}

// The bytes whose digits stand at the start, up to the closing bracket, and no more than the longest buffer has. They are counted first, so
// that they take no more room than they need.
fn buffer(alloc: Global, digits: &[u8]) -> Result<Vec<u8>, AllocError>
    ensures { IfOk result (λ bytes. length bytes.items ≤ MOST_BYTES) }
{
    let n = digits
        .chunks(2)
        .take_while(|two| !two.starts_with(b"]"))
        .take(MOST_BYTES)
        .count();
    digits
        .chunks(2)
        .take(n)
        .map(|two| byte_of(two))
        .collect(alloc)
}

// Whether the line has n parts whose first byte is one from low to high, and no more. A part stands after a space.
fn has(line: &[u8], low: u8, high: u8, n: usize) -> bool
    requires { n ≤ 10 }
{
    let parts = line
        .windows(2)
        .filter(|two| matches!(two, [b' ', c] if low <= *c && *c <= high));
    parts.take(n + 1).count() == n
}

// Whether the line has one =, as many numbers and buffers as its call takes, the number that it returns, and the buffers that it writes.
// They are counted before any is read, so that a line that has others takes no memory.
fn well_formed(call: Call, line: &[u8]) -> bool {
    let (numbers, buffers) = call.takes();
    has(line, b'=', b'=', 1)
        && has(line, b'0', b'9', numbers + 1)
        && has(line, b'[', b'[', buffers + call.written())
}

// The numbers of a line, and what follows each opening bracket.
fn parts(alloc: Global, line: &[u8]) -> Result<(Vec<u32>, Vec<&[u8]>), Wrong> {
    let mut numbers = Vec::new(alloc);
    let mut buffers = Vec::new(alloc);
    for (i, c) in line.iter().enumerate() {
        if *c != b' ' {
            continue;
        }
        match &line[i + 1..] {
            part @ [b'0'..=b'9', ..] => numbers.push(number(part))?,
            [b'[', digits @ ..] => buffers.push(digits)?,
            _ => {}
        }
    }
    Ok((numbers, buffers))
}

// Whether a part of the line is longer than any buffer that there is room for.
fn too_long(line: &[u8]) -> bool {
    line.split(|c| *c == b' ')
        .any(|part| MOST_CHARACTERS < part.len())
}

// Makes the line's call, and compares the number that it returns and the buffers that it writes.
pub fn replay(alloc: Global, call: Call, line: &[u8]) -> Result<(), Wrong> {
    if !well_formed(call, line) {
        return Err(Wrong::Form);
    }
    if too_long(line) {
        return Err(Wrong::TooLong);
    }
    let (mut numbers, digits) = parts(alloc, line)?;
    let wanted = numbers.pop().ok_or(Wrong::Form)?;
    let (_, taken) = call.takes();
    let (given, wanted_bytes) = digits.split_at_checked(taken).ok_or(Wrong::Form)?;
    let mut buffers = Vec::new(alloc);
    for digits in given {
        buffers.push(buffer(alloc, digits)?)?;
    }
    let got = call.make(&numbers, &mut buffers).ok_or(Wrong::Form)?;
    if words::status(got) != wanted {
        return Err(Wrong::Number);
    }
    for (left, digits) in buffers.iter().rev().zip(wanted_bytes.iter().rev()) {
        if *left != buffer(alloc, digits)? {
            return Err(Wrong::Bytes);
        }
    }
    Ok(())
}
