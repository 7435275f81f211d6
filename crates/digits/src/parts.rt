// What other crates of ours call, within what they have tested. The workers have the number of bits as a const parameter:
// LLVM makes a loop of its own for each width, and one proof serves the four. That it is a width's stands in their contracts, since a
// const parameter carries no fact.
ghost use Rattle.std.specs.Prelude.{◌≡◌, ℕ, List, true, false, ◌+◌, ◌/◌, ◌%◌, ◌≤◌, ◌<◌, length, get_or};
ghost use Rattle.words.specs.Digits.{join};
ghost use Rattle.words.specs.Limits.{most_scalar_dims};
ghost use Rattle.words.specs.Lists.{any_above};
ghost use Rattle.digits.specs.Digits.{bits_of, is_width, levels, top, per_byte, packed_size, digit_at, packed};

use super::Width;
use std::marker::Model;
use words::{Dims, MOST_SCALAR_DIMS, u32_at, u64_at};

// How many bytes dims codes take.
pub fn packed_size(w: Width, dims: Dims<MOST_SCALAR_DIMS>) -> usize
    ensures { (result ≡ packed_size (bits_of w) dims) × (result ≤ most_scalar_dims) }
{
    (dims.get() * w.bits()).div_ceil(8)
}

// Of codes of BITS bits: how many there are, the greatest, and how many stand in a byte. Each is the width's constant: BITS picks it where
// the instance is compiled.
pub fn levels<const BITS: u32>() -> u16
    requires { is_width BITS ≡ true }
    ensures { (result ≡ levels BITS) × (result ≤ 256) }
{
    match BITS {
        1 => Width::LEVELS_1 as u16,
        2 => Width::LEVELS_2 as u16,
        4 => Width::LEVELS_4 as u16,
        _ => Width::LEVELS_8 as u16,
    }
}

pub fn top<const BITS: u32>() -> u8
    requires { is_width BITS ≡ true }
    ensures { result ≡ top BITS }
{
    match BITS {
        1 => Width::TOP_1 as u8,
        2 => Width::TOP_2 as u8,
        4 => Width::TOP_4 as u8,
        _ => Width::TOP_8 as u8,
    }
}

pub fn per_byte<const BITS: u32>() -> usize
    requires { is_width BITS ≡ true }
    ensures { (result ≡ per_byte BITS) × (0 < result) × (result ≤ 8) }
{
    match BITS {
        1 => Width::CODES_PER_BYTE_1,
        2 => Width::CODES_PER_BYTE_2,
        4 => Width::CODES_PER_BYTE_4,
        _ => Width::CODES_PER_BYTE_8,
    }
}

// Digit i of the packed bytes s: the lowest bits of what stands there.
pub fn digit_of<const BITS: u32>(s: &[u8], i: usize) -> u8
    requires { (is_width BITS ≡ true) × (i / per_byte BITS < length s.now) × (i ≤ most_scalar_dims) }
    ensures { (result ≡ digit_at BITS s.now i) × (result < levels BITS) }
{
    let first = i * (BITS as usize);
    (s[first / 8] >> (first % 8)) & top::<BITS>()
}

// The same, of a width. A worker has its own match over the widths, here and in scalar and tables: a closure can't have a const parameter.
#[tactic(auto, unfolding(crate::specs::Digits::is_width))]
pub fn digit(w: Width, s: &[u8], i: usize) -> u8
    requires { (i / per_byte (bits_of w) < length s.now) × (i ≤ most_scalar_dims) }
    ensures { result ≡ digit_at (bits_of w) s.now i }
{
    match w {
        Width::One => digit_of::<1>(s, i),
        Width::Two => digit_of::<2>(s, i),
        Width::Four => digit_of::<4>(s, i),
        Width::Eight => digit_of::<8>(s, i),
    }
}

// The codes, packed.
#[tactic(auto, unfolding(crate::specs::Digits::is_width))]
pub fn pack(w: Width, codes: &[u8], out: &mut [u8])
    requires { (length codes.now ≤ most_scalar_dims) × (length out.old ≡ packed_size (bits_of w) (length codes.now))
        × (any_above (top (bits_of w)) codes.now ≡ false) }
    ensures { out.new ≡ packed (bits_of w) codes.now }
{
    match w {
        Width::One => Codes::<1> { codes }.pack(out),
        Width::Two => Codes::<2> { codes }.pack(out),
        Width::Four => Codes::<4> { codes }.pack(out),
        Width::Eight => Codes::<8> { codes }.pack(out),
    }
}

// Codes of BITS bits, none above the top one. Clauses see the codes.
#[derive(Drop)]
struct Codes<'a, const BITS: u32> {
    codes: &'a [u8],
}

impl<'a, const BITS: u32> Model for Codes<'a, BITS> {
    ghost Value = { List ℕ };

    ghost view = { λ c. c.codes.now };

    ghost invariant = { λ c. (is_width BITS ≡ true) × (any_above (top BITS) c.codes.now ≡ false) };
}

impl<'a, const BITS: u32> Codes<'a, BITS> {
    fn pack(self, out: &mut [u8])
        requires { length out.old ≡ packed_size BITS (length self) }
        ensures { out.new ≡ packed BITS self.entry }
    {
        let n = self.codes.len();
        let per = per_byte::<BITS>();
        let whole = n / per;
        for (k, byte) in out[..whole].iter_mut().enumerate() {
            *byte = self.whole(k * per);
        }
        let at = whole * per;
        if at < n {
            out[whole] = self.some(n - at, at);
        }
    }

    // The codes of a whole byte, from place at on. They are read as one number, with a code in each byte of it, and neighbours are
    // brought together: first codes, then pairs, then fours. A loop over the codes of a byte becomes a load for each of them, at five to
    // ten times the price; and one form for every width, over 64-bit numbers, takes twice as long at two bits (measured in Rust).
    fn whole(&self, at: usize) -> u8
        requires { at + per_byte BITS ≤ length self.now }
        ensures { result ≡ join BITS (per_byte BITS) (λ j. get_or self.now (at + j) 0) }
    {
        match BITS {
            1 => {
                let x = u64_at(self.codes, at);
                let pairs = x + x / 0x80;
                let fours = pairs + pairs / 0x4000;
                ((fours + fours / 0x1000_0000) % 256) as u8
            }
            2 => {
                let x = u32_at(self.codes, at);
                let pairs = x + x / 0x40;
                ((pairs + pairs / 0x1000) % 256) as u8
            }
            4 => {
                let p = &self.codes[at..at + 2];
                let x = u16::from_le_bytes([p[0], p[1]]);
                ((x + x / 0x10) % 256) as u8
            }
            _ => self.codes[at],
        }
    }

    // n codes from place at on, in one byte.
    fn some(&self, n: usize, at: usize) -> u8
        requires { (n ≤ per_byte BITS) × (at + n ≤ length self.now) }
        ensures { result ≡ join BITS n (λ j. get_or self.now (at + j) 0) }
    {
        let mut byte = 0u8;
        for (j, code) in self.codes[at..at + n].iter().enumerate() {
            byte += *code << (BITS * (j as u32));
        }
        byte
    }
}
