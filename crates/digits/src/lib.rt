// Module 1: codes of 1, 2, 4 or 8 bits in bytes.
#![tactic(auto)]

ghost use Rattle.std.specs.Prelude.{◌≡◌, ◌≤◌};
ghost use Rattle.words.specs.Refusals.{status};
ghost use Rattle.digits.specs.Found.{WidthOf};
ghost use Rattle.digits.specs.Digits.{bits_of, top};
ghost use Rattle.digits.specs.Calls.{size_answer, pack_answer, read_answer};

use words::{Dims, MOST_SCALAR_DIMS, Refusal, has_length};

pub mod parts;

// The width of a code. No other width can be made, so nothing over one has to refuse or to require.
#[derive(Clone, Copy, Debug, PartialEq, Eq, Hash)]
pub enum Width {
    One = 1,
    Two = 2,
    Four = 4,
    Eight = 8,
}

impl TryFrom<u32> for Width {
    type Error = Refusal;

    ghost try_from_gives = { WidthOf };

    // The width of that many bits.
    fn try_from(bits: u32) -> Result<Width, Refusal> {
        match bits {
            1 => Ok(Width::one()),
            2 => Ok(Width::two()),
            4 => Ok(Width::four()),
            8 => Ok(Width::eight()),
            _ => Err(Refusal::BadWidth),
        }
    }
}

impl Width {
    // One for each width: the constants and constructors that the paper names.
    pub const LEVELS_1: u32 = 2;

    pub const LEVELS_2: u32 = 4;

    pub const LEVELS_4: u32 = 16;

    pub const LEVELS_8: u32 = 256;

    pub const TOP_1: u32 = Width::LEVELS_1 - 1;

    pub const TOP_2: u32 = Width::LEVELS_2 - 1;

    pub const TOP_4: u32 = Width::LEVELS_4 - 1;

    pub const TOP_8: u32 = Width::LEVELS_8 - 1;

    pub const CODES_PER_BYTE_1: usize = 8;

    pub const CODES_PER_BYTE_2: usize = 4;

    pub const CODES_PER_BYTE_4: usize = 2;

    pub const CODES_PER_BYTE_8: usize = 1;

    pub fn one() -> Width
        ensures { result ≡ Width.One }
    {
        Width::One
    }

    pub fn two() -> Width
        ensures { result ≡ Width.Two }
    {
        Width::Two
    }

    pub fn four() -> Width
        ensures { result ≡ Width.Four }
    {
        Width::Four
    }

    pub fn eight() -> Width
        ensures { result ≡ Width.Eight }
    {
        Width::Eight
    }

    // How many bits a code has.
    pub fn bits(self) -> usize
        ensures { (result ≡ bits_of self) × (result ≤ 8) }
    {
        self as usize
    }

    pub fn top(self) -> u32
        ensures { result ≡ top (bits_of self) }
    {
        match self {
            Width::One => Width::TOP_1,
            Width::Two => Width::TOP_2,
            Width::Four => Width::TOP_4,
            Width::Eight => Width::TOP_8,
        }
    }
}

// How many bytes dims codes take.
#[tactic(auto, unfolding(crate::specs::Calls::size_answer, crate::specs::Calls::size_number, words::specs::Refusals::answer, words::specs::Refusals::after))]
pub fn digits_size(dims: u32, bits: u32, out: &mut [u8]) -> Result<(), Refusal>
    ensures { (status result, out.new) ≡ size_answer dims bits out.old }
{
    let dims = Dims::<MOST_SCALAR_DIMS>::try_from(dims)?;
    let w = Width::try_from(bits)?;
    has_length(out, 4)?;
    words::put_number(out, parts::packed_size(w, dims) as u32);
    Ok(())
}

// The codes, 8 / bits of them to a byte.
#[tactic(auto, unfolding(crate::specs::Calls::pack_answer, crate::specs::Calls::pack_number, words::specs::Refusals::answer, words::specs::Refusals::after))]
pub fn digits_pack(dims: u32, bits: u32, codes: &[u8], packed: &mut [u8]) -> Result<(), Refusal>
    ensures { (status result, packed.new) ≡ pack_answer dims bits codes.now packed.old }
{
    let dims = Dims::<MOST_SCALAR_DIMS>::try_from(dims)?;
    let w = Width::try_from(bits)?;
    has_length(codes, dims.get())?;
    has_length(packed, parts::packed_size(w, dims))?;
    if words::any_above(w.top(), codes) {
        return Err(Refusal::BadValue);
    }
    parts::pack(w, codes, packed);
    Ok(())
}

// Code index of packed bytes.
#[tactic(auto, unfolding(crate::specs::Calls::read_answer, crate::specs::Calls::read_number, words::specs::Refusals::answer, words::specs::Refusals::after))]
pub fn digits_read(
    dims: u32,
    bits: u32,
    packed: &[u8],
    index: u32,
    out: &mut [u8],
) -> Result<(), Refusal>
    ensures { (status result, out.new) ≡ read_answer dims bits packed.now index out.old }
{
    let dims = Dims::<MOST_SCALAR_DIMS>::try_from(dims)?;
    let w = Width::try_from(bits)?;
    has_length(packed, parts::packed_size(w, dims))?;
    has_length(out, 4)?;
    let i = index as usize;
    if dims.get() <= i {
        return Err(Refusal::OutOfRange);
    }
    words::put_number(out, u32::from(parts::digit(w, packed, i)));
    Ok(())
}
