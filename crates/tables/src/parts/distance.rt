// The distance of a code by a query's table (`process` of scalar.rs), within what the calls have tested.
// A const parameter carries no fact, so that BITS is a width's stands in the contracts.
ghost use Rattle.std.specs.Prelude.{◌≡◌, true, ◌≤◌, length};
ghost use Rattle.words.specs.Floats.{added_to};
ghost use Rattle.words.specs.Limits.{most_scalar_dims};
ghost use Rattle.digits.specs.Digits.{bits_of, is_width, levels, packed_size};
ghost use Rattle.scalar.specs.Table.{table_size, term_at, sum_of, distance_of};

use digits::Width;
use digits::parts::{digit_of, levels};
use words::Metric;

// s with the table entries at the first n digits of code added, one after the other.
// By index: the table goes on by rows, the code by bits.
fn add_terms<const BITS: u32>(n: usize, s: f32, table: &[u8], code: &[u8]) -> f32
    requires { (is_width BITS ≡ true) × (n ≤ most_scalar_dims) × (table_size BITS n ≤ length table.now) × (packed_size BITS n ≤ length code.now) }
    ensures { result ≡ added_to s n (term_at BITS table.now code.now) }
{
    let row = usize::from(levels::<BITS>());
    let mut sum = s;
    for i in 0..n {
        let digit = digit_of::<BITS>(code, i);
        sum += words::f32_at(table, i * row + usize::from(digit));
    }
    sum
}

// The table entries at the code's digits, added from the left. Eight dimensions, whose digits are whole bytes, are added at a time:
// LLVM knows the places of their digits, and a loop over single ones takes up to three quarters longer.
// By index: the table and the code go on by different steps, and what is left over at the end is read on from the same places.
fn sum_bits<const BITS: u32>(dims: usize, table: &[u8], code: &[u8]) -> f32
    requires { (is_width BITS ≡ true) × (dims ≤ most_scalar_dims) × (length table.now ≡ table_size BITS dims)
        × (length code.now ≡ packed_size BITS dims) }
    ensures { result ≡ sum_of BITS dims table.now code.now }
{
    let rows = 4 * (8 * usize::from(levels::<BITS>()));
    let bytes = BITS as usize;
    let whole = dims / 8;
    let mut s: f32 = 0.0;
    for k in 0..whole {
        s = add_terms::<BITS>(8, s, &table[k * rows..], &code[k * bytes..]);
    }
    add_terms::<BITS>(dims % 8, s, &table[whole * rows..], &code[whole * bytes..])
}

#[tactic(auto, unfolding(digits::specs::Digits::is_width))]
pub fn sum(w: Width, dims: usize, table: &[u8], code: &[u8]) -> f32
    requires { (dims ≤ most_scalar_dims) × (length table.now ≡ table_size (bits_of w) dims) × (length code.now ≡ packed_size (bits_of w) dims) }
    ensures { result ≡ sum_of (bits_of w) dims table.now code.now }
{
    match w {
        Width::One => sum_bits::<1>(dims, table, code),
        Width::Two => sum_bits::<2>(dims, table, code),
        Width::Four => sum_bits::<4>(dims, table, code),
        Width::Eight => sum_bits::<8>(dims, table, code),
    }
}

// The distance that a sum stands for.
pub fn distance(m: Metric, s: f32) -> f32
    ensures { result ≡ distance_of m s }
{
    match m {
        Metric::L2 => s,
        Metric::Dot => -s,
    }
}
