// A query's table (`preprocess` of scalar.rs), within what the calls have tested.
// A const parameter carries no fact, so that BITS is a width's stands in the contracts.
ghost use Rattle.std.specs.Prelude.{◌≡◌, true, ◌+◌, ◌*◌, ◌≤◌, length};
ghost use Rattle.std.proofs.lemmas.List.Edits.{sets};
ghost use Rattle.words.specs.Bytes.{floats_of};
ghost use Rattle.words.specs.Limits.{most_scalar_dims};
ghost use Rattle.digits.specs.Digits.{bits_of, is_width, levels};
ghost use Rattle.scalar.specs.Table.{apart, entry_of, table_bytes, table_size};

use digits::Width;
use digits::parts::{levels, top};
use scalar::parts::code::del_of;
use scalar::parts::vectors::Vectors;
use words::Metric;

// How many bytes a table takes. The dims of this and of `sum` are a plain number: they may be 0, which Dims excludes.
pub fn table_size(w: Width, dims: usize) -> usize
    requires { dims ≤ most_scalar_dims }
    ensures { result ≡ table_size (bits_of w) dims }
{
    4 * (dims << w.bits())
}

// What two numbers add to a distance.
fn apart_by(m: Metric, x: f32, y: f32) -> f32
    ensures { result ≡ apart m x y }
{
    match m {
        Metric::L2 => (x - y) * (x - y),
        Metric::Dot => x * y,
    }
}

// The entries of a dimension, from place at of the table on.
fn put_row(m: Metric, n: u16, x: f32, lo: f32, del: f32, out: &mut [u8], at: usize)
    requires { (n ≤ 256) × (at + 4 * n ≤ length out.old) }
    ensures { out.new ≡ sets out.old at (floats_of n (entry_of m x lo del)) }
{
    for j in 0..n {
        let y = lo + f32::from(j) * del;
        words::put_f32(out, at + 4 * usize::from(j), apart_by(m, x, y));
    }
}

// The rows of all dimensions. By place: over chunks_exact_mut the invariant is over the borrows that the iterator gave out (tried in block).
fn fill_rows<const BITS: u32>(m: Metric, v: Vectors, out: &mut [u8])
    requires { (is_width BITS ≡ true) × (length out.old ≡ table_size BITS v.dims) }
    ensures { out.new ≡ table_bytes m BITS v.entry.dims v.entry.vector v.entry.lo v.entry.hi }
{
    let n = levels::<BITS>();
    for i in 0..v.dims() {
        let (x, lo, hi) = v.at(i);
        put_row(
            m,
            n,
            x,
            lo,
            del_of(top::<BITS>(), lo, hi),
            out,
            4 * (i * usize::from(n)),
        );
    }
}

// The table of a query.
#[tactic(auto, unfolding(digits::specs::Digits::is_width))]
pub fn fill(m: Metric, w: Width, v: Vectors, out: &mut [u8])
    requires { length out.old ≡ table_size (bits_of w) v.dims }
    ensures { out.new ≡ table_bytes m (bits_of w) v.entry.dims v.entry.vector v.entry.lo v.entry.hi }
{
    match w {
        Width::One => fill_rows::<1>(m, v, out),
        Width::Two => fill_rows::<2>(m, v, out),
        Width::Four => fill_rows::<4>(m, v, out),
        Width::Eight => fill_rows::<8>(m, v, out),
    }
}
