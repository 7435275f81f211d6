// The workers, over plain codes and words: the planes of a query, and the sum of a single code by their counts of ones. `Planes` keeps the
// two together for callers that have a judged query; these serve an empty one too, and `binarize` codes of any size.
ghost use Rattle.std.specs.Prelude.{◌≡◌, ℕ, ◌+◌, ◌*◌, ◌<◌, ◌≤◌, length, get_or};
ghost use Rattle.std.specs.Int.Bits.{bit_and};
ghost use Rattle.std.specs.Int.Count.{ones};
ghost use Rattle.words.specs.Bytes.{num_at};
ghost use Rattle.words.specs.Digits.{bit, join};
ghost use Rattle.words.specs.Limits.{most_dims, most_sum};
ghost use Rattle.words.specs.Sums.{sum_to};
ghost use Rattle.code.specs.Code.{code_words, code_size, code_bit, words_bit};
ghost use Rattle.sums.specs.Sums.{plain_sum, plane_word, QueryCodes};
ghost use Rattle.planes.specs.Parts.{IsPlane, Planes};

use code::parts::reader::words_of;
use words::{u32_at, u64_at};

// How many words the planes of a query have at most.
pub use crate::planes::PLANE_WORDS as PLANES;

// The planes of a query, in a buffer of their size or a longer one. The Rust's `binarize`. Written out: a loop over p would find its plane
// by a product of two variables, whose bounds are longer to state than four lines. This and the next three take plain codes, of which
// `digits` gets a part; what is said of them and of p is all that the shift and the places need.
pub fn binarize(q: &[u8], t: &mut [u64])
    requires { (length q.now ≤ most_dims) × (4 * code_words (length q.now) ≤ length t.old) }
    ensures { Planes q.now t.new }
{
    let n = q.len().div_ceil(64);
    fill_plane(q, 0, &mut t[0..n]);
    fill_plane(q, 1, &mut t[n..2 * n]);
    fill_plane(q, 2, &mut t[2 * n..3 * n]);
    fill_plane(q, 3, &mut t[3 * n..4 * n]);
}

// Plane p of a query.
fn fill_plane(q: &[u8], p: u32, plane: &mut [u64])
    requires { (p < 4) × (length q.now ≤ most_dims) × (length plane.old ≡ code_words (length q.now)) }
    ensures { IsPlane q.now p plane.new }
{
    for (w, word) in plane.iter_mut().enumerate() {
        *word = plane_word(q, p, w);
    }
}

// Word w of plane p.
fn plane_word(q: &[u8], p: u32, w: usize) -> u64
    requires { (p < 4) × (length q.now ≤ most_dims) × (w < code_words (length q.now)) }
    ensures { result ≡ plane_word q.now p w }
{
    let mut d = [0u8; 64];
    let at = 64 * w;
    let end = (at + 64).min(q.len());
    digits(&q[at..end], p, &mut d);
    word(&d)
}

// Digit p of each of at most 64 codes, over zeros.
fn digits(q: &[u8], p: u32, d: &mut [u8; 64])
    requires { (p < 4) × (length q.now ≤ 64) × ((i : ℕ) → get_or d.old i 0 ≡ 0) }
    ensures { (i : ℕ) → get_or d.new i 0 ≡ bit (get_or q.now i 0) p }
{
    for (i, code) in q.iter().enumerate() {
        d[i] = (*code >> p) % 2;
    }
}

// Sixteen times four digits as one word.
fn word(d: &[u8; 64]) -> u64
    requires { (i : ℕ) → get_or d.now i 0 < 2 }
    ensures { result ≡ join 1 64 (λ i. get_or d.now i 0) }
{
    let mut r = 0u64;
    // by k, which the shift needs also where the digits come in chunks of four
    for k in 0..16 {
        r += nibble(d, k) << (4 * k);
    }
    r
}

// Four digits that stand in a byte each, as one number. The product has digit j of byte k at 8k + 7j, no two at one place, and from
// place 21 on the four whose j and k add up to 3.
fn nibble(d: &[u8; 64], k: usize) -> u64
    requires { (k < 16) × ((i : ℕ) → get_or d.now i 0 < 2) }
    ensures { (result ≡ join 1 4 (λ j. get_or d.now (4 * k + j) 0)) × (result < 16) }
{
    u64::from(u32_at(d, 4 * k)) * 0x20_4081 / 0x20_0000 % 16
}

// How many ones the words of a code share with those of a plane.
fn plane_ones(words: &[u8], plane: &[u64]) -> u32
    requires { (length plane.now ≤ code_words most_dims) × (8 * length plane.now ≤ length words.now) }
    ensures { (result ≡ sum_to (length plane.now) (λ w. ones (bit_and (num_at 8 words.now (8 * w)) (get_or plane.now w 0)))) × (result ≤ 64 * length plane.now) }
{
    let mut r = 0u32;
    for (w, p) in plane.iter().enumerate() {
        r += shared(u64_at(words, 8 * w), *p);
    }
    r
}

// How many ones two words share.
fn shared(a: u64, b: u64) -> u32
    ensures { (result ≡ ones (bit_and a b)) × (result ≤ 64) }
{
    (a & b).count_ones()
}

// The sum of a single code, from its word bytes and the query's planes, one pass for each plane. The Rust's function of this name.
pub fn asymmetric_binary_dot_product(q: &[u8], t: &[u64], words: &[u8]) -> u32
    requires { QueryCodes q.now × Planes q.now t.now × (length words.now ≡ 8 * code_words (length q.now)) }
    ensures { (result ≡ plain_sum q.now (words_bit words.now)) × (result ≤ most_sum) }
{
    let n = q.len().div_ceil(64);
    plane_ones(words, &t[0..n])
        + 2 * plane_ones(words, &t[n..2 * n])
        + 4 * plane_ones(words, &t[2 * n..3 * n])
        + 8 * plane_ones(words, &t[3 * n..4 * n])
}

// The planes of a query, in a buffer of their size or a longer one, and the sum of a single code.
#[tactic(auto, using(sums::proofs::PlainLaws::words_sum))]
pub fn code_sum(q: &[u8], code: &[u8], t: &mut [u64]) -> u32
    requires { QueryCodes q.now × (length code.now ≡ code_size (length q.now)) × (4 * code_words (length q.now) ≤ length t.old) }
    ensures { result ≡ plain_sum q.now (code_bit code.now) }
{
    binarize(q, t);
    asymmetric_binary_dot_product(q, t, words_of(code))
}
