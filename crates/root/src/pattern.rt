// The root of a positive number, worked out by whole numbers on its bit pattern.
ghost use Rattle.std.specs.Prelude.{◌≡◌, ◌+◌, ◌*◌, ◌<◌, ◌≤◌, ◌^◌, Some};
ghost use Rattle.std.specs.Float.{binary32};
ghost use Rattle.std.specs.Float.Ieee.{of_bits};
ghost use Rattle.root.specs.Root.{root_of};
ghost use Rattle.root.specs.Parts.{IsParts, IsScaled};

// A positive number as m * 2^e times 2^-298, where m has 24 bits.
#[derive(Drop)]
struct Parts {
    m: u64,
    e: u64,
}

// The same number as n * 4^k times 2^-298, where n has 47 or 48 bits, so its root has 24.
#[derive(Drop)]
struct Scaled {
    n: u64,
    k: u64,
}

// The largest r with r * r <= n. The first guess is the machine's: of an n of 47 or 48 bits the root's 24 leading digits, which are
// its whole part. What makes r the root is the two loops' tests, whatever the machine's rounding mode makes of the guess.
fn isqrt(n: u64) -> u64
    requires { n < 2 ^ 48 }
    ensures { (result * result ≤ n) × (n < (result + 1) * (result + 1)) }
{
    let guess = (n as i64 as f64).sqrt().to_bits();
    let mut r = (guess >> 29) % 0x80_0000 + 0x80_0000;
    while n < r * r {
        r -= 1;
    }
    while (r + 1) * (r + 1) <= n {
        r += 1;
    }
    r
}

// The number that b is the pattern of. Below 0x80_0000 it is subnormal, and b counts its units.
fn take_apart(b: u32) -> Parts
    requires { (0 < b) × (b < 0x7F80_0000) }
    ensures { IsParts b result.m result.e }
{
    if b < 0x80_0000 {
        let s = b.leading_zeros() - 8;
        return Parts {
            m: u64::from(b) << s,
            e: 149 - u64::from(s),
        };
    }
    Parts {
        m: u64::from(b % 0x80_0000 + 0x80_0000),
        e: u64::from(b / 0x80_0000) + 148,
    }
}

// The same number with an even power of two.
fn even(p: Parts) -> Scaled
    requires { (2 ^ 23 ≤ p.m) × (p.m < 2 ^ 24) × (126 ≤ p.e) × (p.e ≤ 402) }
    ensures { IsScaled p.m p.e result.n result.k }
{
    if p.e % 2 == 0 {
        return Scaled {
            n: p.m * 0x100_0000,
            k: (p.e - 24) / 2,
        };
    }
    Scaled {
        n: p.m * 0x80_0000,
        k: (p.e - 23) / 2,
    }
}

// The pattern of the root of the positive number whose pattern is b. There is no tie: n is a whole number, and the square
// of q + 1/2 is none. So the root of n is above q + 1/2 just where n is above q * q + q.
#[tactic(auto, using(crate::proofs::BitsLaws::bits_up, crate::proofs::BitsLaws::bits_down))]
pub fn root_bits(b: u32) -> u32
    requires { (0 < b) × (b < 0x7F80_0000) }
    ensures { (result < 0x7F80_0000) × (root_of (of_bits binary32 b) ≡ Some (of_bits binary32 result)) }
{
    let s = even(take_apart(b));
    let n = s.n;
    let q = isqrt(n);
    if q < n - q * q {
        return (s.k * 0x80_0000 + q + 1) as u32;
    }
    (s.k * 0x80_0000 + q) as u32
}
