// A float as text.
ghost use Rattle.std.specs.Prelude.{◌^◌, ◌<◌, ◌≤◌};

use std::fmt;

// A float, shown in decimal, exactly unless that ends in two points, and with its bits. `{}` of an f32 would show the shortest decimal.
// A NaN has the bits that the lists write for it.
#[derive(Clone, Copy, Debug, PartialEq)]
pub struct Decimal(pub f32);

impl fmt::Display for Decimal {
    fn fmt<W: fmt::Write>(&self, f: &mut fmt::Formatter<W>) -> fmt::Result {
        let x = self.0;
        if x.is_nan() {
            return f.write_str("NaN (0x7fc00000)");
        }
        let bits = x.to_bits();
        if 0x8000_0000 <= bits {
            f.write_str("-")?;
        }
        let magnitude = bits % 0x8000_0000;
        let fraction = u64::from(magnitude % 0x80_0000);
        match magnitude / 0x80_0000 {
            255 => f.write_str("infinity")?,
            0 => write_product(f, fraction, 1)?,
            exponent => write_product(f, fraction + 0x80_0000, exponent)?,
        }
        write!(f, " (0x{bits:08x})")
    }
}

// m * 2^(e - 150): in decimal, or as that product where it is at least 2^64 or has more than 60 binary places.
#[tactic(auto, using(crate::proofs::PowerLaws::times_fits))]
fn write_product<W: fmt::Write>(f: &mut fmt::Formatter<W>, m: u64, e: u32) -> fmt::Result
    requires { m < 2 ^ 24 }
{
    match e {
        191.. => {
            let power = e - 150;
            write!(f, "{m} x 2^{power}")
        }
        150..=190 => {
            let whole = m * 2u64.pow(e - 150);
            write!(f, "{whole}")
        }
        90..=149 => write_quotient(f, m, 150 - e),
        _ if m == 0 => f.write_str("0"),
        _ => {
            let power = 150 - e;
            write!(f, "{m} x 2^-{power}")
        }
    }
}

// m / 2^k: all its decimal digits, or nine after the point and two points where there are more.
#[tactic(auto, using(crate::proofs::PowerLaws::pow_fits))]
fn write_quotient<W: fmt::Write>(f: &mut fmt::Formatter<W>, m: u64, k: u32) -> fmt::Result
    requires { k ≤ 60 }
{
    let unit = 2u64.pow(k);
    let whole = m / unit;
    let mut rest = m % unit;
    write!(f, "{whole}")?;
    if rest == 0 {
        return Ok(());
    }
    f.write_str(".")?;
    for _ in 0..9 {
        if rest == 0 {
            return Ok(());
        }
        let digit = 10 * rest / unit;
        rest = 10 * rest % unit;
        write!(f, "{digit}")?;
    }
    if rest == 0 { Ok(()) } else { f.write_str("..") }
}
