// The reader of a single code. `Code` keeps the four factors and the word bytes, which stay a part of the caller's buffer.
// Callers take what they need by `factors_of` and `words_of`, whose parameters are plain.
// That a code has 16 bytes stands in each contract: the docs name these functions, so their parameters stay plain.
ghost use Rattle.std.specs.Prelude.{◌≡◌, ◌≤◌, length};
ghost use Rattle.code.specs.Reader.{factors_at, kept_factors, words_at};

use words::f32_at;

#[derive(Clone, Copy, Debug, PartialEq)]
pub struct Factors {
    pub dis_u_2: f32,
    pub factor_ppc: f32,
    pub factor_ip: f32,
    pub factor_err: f32,
}

#[derive(Clone, Copy, Debug)]
pub struct Code<'a> {
    pub factors: Factors,
    pub words: &'a [u8],
}

// The Rust's `parse_code`.
pub fn parse_code<'a>(code: &'a [u8]) -> Code<'a>
    requires { 16 ≤ length code.now }
    ensures { (kept_factors result ≡ factors_at code.now) × (result.words.now ≡ words_at code.now) }
{
    Code {
        factors: Factors {
            dis_u_2: f32_at(code, 0),
            factor_ppc: f32_at(code, 1),
            factor_ip: f32_at(code, 2),
            factor_err: f32_at(code, 3),
        },
        words: &code[16..],
    }
}

// The four factors of a code.
pub fn factors_of(code: &[u8]) -> Factors
    requires { 16 ≤ length code.now }
    ensures { result ≡ factors_at code.now }
{
    parse_code(code).factors
}

// The word bytes of a code.
pub fn words_of<'a>(code: &'a [u8]) -> &'a [u8]
    requires { 16 ≤ length code.now }
    ensures { result.now ≡ words_at code.now }
{
    parse_code(code).words
}
