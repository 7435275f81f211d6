// A query that has been judged.
ghost use Rattle.std.specs.Prelude.{◌≡◌, ℕ, cond, ◌≤◌, ◌<◌, pos, length, IfOk};
ghost use Rattle.std.specs.Float.Ieee.{of_int};
ghost use Rattle.std.specs.Float.{binary32};
ghost use Rattle.words.specs.Bytes.{f32_at};
ghost use Rattle.words.specs.Limits.{most_sum};
ghost use Rattle.words.specs.Refusals.{status, bad_length};
ghost use Rattle.code.specs.Code.{code_size};
ghost use Rattle.block.specs.Block.{block_size};
ghost use Rattle.sums.specs.Sums.{QueryCodes, query_sum};
ghost use Rattle.sums.specs.Parts.{LaneSums};
ghost use Rattle.estimate.specs.Estimate.{halved, estimate, root_float};
ghost use Rattle.estimate.specs.Record.{code_estimate, lane_words};
ghost use Rattle.estimate.specs.Calls.{bad_query};

use crate::{Asked, Query};
use code::parts::reader::{Factors, factors_of, words_of};
use lanes::WideTable;
use planes::Planes;
use sums::QueryCodes;
use words::{Dims, MOST_DIMS, Metric, Refusal, any_nan, f32_at, number_at, put_f32};

// A judged query, and what is made of it once: its metric, its record, root(dis_v_2), the sum of its codes, and the codes.
#[derive(Clone, Copy)]
pub struct Ready<'a> {
    pub m: Metric,
    pub v: Query,
    pub root: f32,
    pub total: u32,
    pub codes: &'a [u8],
    ghost rooted: { root ≡ root_float v.dis_v_2 },
    ghost summed: { total ≡ query_sum codes.now },
    ghost fits: { total ≤ most_sum },
    ghost some: { 0 < length codes.now },
    ghost judged: { QueryCodes codes.now },
}

fn root_of(x: f32) -> f32
    ensures { result ≡ root_float x }
{
    root::square_root(x).unwrap_or(f32::NAN)
}

#[tactic(auto, unfolding(crate::specs::Estimate::halved))]
fn halved(m: Metric, x: f32) -> f32
    ensures { result ≡ halved m x }
{
    match m {
        Metric::L2 => x,
        Metric::Dot => 0.5 * x,
    }
}

// A sum as a float. The remainder changes nothing: it tells the compiler that the number is no negative one in the signed
// conversion, which is one operation where the unsigned one is seven.
#[tactic(auto, using(crate::proofs::EstimateLaws::sum_in_float))]
fn float_of(n: u32) -> f32
    requires { n ≤ most_sum }
    ensures { result ≡ of_int binary32 (pos n) }
{
    (n % 0x100_0000) as f32
}

impl<'a> Ready<'a> {
    // Of codes that are judged. Where dis_v_2 has no root, root is a NaN.
    pub fn of(m: Metric, v: Query, codes: QueryCodes<'a>) -> Ready<'a>
        ensures { (result.m ≡ m) × (result.v ≡ v) × (result.codes.now ≡ codes.entry) }
    {
        Ready {
            m,
            v,
            root: root_of(v.dis_v_2),
            total: codes.total(),
            codes: codes.as_slice(),
        }
    }

    // Refuses another number of codes, and a dis_v_2 below 0 and a code above 15.
    pub fn judged(
        m: Metric,
        v: Query,
        dims: Dims<MOST_DIMS>,
        codes: &'a [u8],
    ) -> Result<Ready<'a>, Refusal>
        ensures refused { status result ≡ cond (bad_length codes.now dims) 3 (cond (bad_query v codes.now) 5 0) }
        ensures query { IfOk result (λ p. (p.m ≡ m) × (p.v ≡ v) × (p.codes.now ≡ codes.now)) }
    {
        let codes = v.judged_codes(dims, codes)?;
        Ok(Ready::of(m, v, codes))
    }

    pub fn codes(&self) -> QueryCodes<'a>
        ensures { result ≡ self.now.codes.now }
    {
        QueryCodes::of(self.codes)
    }

    // The number asked for of a record with the factors f and the sum s: `process` of the Rust, and `process_lowerbound` with its
    // epsilon of 1.9.
    #[tactic(auto, unfolding(crate::specs::Estimate::estimate, crate::specs::Estimate::lower_bound, crate::specs::Estimate::err, crate::specs::Estimate::rough, crate::specs::Estimate::ppc_term, crate::specs::Estimate::ip_term, crate::specs::Estimate::two_s_minus_q))]
    fn estimate(self, asked: Asked, f: Factors, s: u32) -> f32
        requires { s ≤ most_sum }
        ensures { result ≡ estimate asked self.entry.m self.entry.v f s self.entry.total }
    {
        let m = self.m;
        let v = self.v;
        let ppc_term = halved(m, v.b * f.factor_ppc);
        let two_s_minus_q = 2.0 * float_of(s) - float_of(self.total);
        let ip_term = halved(m, two_s_minus_q * f.factor_ip * v.k);
        let rough = match m {
            Metric::L2 => f.dis_u_2 + v.dis_v_2 + ppc_term + ip_term,
            Metric::Dot => ppc_term + ip_term,
        };
        match asked {
            Asked::Rough => rough,
            Asked::LowerBound => rough - 1.9 * halved(m, f.factor_err * self.root),
        }
    }

    // The number asked for of a single code, from the query's planes.
    pub fn code_estimate(&self, asked: Asked, planes: &Planes, code: &[u8]) -> f32
        requires { (planes.now ≡ self.now.codes.now) × (length code.now ≡ code_size (length self.now.codes.now)) }
        ensures { result ≡ code_estimate asked self.now.m self.now.v self.now.codes.now code.now }
    {
        let f = factors_of(code);
        let s = planes.asymmetric_binary_dot_product(words_of(code));
        self.estimate(asked, f, s)
    }

    // Those of the 32 lanes of a block from their sums, four bytes each. `float` reads a float of the block by its place.
    fn put_estimates<F: Fn(usize) -> f32>(
        &self,
        asked: Asked,
        s: &[u32; 32],
        block: &[u8],
        float: F,
        out: &mut [u8],
    )
        requires sums { LaneSums self.now.codes.now block.now s.now × (length out.old ≡ 128) }
        requires callable { (i : ℕ) → i < 128 → F.pre float i }
        requires reads { (i : ℕ) (x : _) → i < 128 → F.post float i x → x ≡ f32_at block.now i }
        ensures { out.new ≡ lane_words asked self.now.m self.now.v self.now.codes.now block.now }
    {
        // A copy, which no store to out can change: so it is read once for all lanes.
        let p = *self;
        for (k, sum) in s.iter().enumerate() {
            let f = Factors {
                dis_u_2: float(k),
                factor_ppc: float(32 + k),
                factor_ip: float(64 + k),
                factor_err: float(96 + k),
            };
            put_f32(out, 4 * k, p.estimate(asked, f, *sum));
        }
    }

    // Those of the 32 lanes of a block, from the query's wide table. The Rust's `fscan_process` and `fscan_process_lowerbound`. A block is
    // a plain part of the caller's records, judged by its length alone; a type for it would hold nothing else. So is out.
    #[tactic(auto, using(crate::proofs::EstimateLaws::number_factor))]
    pub fn put_lanes(&self, asked: Asked, table: &WideTable, block: &[u8], out: &mut [u8])
        requires { (table.now ≡ self.now.codes.now) × (length block.now ≡ block_size (length self.now.codes.now)) × (length out.old ≡ 128) }
        ensures { out.new ≡ lane_words asked self.now.m self.now.v self.now.codes.now block.now }
    {
        let s = table.lane_sums(block);
        if any_nan(block, 128) {
            self.put_estimates(asked, &s, block, |i| f32_at(block, i), out);
        } else {
            // a test less for each factor
            self.put_estimates(asked, &s, block, |i| number_at(block, i), out);
        }
    }
}
