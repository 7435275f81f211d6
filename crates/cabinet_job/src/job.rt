// What the records file asks for.
ghost use Rattle.std.specs.Prelude.{◌≡◌, ◌≤◌, IfOk};
ghost use Rattle.words.specs.Bytes.{num_at, f32_at};
ghost use Rattle.words.specs.Limits.{most_dims};
ghost use Rattle.cabinet_job.specs.Job.{most_block};

use crate::fault::Fault;
use std::io::Read;
use words::{MOST_DIMS, Refusal};

// The query but for its codes, and the number of records. The metric stays a number: the walk judges it, after what the paper refuses first.
#[derive(Clone, Copy)]
pub struct Header {
    pub metric: u32,
    pub dims: u32,
    pub n: u32,
    pub dis_v_2: f32,
    pub b: f32,
    pub k: f32,
}

impl From<&[u8; 32]> for Header {
    ghost from_gives = { λ s r. (r.metric ≡ num_at 4 s.now 8) × (r.dims ≡ num_at 4 s.now 12) × (r.n ≡ num_at 4 s.now 16)
        × (r.dis_v_2 ≡ f32_at s.now 5) × (r.b ≡ f32_at s.now 6) × (r.k ≡ f32_at s.now 7) };

    fn from(s: &[u8; 32]) -> Header {
        Header {
            metric: words::u32_at(s, 8),
            dims: words::u32_at(s, 12),
            n: words::u32_at(s, 16),
            dis_v_2: words::f32_at(s, 5),
            b: words::f32_at(s, 6),
            k: words::f32_at(s, 7),
        }
    }
}

// How many bytes a block has.
#[tactic(auto, using(crate::proofs::SizeLaws::size_fits))]
fn size_of(dims: u32) -> Result<usize, Refusal>
    ensures { IfOk result (λ bytes. (dims ≤ most_dims) × (bytes ≤ most_block)) }
{
    let mut out = [0u8; 4];
    lintelkite::lk_block_size(dims, &mut out)?;
    Ok(words::u32_at(&out, 0) as usize)
}

// The header and the query's codes, and how many bytes a block has.
#[derive(Drop)]
pub struct Job {
    pub header: Header,
    pub size: usize,
    // No heap: room for the most dims, of which header.dims are filled.
    codes: [u8; MOST_DIMS as usize],
    ghost few_dims: { header.dims ≤ most_dims },
    ghost small_blocks: { size ≤ most_block },
}

impl Job {
    pub fn read(records: &mut impl Read) -> Result<Job, Fault> {
        let mut head = [0u8; 32];
        records
            .read_exact(&mut head)
            .map_err(|_| Fault::ShortHeader)?;
        if !head.starts_with(b"LKCAB001") {
            return Err(Fault::NoCabinet);
        }
        let header = Header::from(&head);
        let size = size_of(header.dims).map_err(Fault::Dims)?;
        let mut codes = [0u8; MOST_DIMS as usize];
        records
            .read_exact(&mut codes[..header.dims as usize])
            .map_err(|_| Fault::ShortQuery)?;
        Ok(Job {
            header,
            size,
            codes,
        })
    }

    pub fn codes(&self) -> &[u8] {
        &self.codes[..self.header.dims as usize]
    }
}
