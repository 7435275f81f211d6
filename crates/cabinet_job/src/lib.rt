// The main job: walk the records of one file, rerank them with exact distances that are read from a second file one by one
// and only when asked for, and print the candidates in order. Damaged files get one line that says what is wrong, and no ranking.
//
// The records file. Every number is little-endian.
//      0  8 bytes  "LKCAB001"
//      8  u32      metric: 1 is L2, 2 is dot
//     12  u32      dims
//     16  u32      n, the number of records
//     20  f32      dis_v_2 of the query
//     24  f32      b of the query
//     28  f32      k of the query
//     32  dims bytes: the query's codes
//     then ceil(n / 32) blocks, and nothing after them. What stands in the lanes past n doesn't matter.
// The distances file: n floats, that of record 0 first, and nothing after them.
#![tactic(auto)]

use fault::Fault;
use job::Job;
use lists::Lists;
use std::env::{Env, FillError};
use std::fs;
use std::io::Seek;
use std::os::unix::fs::FileExt;
use std::rt::Files;

mod decimal;
mod fault;
mod job;
mod lists;
mod order;

// The first argument names the records file, the second the distances file; the third, if there is one, says how many candidates
// are wanted. A name that is no UTF-8 text can't be opened. A write that fails is passed over.
pub fn run<R: Env + Files + Print>(rt: &R)
where
    R::File: FileExt,
{
    if let Err(fault) = rank(rt) {
        let _ = println!(rt; "{fault}");
    }
}

fn rank<R: Env + Files + Print>(rt: &R) -> Result<(), Fault>
where
    R::File: FileExt,
{
    let mut records = opened(rt, 1, Fault::NoRecords)?;
    let mut distances = opened(rt, 2, Fault::NoDistances)?;
    let wanted = wanted(rt)?;
    let job = Job::read(&mut records)?;
    let mut lists = Lists::new();
    lists.read(&job, &mut records)?;
    rank_lists(rt, &mut distances, wanted, &mut lists)
}

// Nothing is printed before the end, so that a damaged file gets no part of a ranking. In rank itself, the ranking's room on the stack
// would be taken during the walks too.
fn rank_lists<F: Seek + FileExt>(
    rt: &impl Print,
    distances: &mut F,
    wanted: usize,
    lists: &mut Lists,
) -> Result<(), Fault> {
    let ranking = order::rank(distances, wanted, lists)?;
    ranking.print(rt, lists);
    Ok(())
}

// The file that argument i names, open to be read. No heap: there is room for the longest path.
fn opened<R: Env + Files>(rt: &R, i: usize, unopened: Fault) -> Result<R::File, Fault> {
    let mut name = [0u8; 4096];
    let n = rt.arg(i, &mut name).map_err(|_| Fault::Usage)?;
    let path = str::from_utf8(&name[..n]).map_err(|_| unopened)?;
    fs::open(rt, path).map_err(|_| unopened)
}

// How many candidates are wanted: argument 3, of at most nine digits, or ten. It is the last one.
fn wanted(rt: &impl Env) -> Result<usize, Fault> {
    if !matches!(rt.arg(4, &mut []), Err(FillError::NotPresent)) {
        return Err(Fault::Usage);
    }
    let mut text = [0u8; 9];
    let n = match rt.arg(3, &mut text) {
        Ok(n) => n,
        Err(FillError::NotPresent) => return Ok(10),
        Err(FillError::TooLong) => return Err(Fault::Usage),
    };
    let digits = str::from_utf8(&text[..n]).map_err(|_| Fault::Usage)?;
    // `parse` takes a sign
    if digits.starts_with('+') {
        return Err(Fault::Usage);
    }
    digits.parse().map_err(|_| Fault::Usage)
}
