// Runs the paper's two examples over the calls of `rerank` and writes what a caller hears, with the count after each Done.
#![tactic(auto)]

use rerank::Answer;
use std::io;
use words::Refusal;

// The lists of a caller, and the distances that it supplies. BYTES is 4 PLACES, which a const argument can't say.
#[derive(Drop)]
struct Caller<const PLACES: usize, const BYTES: usize> {
    estimates: [u8; BYTES],
    distances: [u8; BYTES],
    marks: [u8; PLACES],
    table: [f32; PLACES],
}

impl<const PLACES: usize, const BYTES: usize> Caller<PLACES, BYTES> {
    // Supplies the distance of a place.
    fn supply(&mut self, place: u32) -> Result<(), Refusal> {
        if let Some(distance) = self.table.get(place as usize) {
            let mut count = [0u8; 4];
            rerank::supply(
                &self.estimates,
                &mut self.distances,
                &mut self.marks,
                place,
                *distance,
                &mut count,
            )?;
        }
        Ok(())
    }

    // What next says to do, and its count.
    fn next(&mut self) -> Result<(Answer, u32), Refusal> {
        let mut out = [0u8; 16];
        rerank::next(&self.estimates, &self.distances, &mut self.marks, &mut out)?;
        Ok((Answer::try_from(&out[..])?, words::u32_at(&out, 12)))
    }

    // One call of next, and the supply that an Ask wants. False at the end, as where next is refused.
    fn turn(&mut self, rt: &impl Print) -> io::Result<bool> {
        match self.next() {
            Ok((Answer::Ask(place), _)) => {
                println!(rt; "Ask {place}")?;
                if let Err(why) = self.supply(place) {
                    say_refused(rt, why)?;
                }
                Ok(true)
            }
            Ok((Answer::Give(place, _), _)) => {
                println!(rt; "Give {place}")?;
                Ok(true)
            }
            Ok((Answer::Done, count)) => {
                println!(rt; "Done {count}")?;
                Ok(false)
            }
            Err(why) => {
                say_refused(rt, why)?;
                Ok(false)
            }
        }
    }

    // Turns until the end, and at most twenty.
    fn run(&mut self, rt: &impl Print) -> io::Result<()> {
        for _ in 0..20 {
            if !self.turn(rt)? {
                break;
            }
        }
        Ok(())
    }
}

fn say_refused(rt: &impl Print, why: Refusal) -> io::Result<()> {
    let number = u32::from(why);
    println!(rt; "Refused {number}")
}

fn main(rt: HostRuntime) -> io::Result<()> {
    // Estimates 1, 2, 3.
    let mut first = Caller {
        estimates: [0u8, 0, 128, 63, 0, 0, 0, 64, 0, 0, 64, 64],
        distances: [0u8; 12],
        marks: [0u8; 3],
        table: [2.5f32, 2.0, 9.0],
    };
    first.run(&rt)?;
    // Estimates 1, 2.
    let mut second = Caller {
        estimates: [0u8, 0, 128, 63, 0, 0, 0, 64],
        distances: [0u8; 8],
        marks: [0u8; 2],
        table: [2.0f32, 2.0],
    };
    second.run(&rt)
}
