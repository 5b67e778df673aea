// Converts the stored blocks of the file `cases`, and tells which texts are not the stored ones and how many are.
#![tactic(auto)]

mod judging;
mod lending;
mod reading;

use block::LIMIT;
use judging::{Room, judge_next};
use lending::Slices;
use reading::BadFile;
use std::fs::File;
use std::io;
use std::io::Read;

fn put_line(rt: &impl Print, word: &str, n: u64) -> io::Result<()> {
    println!(rt; "{word}{n}")
}

// The cases met, and those that agree.
#[derive(Clone, Copy)]
struct Tally {
    cases: u64,
    same: u64,
}

// Case after case, with the slices as the case before left them.
fn run_cases<R: Read>(rt: &impl Print, from: &mut R, room: &mut Room) -> io::Result<Tally> {
    let mut tally = Tally { cases: 0, same: 0 };
    // A bound that no stored file comes to: the end of every loop is to be proved, and nothing says of a reader that it ends.
    for _ in 0..1000000000u32 {
        match judge_next(from, room) {
            Ok(Some(true)) => tally.same = tally.same.saturating_add(1),
            Ok(Some(false)) => put_line(rt, "differs ", tally.cases)?,
            Ok(None) => return Ok(tally),
            Err(BadFile) => {
                put_line(rt, "bad file at ", tally.cases)?;
                return Ok(tally);
            }
        }
        tally.cases = tally.cases.saturating_add(1);
    }
    Ok(tally)
}

fn main(rt: HostRuntime) -> io::Result<()> {
    let mut file = File::open(&rt, "cases")?;
    let mut room = Room {
        block: [0; 40960],
        expected: [0; 131072],
        out: [0; 131072],
        slices: Slices {
            positions: [0; 3 * LIMIT],
            normals: [0; 3 * LIMIT],
            colours: [0; 4 * LIMIT],
            textures: [0; 2 * LIMIT],
            sources: [0; LIMIT],
            indices: [0; 3 * LIMIT],
            words: [0; 16 * LIMIT + 8],
            floats: [0.0; 16 * LIMIT + 8],
        },
    };
    let tally = run_cases(&rt, &mut file, &mut room)?;
    put_line(&rt, "cases ", tally.cases)?;
    put_line(&rt, "agree ", tally.same)
}
