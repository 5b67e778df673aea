// Cases at the edge of a rule (FORMAT 3, 6.2, 6.4, 12.1), converted with slices for the largest block; each is compared with what the rule says.
#![tactic(auto)]

mod blocks;
mod full;

use block::LIMIT;
use blocks::{face, primitives, triangles};
use full::Seen;
use std::io;

// What was seen, and whether it is what the rule says.
fn tell(rt: &impl Print, name: &str, seen: Seen, expected: Seen) -> io::Result<()> {
    let word = if seen == expected {
        "agrees"
    } else {
        "differs"
    };
    println!(rt; "{name} {seen} {word}")
}

// The refusal's number, the number of indices, and the first triangle.
fn seen(number: u32, indices: usize, a: u32, b: u32, c: u32) -> Seen {
    Seen {
        number,
        indices,
        a,
        b,
        c,
    }
}

// Kinds 4, 6 and 7, attributes per vertex; and a strip set whose colours are not. Words, and no Kind: the block is written bit by bit here, and no function
// of block gives the number of a kind.
const TRIANGLES: u32 = 0x1930_0000;

const STRIPS: u32 = 0x1d30_0000;

const QUADS: u32 = 0x1f30_0000;

const COLOURS_BY_FACE: u32 = 0x1d10_0000;

// The most entries that a list has, and that a strip has, whose triangles have three corners each (FORMAT 3, 4 and 7).
const MOST: u16 = LIMIT as u16;

const STRIP: u16 = MOST / 3 + 2;

fn tell_primitives(rt: &impl Print) -> io::Result<()> {
    tell(
        rt,
        "the longest strip passes:",
        primitives(STRIPS, STRIP),
        seen(0, LIMIT / 3 * 3, 0, 1, 2),
    )?;
    tell(
        rt,
        "a strip of one entry more is refused:",
        primitives(STRIPS, STRIP + 1),
        seen(7, 0, 0, 0, 0),
    )?;
    tell(
        rt,
        "triangles of the most entries pass:",
        primitives(TRIANGLES, MOST),
        seen(0, LIMIT / 3 * 3, 0, 1, 2),
    )?;
    tell(
        rt,
        "quads of the most entries pass:",
        primitives(QUADS, MOST),
        seen(0, LIMIT / 4 * 6, 0, 1, 2),
    )?;
    tell(
        rt,
        "9 comes before 7:",
        primitives(COLOURS_BY_FACE, STRIP + 1),
        seen(9, 0, 0, 0, 0),
    )
}

fn main(rt: HostRuntime) -> io::Result<()> {
    tell(
        &rt,
        "0 1 3 of 4 points is kept:",
        triangles(3, 3),
        seen(0, 3, 0, 1, 2),
    )?;
    tell(
        &rt,
        "0 1 4 of 4 points is skipped:",
        triangles(3, 4),
        seen(0, 0, 0, 0, 0),
    )?;
    tell(
        &rt,
        "the most entries pass:",
        triangles(MOST, 3),
        seen(0, LIMIT / 4 * 3, 0, 1, 2),
    )?;
    tell(
        &rt,
        "one entry more is refused:",
        triangles(MOST + 1, 3),
        seen(4, 0, 0, 0, 0),
    )?;
    tell(
        &rt,
        "4096 corners are clipped:",
        face(4096),
        seen(0, 12282, 4095, 0, 1),
    )?;
    tell(
        &rt,
        "4097 corners are fanned:",
        face(4097),
        seen(0, 12285, 0, 1, 2),
    )?;
    tell_primitives(&rt)
}
