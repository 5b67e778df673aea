// A call with slices for as many points and corners as edition 1 allows (FORMAT 4).
ghost use Rattle.limits.specs.Shown.{Shows};

use block::LIMIT;
use geometry::Call;
use lent::Buffers;
use std::fmt;

// The refusal's number, the number of indices, and the first triangle. The number is 0 for none, and no Option:
// a host's call returns it so, and so it is printed.
#[derive(Clone, Copy, PartialEq, Eq)]
pub struct Seen {
    pub number: u32,
    pub indices: usize,
    pub a: u32,
    pub b: u32,
    pub c: u32,
}

impl fmt::Display for Seen {
    fn fmt<W: fmt::Write>(&self, f: &mut fmt::Formatter<W>) -> fmt::Result {
        write!(
            f,
            "{} {} {} {} {}",
            self.number, self.indices, self.a, self.b, self.c
        )
    }
}

// `replay` lends the same lengths: it is another program, and a struct for both would need a crate of its own.
// `answer` lends for 256, and no struct over a const N serves it too: a type takes no 3 * N.
pub fn convert_full(block: &[u8]) -> Seen
    ensures { Shows block.now result }
{
    let mut positions = [0u32; 3 * LIMIT];
    let mut normals = [0u32; 3 * LIMIT];
    let mut colours = [0u32; 4 * LIMIT];
    let mut textures = [0u32; 2 * LIMIT];
    let mut sources = [0u32; LIMIT];
    let mut indices = [0u32; 3 * LIMIT];
    let mut words = [0u32; 16 * LIMIT + 8];
    let mut floats = [0.0f32; 16 * LIMIT + 8];
    let mut b = Buffers {
        sources: &mut sources,
        positions: &mut positions,
        normals: &mut normals,
        colours: &mut colours,
        textures: &mut textures,
        indices: &mut indices,
        words: &mut words,
        floats: &mut floats,
    };
    let call = Call {
        colour: geometry::WHITE,
    };
    let answer = geometry::convert(call, block, &mut b);
    match answer {
        Err(no) => Seen {
            number: u32::from(no),
            indices: 0,
            a: b.indices[0],
            b: b.indices[1],
            c: b.indices[2],
        },
        Ok(p) => Seen {
            number: 0,
            indices: p.indices,
            a: b.indices[0],
            b: b.indices[1],
            c: b.indices[2],
        },
    }
}
