// One call with the slices that the program lends (FORMAT 14).
ghost use Rattle.answer.specs.Lending.{Left};

use geometry::Call;
use lent::{Answer, Buffers};

// The answer of a call, and what it left in the six slices of the mesh.
#[derive(Clone, Copy)]
pub struct Conversion {
    pub answer: Answer,
    pub indices: [u32; 768],
    pub sources: [u32; 256],
    pub positions: [u32; 768],
    pub normals: [u32; 768],
    pub colours: [u32; 1024],
    pub textures: [u32; 512],
}

// Slices for C and P of 256 each and 768 indices, all zeros; white is passed for a missing colour.
// `limits` and `replay` lend for the largest block: no struct over a const N serves them too, as a type takes no 3 * N.
pub fn lend_and_convert(block: &[u8]) -> Conversion
    ensures { Left block.now result }
{
    let mut positions = [0u32; 768];
    let mut normals = [0u32; 768];
    let mut colours = [0u32; 1024];
    let mut textures = [0u32; 512];
    let mut sources = [0u32; 256];
    let mut indices = [0u32; 768];
    let mut words = [0u32; 4104];
    let mut floats = [0.0f32; 4104];
    let answer = geometry::convert(
        Call {
            colour: geometry::WHITE,
        },
        block,
        &mut Buffers {
            sources: &mut sources,
            positions: &mut positions,
            normals: &mut normals,
            colours: &mut colours,
            textures: &mut textures,
            indices: &mut indices,
            words: &mut words,
            floats: &mut floats,
        },
    );
    Conversion {
        answer,
        indices,
        sources,
        positions,
        normals,
        colours,
        textures,
    }
}
