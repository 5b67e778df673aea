// A call with a part of the full slices, and the text of its answer.
use answer::parts_of;
use block::{LIMIT, read_header};
use geometry::Call;
use lent::{Answer, Buffers};

// Slices for as many points and corners as edition 1 allows (FORMAT 4).
// `limits` lends the same lengths: it is another program, and a struct for both would need a crate of its own.
// `answer` lends for 256, and no struct over a const N serves it too: a type takes no 3 * N.
#[derive(Drop)]
pub(crate) struct Slices {
    pub positions: [u32; 3 * LIMIT],
    pub normals: [u32; 3 * LIMIT],
    pub colours: [u32; 4 * LIMIT],
    pub textures: [u32; 2 * LIMIT],
    pub sources: [u32; LIMIT],
    pub indices: [u32; 3 * LIMIT],
    pub words: [u32; 16 * LIMIT + 8],
    pub floats: [f32; 16 * LIMIT + 8],
}

// The first n elements, or all of them. Casts here and in reading: no From gives a usize of a u32.
fn front<T>(s: &mut [T], n: usize) -> &mut [T] {
    let k = n.min(s.len());
    &mut s[..k]
}

// Slices for so many corners and as many points (FORMAT 4): the fronts of the given ones. White is passed for a missing colour, as the reference has it.
fn convert_for(corners: u32, block: &[u8], s: &mut Slices) -> Answer {
    let k = corners as usize;
    geometry::convert(
        Call {
            colour: geometry::WHITE,
        },
        block,
        &mut Buffers {
            sources: front(&mut s.sources, k),
            positions: front(&mut s.positions, 3 * k),
            normals: front(&mut s.normals, 3 * k),
            colours: front(&mut s.colours, 4 * k),
            textures: front(&mut s.textures, 2 * k),
            indices: front(&mut s.indices, 3 * k),
            words: front(&mut s.words, 16 * k + 8),
            floats: front(&mut s.floats, 16 * k + 8),
        },
    )
}

// The length of the text, which is put as far as the buffer goes. A mesh beyond full slices has none.
fn put_answer(answer: Answer, block: &[u8], s: &Slices, out: &mut [u8]) -> Option<usize> {
    let p = match answer {
        Ok(p) => p,
        Err(no) => return Some(text::put_refusal(no, out)),
    };
    if p.vertices > LIMIT || p.indices > 3 * LIMIT {
        return None;
    }
    // As answer's `parts_in`, which is its own: to share this line would be one public function more.
    let parts = parts_of(read_header(block));
    Some(text::put_mesh(
        p,
        parts,
        &s.positions,
        &s.normals,
        &s.colours,
        &s.textures,
        &s.sources,
        &s.indices,
        out,
    ))
}

// The text of a block's answer to a call with slices for so many corners.
pub(crate) fn put_converted(
    corners: u32,
    block: &[u8],
    out: &mut [u8],
    s: &mut Slices,
) -> Option<usize> {
    let answer = convert_for(corners, block, s);
    put_answer(answer, block, s, out)
}
