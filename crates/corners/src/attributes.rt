// Where a corner's normal and colour come from (FORMAT 7.1, 7.2).
use bits::Words4;
use block::Stream;

// Where the block supplies no normals, there is no stream of them. `missing` is the colour of a missing entry.
#[derive(Clone, Copy)]
pub struct Attributes {
    pub normals: Option<Stream>,
    pub colours: Stream,
    pub alpha: bool,
    pub missing: Words4,
}

// What the keys of the corners are made of, beside the tables: a block, its coordIndex, and the generated normals, three floats a corner. All are only read.
#[derive(Clone, Copy)]
pub struct Given<'a> {
    pub block: &'a [u8],
    pub coord: &'a [u8],
    pub attributes: Attributes,
    pub floats: &'a [f32],
}
