// Where vertices are kept (FORMAT 5) and the tables for the search among them.
ghost use Rattle.std.specs.Prelude.{◌≤◌, length};
ghost use Rattle.vertices.specs.Places.{key_words};

use block::PointNumber;

// The words of a key (FORMAT 11): how many each attribute has, and where they start, one attribute after another. The normal's start at 0.
pub const NORMAL_WORDS: usize = 3;

pub const COLOUR_WORDS: usize = 4;

pub const TEXTURE_WORDS: usize = 2;

pub const COLOUR_START: usize = NORMAL_WORDS;

pub const TEXTURE_START: usize = COLOUR_START + COLOUR_WORDS;

pub const KEY_WORDS: usize = TEXTURE_START + TEXTURE_WORDS;

// How many words of a vertex each slice holds: as many as the key, or 0 for an attribute that is not made. Numbers, not Options: a row's place is a multiple
// of them.
#[derive(Clone, Copy)]
pub struct Widths {
    pub normal: usize,
    pub colour: usize,
    pub texture: usize,
}

// The slices that a vertex is written to (FORMAT 5), of the caller: what is read and written at every corner.
#[derive(Drop)]
pub struct VertexSlices<'a> {
    pub sources: &'a mut [u32],
    pub positions: &'a mut [u32],
    pub normals: &'a mut [u32],
    pub colours: &'a mut [u32],
    pub textures: &'a mut [u32],
}

// In the working slice: where the words of the points stand, how many points there are, into how many buckets vertices are put,
// and where the chains' heads stand, one for each bucket, and the nexts, one for each vertex. Chains of numbers, since the words are lent and there is no heap.
// One function reads them, and the others write them and take the words, `&mut`, beside them, for the reason at `tables::Plan`.
#[derive(Clone, Copy)]
pub struct Chains {
    pub points: usize,
    pub spots: usize,
    pub buckets: usize,
    pub heads: usize,
    pub nexts: usize,
}

// The number of a bucket, which is none of the three of FORMAT 11. That it is below the number of buckets stays a clause: a type that says so would hold that
// number, which is the chains'.
#[derive(Clone, Copy)]
pub struct Bucket(pub usize);

// What the key of a corner is made of: its point, and the words of its attributes. A slice, and no array: `vertex` takes any `KEY_WORDS` words or more, and
// may not ask for less.
#[derive(Clone, Copy)]
pub struct CornerKey<'a> {
    pub point: PointNumber,
    pub words: &'a [u32],
    ghost full: { key_words ≤ length words.now },
}
