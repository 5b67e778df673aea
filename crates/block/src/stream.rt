// Which value of an attribute a corner reads (FORMAT 7.1; Stream::get).
ghost use Rattle.std.specs.Prelude.{◌≡◌, ◌<◌, true};
ghost use Rattle.block.specs.Stream.{index_bytes, stream_of, is_negative, chosen, number_in, number_at, values_in, index_in, found_at, get_at, get4_at};

use crate::extents::{Place, list_place};
use crate::header::Header;
use crate::kind::{Kind, is_indexed};
use crate::value::{Value, value_or, value4};
use bits::Words4;

// An attribute of a block: where its values and its own index list lie.
#[derive(Clone, Copy)]
pub struct Stream {
    // A bit of the header, as `Header` has it; of texture points it is set.
    pub per_vertex: bool,
    pub values: Place,
    pub index: Place,
}

// The bytes of an attribute's own index list. Grids have none.
fn index_bytes(kind: Kind, len: usize) -> usize
    ensures { result ≡ index_bytes kind len }
{
    if is_indexed(kind) {
        return len;
    }
    0
}

// The attribute whose values are list `k`, and whose own index list is the next one.
fn stream_of(h: Header, per_vertex: bool, k: usize) -> Stream
    requires { k < 8 }
    ensures { result ≡ stream_of h per_vertex k }
{
    let list = list_place(h, k + 1);
    Stream {
        per_vertex,
        values: list_place(h, k),
        index: Place {
            at: list.at,
            len: index_bytes(h.kind, list.len),
        },
    }
}

pub fn color_stream(h: Header) -> Stream
    ensures { result ≡ stream_of h h.color_per_vertex 2 }
{
    stream_of(h, h.color_per_vertex, 2)
}

pub fn normal_stream(h: Header) -> Stream
    ensures { result ≡ stream_of h h.normal_per_vertex 4 }
{
    stream_of(h, h.normal_per_vertex, 4)
}

// Texture is always per vertex.
pub fn texture_stream(h: Header) -> Stream
    ensures { result ≡ stream_of h true 6 }
{
    stream_of(h, true, 6)
}

fn is_negative(w: u32) -> bool
    ensures { result ≡ is_negative w }
{
    0x8000_0000 <= w
}

// The index list that an attribute reads per vertex: its own or, where that is empty, coordIndex.
pub fn chosen_list<'a>(own: &'a [u8], coord: &'a [u8]) -> &'a [u8]
    ensures { result.now ≡ chosen own.now coord.now }
{
    if own.len() / 4 == 0 { coord } else { own }
}

// The number at place `k` of a list, or `k` itself where the list is empty. What no u32 holds is beyond every list of values.
fn number_in(list: &[u8], k: usize) -> Option<u32>
    ensures { result ≡ number_in list.now k }
{
    let n = list.len() / 4;
    if n == 0 {
        return u32::try_from(k).ok();
    }
    if k < n {
        let w = bits::entry(list, k);
        return (!is_negative(w)).then_some(w);
    }
    None
}

// The number of the value that a corner reads, by its place in coordIndex or by its face.
pub fn number_at<'a>(
    own: &'a [u8],
    coord: &'a [u8],
    per_vertex: bool,
    place: usize,
    face: usize,
) -> Option<u32>
    ensures { result ≡ number_at own.now coord.now per_vertex place face }
{
    if per_vertex {
        return number_in(chosen_list(own, coord), place);
    }
    number_in(own, face)
}

// An attribute of a block, its bytes cut out once for all corners: those of its values, and those of its own index list.
// `block` and `coord` are two slices, and no struct with the fact that `coord` is the block's list 1, which facesetshape and primitiveshape ask: a grid and an
// extrusion have no coordIndex, and an empty slice goes for it. Nor are they a struct without the fact: whoever lists runs reads `coord` alone.
#[derive(Clone, Copy)]
pub struct Attribute<'a> {
    pub block: &'a [u8],
    pub coord: &'a [u8],
    pub stream: Stream,
    values: &'a [u8],
    own: &'a [u8],
    ghost values_are: { values.now ≡ values_in block.now stream },
    ghost own_is: { own.now ≡ index_in block.now stream },
}

impl<'a> Attribute<'a> {
    pub fn of(block: &'a [u8], coord: &'a [u8], stream: Stream) -> Attribute<'a>
        ensures { (result.block.now ≡ block.now) × (result.coord.now ≡ coord.now) × (result.stream ≡ stream) }
    {
        Attribute {
            block,
            coord,
            stream,
            values: stream.values.part(block),
            own: stream.index.part(block),
        }
    }

    // The number of the value that a corner reads. `place` and `face` are two numbers, and `number_at` reads the one or the other: a struct of both would be
    // built at each call only to be taken apart.
    fn found_at(&self, place: usize, face: usize) -> Option<u32>
        ensures { result ≡ found_at self.now.block.now self.now.coord.now self.now.stream place face }
    {
        number_at(self.own, self.coord, self.stream.per_vertex, place, face)
    }

    // What the attribute has at a corner.
    pub fn get<V: Value>(&self, place: usize, face: usize, missing: V) -> V
        ensures { result ≡ get_at V.made V.width self.now.block.now self.now.coord.now self.now.stream place face missing }
    {
        value_or(self.values, self.found_at(place, face), missing)
    }

    // A colour, of 4 words or of 3.
    pub fn get4(&self, alpha: bool, place: usize, face: usize, missing: Words4) -> Words4
        ensures { result ≡ get4_at self.now.block.now self.now.coord.now self.now.stream alpha place face missing }
    {
        value4(self.values, alpha, self.found_at(place, face), missing)
    }
}
