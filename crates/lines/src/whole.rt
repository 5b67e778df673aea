// FORMAT 5, 8.2, indexed_line_set: the mesh of a line set, from its corners' tables.
ghost use Rattle.lent.specs.Buffers.{slices_in, Same};
ghost use Rattle.lines.specs.Made.{Ready, Done};

use crate::pairing::put_lines;
use corners::{Attributes, CornerTables, Given, all_vertices};
use lent::{Buffers, Counts};
use tables::{clear_floats, clear_words};
use vertices::{VertexSlices, Widths};

// The vertices, then the lines. The working slices are cleared. Block and coordIndex come by themselves, as in `build::build`: the floats of a `Given` are only
// read, and those of b are cleared.
pub fn make_lines<'a>(
    block: &'a [u8],
    coord: &'a [u8],
    a: Attributes,
    w: Widths,
    t: CornerTables,
    points: u32,
    b: &mut Buffers<'_>,
) -> Counts
    requires { Ready (record { block = block.now; coord = coord.now; floats = b.old.floats.now }) a w b.old.words.now t points
        (slices_in b.old) }
    ensures same { Same b.old b.new }
    ensures done { Done (record { block = block.now; coord = coord.now; floats = b.old.floats.now }) a w b.old.words.now t points
        (slices_in b.old) (slices_in b.new) b.new.words.now b.new.floats.now result }
{
    let words = &mut *b.words;
    let floats = &mut *b.floats;
    let given = Given {
        block,
        coord,
        attributes: a,
        floats: &*floats,
    };
    let mut slices = VertexSlices {
        sources: &mut *b.sources,
        positions: &mut *b.positions,
        normals: &mut *b.normals,
        colours: &mut *b.colours,
        textures: &mut *b.textures,
    };
    let n = all_vertices(&given, &mut slices, words, w, t);
    let to = t.named + t.count;
    let made = put_lines(coord, points, &words[t.named..to], b.indices);
    clear_words(words);
    clear_floats(floats);
    Counts {
        vertices: n.0,
        indices: made,
    }
}
