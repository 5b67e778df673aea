// FORMAT 5, 10.3, 11, 12, PolyMesh::build and then fix_zero_normals: all of it.
ghost use Rattle.lent.specs.Buffers.{slices_in, Same};
ghost use Rattle.build.specs.Built.{Ready, Built};

use crate::shared::Shared;
use corners::{CornerTables, Given, all_vertices};
use faces::all_faces;
use lent::{Buffers, Counts};
use mending::fix_zero_normals;
use tables::{Plan, clear_floats, clear_words};
use vertices::VertexSlices;

// The mesh of the soup that the tables hold, into the six slices; the working slices are left with zeros. Block and coordIndex come by themselves, and not in a
// `Given`, whose floats are only read: those of b are written once the vertices are made.
pub fn build<'a>(
    block: &'a [u8],
    coord: &'a [u8],
    s: Shared,
    t: Plan,
    b: &mut Buffers<'_>,
) -> Counts
    requires { Ready (record { block = block.now; coord = coord.now; floats = b.old.floats.now }) s t b.old.words.now (slices_in b.old) }
    ensures same { Same b.old b.new }
    ensures built { Built (record { block = block.now; coord = coord.now; floats = b.old.floats.now }) s t b.old.words.now
        (slices_in b.old) (slices_in b.new) b.new.words.now b.new.floats.now result }
{
    let w = s.widths;
    let tables = CornerTables::of_plan(t);
    // Fields that some call reads while it writes another (floats, positions, indices) have names of their own: the check of borrows does not take two fields
    // of `b` in one call, one to be written and one to be read.
    let words = &mut *b.words;
    let floats = &mut *b.floats;
    let positions = &mut *b.positions;
    let indices = &mut *b.indices;
    let given = Given {
        block,
        coord,
        attributes: s.attributes,
        floats: &*floats,
    };
    let mut slices = VertexSlices {
        sources: &mut *b.sources,
        positions: &mut *positions,
        normals: &mut *b.normals,
        colours: &mut *b.colours,
        textures: &mut *b.textures,
    };
    let n = all_vertices(&given, &mut slices, words, w, tables);
    let vertices = n.0;
    let k = all_faces(words, t, s.ccw, s.convex, floats, indices);
    let triangles = &*indices;
    fix_zero_normals(positions, &triangles[0..k], vertices, b.normals, words);
    clear_words(words);
    clear_floats(floats);
    Counts {
        vertices,
        indices: k,
    }
}
