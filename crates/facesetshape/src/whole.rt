// FORMAT 8.1, indexed_face_set: all of it.
ghost use Rattle.block.specs.declared.kind.Kind.TheVariants.{FaceSet};
ghost use Rattle.mesh.specs.FaceSet.{face_set_mesh};
ghost use Rattle.lent.specs.Lent.{Shaped, Cleared};
ghost use Rattle.lent.specs.Buffers.{slices_in, Same};
ghost use Rattle.sizes.specs.Called.{Called};
ghost use Rattle.sizes.specs.Known.{Counted};

use crate::filling::{put_tables, texture_where};
use crate::listed::SetBlock;
use bits::Words4;
use block::list_part;
use build::build;
use lent::{Buffers, Counts};
use shaping::listed_shared;
use sizes::{AcceptedBlock, Sizes};
use tables::plan_of;

// The mesh of an accepted face set of the sizes z, into the six slices; the working slices are left with zeros.
pub fn make_face_set(
    a: &AcceptedBlock<'_>,
    z: Sizes,
    missing: Words4,
    b: &mut Buffers<'_>,
) -> Counts
    requires { Called FaceSet a.now b.old × Counted a.now.block.now a.now.header z }
    ensures same { Same b.old b.new }
    ensures made { Shaped a.now.header (face_set_mesh missing a.now.block.now) (slices_in b.old) (slices_in b.new) result
        × Cleared b.old.words.now b.new.words.now b.old.floats.now b.new.floats.now }
{
    let block = a.block;
    let header = a.header;
    let t = plan_of(z.points, z.corners, z.faces, 0);
    let shared = listed_shared(header, missing, header.convex);
    let coord = list_part(block, header, 1);
    let set = SetBlock {
        block,
        coord,
        header,
        settings: a.settings,
    };
    put_tables(&set, shared, t, b.words, b.floats);
    texture_where(&set, shared, t, b.words);
    build(block, coord, shared, t, b)
}
