// FORMAT 8.5: all of it.
ghost use Rattle.block.specs.declared.kind.Kind.TheVariants.{Primitives};
ghost use Rattle.mesh.specs.Primitives.{primitive_mesh};
ghost use Rattle.lent.specs.Lent.{Shaped, Cleared};
ghost use Rattle.lent.specs.Buffers.{slices_in, Same};
ghost use Rattle.sizes.specs.Called.{Called};
ghost use Rattle.sizes.specs.Known.{Counted};

use crate::filling::put_tables;
use bits::Words4;
use block::{Topology, list_part};
use build::build;
use facesetshape::{SetBlock, texture_where};
use lent::{Buffers, Counts};
use shaping::listed_shared;
use sizes::{AcceptedBlock, Sizes};
use tables::plan_of;

// The mesh of an accepted set of primitives of the sizes z, into the six slices; the working slices are left with zeros. A quad is split as a fan, whatever the
// convex bit says.
// As make_face_set but for the convex bit and what is listed: one function for both would take all that is proved of the list in its contract.
pub fn make_primitives(
    a: &AcceptedBlock<'_>,
    g: Topology,
    z: Sizes,
    missing: Words4,
    b: &mut Buffers<'_>,
) -> Counts
    requires { Called (Primitives g) a.now b.old × Counted a.now.block.now a.now.header z }
    ensures same { Same b.old b.new }
    ensures made { Shaped a.now.header (primitive_mesh missing g a.now.block.now) (slices_in b.old) (slices_in b.new) result
        × Cleared b.old.words.now b.new.words.now b.old.floats.now b.new.floats.now }
{
    let block = a.block;
    let header = a.header;
    let t = plan_of(z.points, z.corners, z.faces, 0);
    let shared = listed_shared(header, missing, true);
    let coord = list_part(block, header, 1);
    let set = SetBlock {
        block,
        coord,
        header,
        settings: a.settings,
    };
    put_tables(&set, g, shared, t, b.words, b.floats);
    texture_where(&set, shared, t, b.words);
    build(block, coord, shared, t, b)
}
