// The mesh of an accepted block, by its kind (FORMAT 8).
ghost use Rattle.mesh.specs.Result.{block_mesh};
ghost use Rattle.lent.specs.Lent.{Shaped, Cleared};
ghost use Rattle.lent.specs.Buffers.{slices_in, Same};
ghost use Rattle.sizes.specs.Called.{Called};
ghost use Rattle.sizes.specs.Known.{Counted};

use bits::Words4;
use block::Kind;
use extrusionshape::make_extrusion;
use facesetshape::make_face_set;
use gridshape::make_grid;
use lent::{Buffers, Counts};
use lineshape::make_line_set;
use primitiveshape::make_primitives;
use sizes::{AcceptedBlock, Sizes};

// FORMAT 2.2: by kind.
pub fn make_kind(a: &AcceptedBlock<'_>, z: Sizes, missing: Words4, b: &mut Buffers<'_>) -> Counts
    requires { Called a.now.header.kind a.now b.old × Counted a.now.block.now a.now.header z }
    ensures same { Same b.old b.new }
    ensures made { Shaped a.now.header (block_mesh missing a.now.block.now) (slices_in b.old) (slices_in b.new) result
        × Cleared b.old.words.now b.new.words.now b.old.floats.now b.new.floats.now }
{
    let h = a.header;
    let kind = h.kind;
    match kind {
        Kind::FaceSet => make_face_set(a, z, missing, b),
        Kind::LineSet => make_line_set(a.block, h, z.corners, missing, b),
        Kind::Grid => make_grid(a, missing, b),
        Kind::Extrusion => make_extrusion(a, b),
        Kind::Primitives(g) => make_primitives(a, g, z, missing, b),
    }
}
