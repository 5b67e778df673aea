// FORMAT 8.5: the tables of a triangle, fan, strip or quad set, as `build` reads them.
ghost use Rattle.std.specs.Prelude.{◌≡◌, ◌+◌, ◌*◌, ◌≤◌, length};
ghost use Rattle.bits.specs.Bits.{entries};
ghost use Rattle.block.specs.Extents.{list_bytes};
ghost use Rattle.mesh.specs.FaceSet.{point_count};
ghost use Rattle.primitiveset.specs.Passing.{Planned};
ghost use Rattle.shaping.specs.Tabled.{Tabled};
ghost use Rattle.primitiveshape.specs.Shape.{listings_in};

use block::{Topology, list_part};
use build::Shared;
use facesetshape::SetBlock;
use primitiveset::list_primitives;
use soups::prepare;
use tables::{Plan, put_points};

// All tables but that of texture.
// As in facesetshape but for one call. One function over that call as a closure (tried) needs a contract longer than the lines that it saves.
// The room in the floats stays a clause, as in soups: they are lent to be written.
pub fn put_tables(
    b: &SetBlock<'_>,
    g: Topology,
    shared: Shared,
    t: Plan,
    work: &mut [u32],
    floats: &mut [f32],
)
    requires { Planned (point_count b.now.header) g b.now.coord.now (length work.old) t × (3 * t.count + 6 * t.faces ≤ length floats.old) }
    ensures { Tabled (entries (list_bytes b.now.block.now b.now.header 0)) (listings_in g b.now.block.now b.now.header) shared b.now.settings.crease t
        work.old work.new floats.old floats.new }
{
    let h = b.header;
    let s = b.settings;
    let counts = h.counts;
    let list = list_part(b.block, h, 0);
    put_points(list, work, t.points, 3 * t.spots);
    list_primitives(b.coord, counts[0], g, work, t);
    let supplied = shared.attributes.normals.is_some();
    prepare(work, t, supplied, shared.ccw, s.crease, floats);
}
