// FORMAT 8.1: the tables of a face set, as `build` reads them.
ghost use Rattle.std.specs.Prelude.{◌≡◌, false, ◌+◌, ◌*◌, ◌≤◌, length};
ghost use Rattle.bits.specs.Bits.{entries};
ghost use Rattle.block.specs.Extents.{list_bytes};
ghost use Rattle.mesh.specs.FaceSet.{point_count};
ghost use Rattle.mesh.specs.Texture.{fit_of};
ghost use Rattle.tables.specs.Soups.{points_in};
ghost use Rattle.faceset.specs.Passing.{Planned};
ghost use Rattle.shaping.specs.Tabled.{Tabled, TexturesAt};
ghost use Rattle.facesetshape.specs.Shape.{face_set_listings, face_set_texture, Placed};

use crate::listed::SetBlock;
use block::{Header, list_part};
use build::Shared;
use faceset::list_faces;
use mesh::Fit;
use soups::prepare;
use tables::{Plan, points_of, put_points};
use texture::{Source, fit_of};

// All tables but that of texture. Not one with primitiveshape's, for the reason that stands there.
// The room in the floats stays a clause, as in soups: they are lent to be written.
pub fn put_tables(b: &SetBlock<'_>, shared: Shared, t: Plan, work: &mut [u32], floats: &mut [f32])
    requires { Planned (point_count b.now.header) b.now.coord.now (length work.old) t × (3 * t.count + 6 * t.faces ≤ length floats.old) }
    ensures { Tabled (entries (list_bytes b.now.block.now b.now.header 0)) (face_set_listings b.now.block.now b.now.header) shared b.now.settings.crease t
        work.old work.new floats.old floats.new }
{
    let h = b.header;
    let s = b.settings;
    let counts = h.counts;
    let list = list_part(b.block, h, 0);
    put_points(list, work, t.points, 3 * t.spots);
    list_faces(b.coord, counts[0], work, t);
    let supplied = shared.attributes.normals.is_some();
    prepare(work, t, supplied, shared.ccw, s.crease, floats);
}

// FORMAT 7.4: how the points in the tables fit. Where texture points are listed nothing reads it, and the points are not looked at.
fn fit_in(work: &[u32], t: Plan, h: Header) -> Fit
    requires { t.points + 3 * t.spots ≤ length work.now }
    ensures { h.texture_points ≡ false → result ≡ fit_of (points_in work.now t) t.spots }
{
    if h.texture_points {
        return fit_of(&work[0..0]);
    }
    fit_of(points_of(work, &t))
}

// The table of texture, where texture is made. Not one with gridshape's, for the reason there.
// The textures stand behind the owners: a method of Plan for that place would ask that the sum fits, which each of its three callers would have to show, and
// no clause would be shorter.
pub fn texture_where(b: &SetBlock<'_>, shared: Shared, t: Plan, work: &mut [u32])
    requires { Placed b.now.block.now b.now.header t work.old }
    ensures { TexturesAt shared (face_set_texture b.now.block.now b.now.header b.now.settings) t work.old work.new }
{
    let widths = shared.widths;
    if widths.texture == 0 {
        return;
    }
    let source = Source::of(b.block, b.coord, b.header, b.settings);
    let fit = fit_in(work, t, b.header);
    source.put_textures(fit, work, t, t.owners + t.count);
}
