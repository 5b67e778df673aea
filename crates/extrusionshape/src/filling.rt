// FORMAT 8.4: the tables of an extrusion, as `build` reads them.
ghost use Rattle.std.specs.Prelude.{◌≡◌, ◌+◌, ◌*◌, ◌≤◌, length, take};
ghost use Rattle.block.specs.Settings.{settings_of};
ghost use Rattle.mesh.specs.Extrusion.{spine_count, section_count, extrusion_of, extrusion_points};
ghost use Rattle.extrusion.specs.Listings.{Planned};
ghost use Rattle.extrusion.specs.Corners.{Cornered};
ghost use Rattle.shaping.specs.Shared.{plain_widths};
ghost use Rattle.shaping.specs.Tabled.{Tabled, TexturesAt};
ghost use Rattle.extrusionshape.specs.Shape.{listings_for, ArcsAt, texture_of};

use block::Settings;
use build::Shared;
use extrusion::{Extruded, Textured, list_faces};
use soups::prepare;
use tables::Plan;

// The parameters of the cross-section and the spine, where texture is wanted, behind the normals.
fn arcs_where(x: &Extruded<'_>, t: Plan, floats: &mut [f32])
    requires { 3 * t.count + (section_count x.now.header + spine_count x.now.header) ≤ length floats.old }
    ensures { ArcsAt x.now.block.now x.now.header floats.new (3 * t.count) × (take (3 * t.count) floats.new ≡ take (3 * t.count) floats.old) }
{
    if x.header.need_uvs {
        x.put_arcs(floats, 3 * t.count);
    }
}

// All tables but that of texture. The floats behind the normals are free once these are made.
// Not one with the other shapes: what puts the points and the faces is this kind's own, and the contract needs what each of these calls asks and gives.
// The room in the floats stays a clause, as in soups: they are lent to be written.
pub fn put_tables(
    x: &Extruded<'_>,
    s: Settings,
    cap: usize,
    shared: Shared,
    t: Plan,
    work: &mut [u32],
    floats: &mut [f32],
)
    requires { Planned x.now.header cap (length work.old) t × (3 * t.count + (section_count x.now.header + spine_count x.now.header) ≤ length floats.old)
        × (3 * t.count + 6 * t.faces ≤ length floats.old) }
    ensures { Tabled (extrusion_points (extrusion_of x.now.block.now)) (listings_for x.now.header cap) shared s.crease t
        work.old work.new floats.old floats.new
        × ArcsAt x.now.block.now x.now.header floats.new (3 * t.count) }
{
    x.put_points(work, t.points);
    list_faces(x.header, cap, work, t);
    let supplied = shared.attributes.normals.is_some();
    prepare(work, t, supplied, shared.ccw, s.crease, floats);
    arcs_where(x, t, floats);
}

// `shared` is for the clauses alone: its widths are what the header's bit says.
// The table of texture, where texture is wanted. It stands behind the owners, as in facesetshape. The settings stand beside x, as sizes makes an `Extruded`
// without them.
pub fn texture_where(
    x: &Extruded<'_>,
    s: Settings,
    shared: Shared,
    t: Plan,
    floats: &[f32],
    work: &mut [u32],
)
    requires { (s ≡ settings_of x.now.block.now) × (shared.widths ≡ plain_widths x.now.header) × ArcsAt x.now.block.now x.now.header floats.now (3 * t.count)
        × (3 * t.count ≤ length floats.now) × Cornered x.now.header t (t.owners + t.count) work.old }
    ensures { TexturesAt shared (texture_of x.now.block.now) t work.old work.new }
{
    if x.header.need_uvs {
        let source = Textured {
            source: *x,
            settings: s,
            floats,
            at: 3 * t.count,
            fit: x.cap_fit(),
        };
        source.put_textures(work, t, t.owners + t.count);
    }
}
