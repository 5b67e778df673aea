// FORMAT 8.3: the tables of a grid, as `build` reads them.
ghost use Rattle.std.specs.Prelude.{◌+◌, ◌*◌, ◌≤◌, length};
ghost use Rattle.bits.specs.Bits.{entries};
ghost use Rattle.block.specs.Extents.{list_bytes};
ghost use Rattle.mesh.specs.Grid.{x_dimension, z_dimension, grid_points};
ghost use Rattle.tables.specs.Listed.{Listed};
ghost use Rattle.grid.specs.Sides.{Planned};
ghost use Rattle.grid.specs.Listings.{grid_listings};
ghost use Rattle.shaping.specs.Tabled.{Tabled, TexturesAt};
ghost use Rattle.gridshape.specs.Shape.{texture_of};

use build::Shared;
use grid::GridBlock;
use soups::prepare;
use tables::Plan;

// All tables but that of texture.
// Not one with the other shapes: what puts the points and the faces is this kind's own, and the contract needs what each of these calls asks and gives.
// The room in the floats stays a clause, as in soups: they are lent to be written.
pub fn put_tables(g: &GridBlock<'_>, shared: Shared, t: Plan, work: &mut [u32], floats: &mut [f32])
    requires { Planned g.now.header (length work.old) t × (x_dimension g.now.header * z_dimension g.now.header ≤ length (entries (list_bytes g.now.block.now g.now.header 3)))
        × (3 * t.count + 6 * t.faces ≤ length floats.old) }
    ensures { Tabled (grid_points g.now.header g.now.settings (entries (list_bytes g.now.block.now g.now.header 3))) (grid_listings (x_dimension g.now.header) (z_dimension g.now.header)) shared g.now.settings.crease t
        work.old work.new floats.old floats.new }
{
    g.put_points(work, t.points);
    g.list_faces(work, t);
    let supplied = shared.attributes.normals.is_some();
    let s = g.settings;
    prepare(work, t, supplied, shared.ccw, s.crease, floats);
}

// The table of texture, where texture is made. It stands behind the owners, as in facesetshape. Not one with facesetshape's, for the reason at `put_tables`: a
// shared one would take `put_textures` as a closure, with what it asks.
pub fn texture_where(g: &GridBlock<'_>, shared: Shared, t: Plan, work: &mut [u32])
    requires listed { Listed work.old t (grid_listings (x_dimension g.now.header) (z_dimension g.now.header)) }
    requires room { t.owners + t.count + 2 * t.count ≤ length work.old }
    ensures { TexturesAt shared (texture_of g.now.block.now g.now.header g.now.settings) t work.old work.new }
{
    let widths = shared.widths;
    if widths.texture == 0 {
        return;
    }
    g.put_textures(work, t.owners + t.count);
}
