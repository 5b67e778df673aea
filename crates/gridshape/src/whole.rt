// FORMAT 8.3, elevation_grid: all of it.
ghost use Rattle.block.specs.declared.kind.Kind.TheVariants.{Grid};
ghost use Rattle.mesh.specs.Grid.{grid_mesh};
ghost use Rattle.lent.specs.Lent.{Shaped, Cleared};
ghost use Rattle.lent.specs.Buffers.{slices_in, Same};
ghost use Rattle.sizes.specs.Called.{Called};

use crate::filling::{put_tables, texture_where};
use bits::Words4;
use build::build;
use grid::GridBlock;
use lent::{Buffers, Counts};
use shaping::listed_shared;
use sizes::{AcceptedBlock, Net, grid_sizes};
use tables::plan_of;

// The mesh of an accepted grid, into the six slices; the working slices are left with zeros. A grid is always convex, and has no coordIndex:
// an empty slice goes for it, as at `block::Attribute`.
pub fn make_grid(a: &AcceptedBlock<'_>, missing: Words4, b: &mut Buffers<'_>) -> Counts
    requires { Called Grid a.now b.old }
    ensures same { Same b.old b.new }
    ensures made { Shaped a.now.header (grid_mesh missing a.now.block.now) (slices_in b.old) (slices_in b.new) result
        × Cleared b.old.words.now b.new.words.now b.old.floats.now b.new.floats.now }
{
    let block = a.block;
    let header = a.header;
    let g = GridBlock {
        block,
        header,
        settings: a.settings,
    };
    let net = Net { header };
    let z = grid_sizes(&net);
    let quads = net.quads();
    let t = plan_of(z.points, z.corners, quads, 0);
    let shared = listed_shared(header, missing, true);
    let coord = &block[0..0];
    put_tables(&g, shared, t, b.words, b.floats);
    texture_where(&g, shared, t, b.words);
    build(block, coord, shared, t, b)
}
