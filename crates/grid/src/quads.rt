// FORMAT 8.3, elevation_grid (quad): the quads of a grid, as tables.
ghost use Rattle.std.specs.Prelude.{◌≡◌, ℕ, [], ◌∷◌, ◌+◌, ◌-◌, ◌*◌, ◌≤◌, ◌<◌, length};
ghost use Rattle.mesh.specs.Grid.{x_dimension, z_dimension};
ghost use Rattle.mesh.specs.Quads.{quad};
ghost use Rattle.mesh.specs.Sizes.{quad_count};
ghost use Rattle.lists.specs.Loops.{tab};
ghost use Rattle.lists.specs.Parts.{spliced};
ghost use Rattle.tables.specs.Listed.{Beside, Listed};
ghost use Rattle.grid.specs.Sides.{Planned};
ghost use Rattle.grid.specs.Listings.{corner_point, quad_row, grid_listings};

use crate::sided::GridBlock;
use lists::put_all;
use mesh::point_at;
use tables::{Plan, narrow, put_each};

impl<'a> GridBlock<'a> {
    // The points of the quad in column i of row j, from place k on.
    fn put_quad(&self, work: &mut [u32], k: usize, i: usize, j: usize)
        requires { (i + 1 < x_dimension self.now.header) × (j + 1 < z_dimension self.now.header) × (k + 4 ≤ length work.old) }
        ensures { work.new ≡ spliced work.old k (quad (λ (a b : ℕ). a + b * x_dimension self.now.header) i j) }
    {
        let xd = self.x_dimension();
        let a = point_at(xd, j, i).0;
        let b = point_at(xd, j + 1, i).0;
        put_all(
            work,
            k,
            &[narrow(a), narrow(b), narrow(b + 1), narrow(a + 1)],
        );
    }

    // The points of the quads of row j, from place k on.
    fn put_corner_row(&self, work: &mut [u32], k: usize, j: usize)
        requires { (j + 1 < z_dimension self.now.header) × (k + (x_dimension self.now.header - 1) * 4 ≤ length work.old) }
        ensures { work.new ≡ spliced work.old k (quad_row (λ (p : ℕ). p ∷ []) (x_dimension self.now.header) j) }
    {
        for i in 0..self.x_dimension() - 1 {
            self.put_quad(work, k + i * 4, i, j);
        }
    }

    // The points of all corners, from place k on.
    fn put_corners(&self, work: &mut [u32], k: usize)
        requires { k + 4 * quad_count self.now.header ≤ length work.old }
        ensures { work.new ≡ spliced work.old k (tab (corner_point (x_dimension self.now.header)) (4 * quad_count self.now.header) 0) }
    {
        let w = (self.x_dimension() - 1) * 4;
        for j in 0..self.z_dimension() - 1 {
            self.put_corner_row(work, k + j * w, j);
        }
    }

    // Quad q has number q and the corners from 4 * q on; a corner's place is its point.
    pub fn list_faces(&self, work: &mut [u32], t: Plan)
        requires { Planned self.now.header (length work.old) t }
        ensures { Beside t work.old work.new × Listed work.new t (grid_listings (x_dimension self.now.header) (z_dimension self.now.header)) }
    {
        self.put_corners(work, t.corners);
        put_each(work, t.starts, t.faces + 1, |j| narrow(4 * j));
        work.copy_within(t.corners..t.corners + t.count, t.places);
        put_each(work, t.numbers, t.faces, |j| narrow(j));
    }
}
