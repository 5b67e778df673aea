// FORMAT 8.3, elevation_grid (coords): the points of a grid.
ghost use Rattle.std.specs.Prelude.{◌≡◌, ◌+◌, ◌*◌, ◌≤◌, ◌<◌, length};
ghost use Rattle.bits.specs.Bits.{entries};
ghost use Rattle.block.specs.Extents.{list_bytes};
ghost use Rattle.math.specs.Whole.{Exact};
ghost use Rattle.mesh.specs.Grid.{x_dimension, z_dimension, step_word, grid_points};
ghost use Rattle.lists.specs.Parts.{spliced};
ghost use Rattle.grid.specs.Listings.{row_points};

use crate::sided::GridBlock;
use bits::Words3;
use block::list_part;
use mesh::put_words3;

// The bits of n steps of a spacing.
fn step_word(spacing: f32, n: usize) -> u32
    requires { Exact n }
    ensures { result ≡ step_word spacing n }
{
    math::bits_of(spacing * math::whole_float(n))
}

impl<'a> GridBlock<'a> {
    // The words of the points of row j from place k on, with their heights copied. By row and column, so that none is divided into these.
    // Not parts' `put_words`, a row a point: grid does not stand on parts, which is of the solids. `put_each` would make each point three times.
    fn put_point_row(&self, heights: &[u8], work: &mut [u32], k: usize, j: usize)
        requires { (j < z_dimension self.now.header) × (x_dimension self.now.header * z_dimension self.now.header ≤ length (entries heights.now))
            × (k + x_dimension self.now.header * 3 ≤ length work.old) }
        ensures { work.new ≡ spliced work.old k (row_points self.now.header self.now.settings (entries heights.now) j) }
    {
        let xd = self.x_dimension();
        let s = self.settings;
        let z = step_word(s.z_spacing, j);
        let first = j * xd;
        for i in 0..xd {
            let p = Words3 {
                x: step_word(s.x_spacing, i),
                y: bits::entry(heights, first + i),
                z,
            };
            put_words3(work, k + i * 3, p);
        }
    }

    // The points' words from place `at` on, row by row. That the heights are there is asked here alone: neither the faces nor the textures read them.
    pub fn put_points(&self, work: &mut [u32], at: usize)
        requires { (x_dimension self.now.header * z_dimension self.now.header ≤ length (entries (list_bytes self.now.block.now self.now.header 3)))
            × (at + 3 * (x_dimension self.now.header * z_dimension self.now.header) ≤ length work.old) }
        ensures { work.new ≡ spliced work.old at (grid_points self.now.header self.now.settings (entries (list_bytes self.now.block.now self.now.header 3))) }
    {
        let w = self.x_dimension() * 3;
        let heights = list_part(self.block, self.header, 3);
        for j in 0..self.z_dimension() {
            self.put_point_row(heights, work, at + j * w, j);
        }
    }
}
