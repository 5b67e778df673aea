// FORMAT 4: the points of a grid or an extrusion, and the quads between them.
ghost use Rattle.std.specs.Prelude.{◌≡◌, ◌*◌, ◌≤◌, get_or};
ghost use Rattle.mesh.specs.Sizes.{quad_count};
ghost use Rattle.tables.specs.Layout.{most};
ghost use Rattle.sizes.specs.Known.{Sides};

use block::Header;
use tables::wide;

// Factors of 32 bits, so the product fits.
pub fn product(a: u32, b: u32) -> usize
    ensures { result ≡ a * b }
{
    wide(a) * wide(b)
}

// By its header, whose first two counts are the sides.
#[derive(Clone, Copy)]
pub struct Net {
    pub header: Header,
    ghost sides: { Sides header },
}

impl Net {
    pub fn points(&self) -> usize
        ensures { result ≡ get_or self.now.header.counts 0 0 * get_or self.now.header.counts 1 0 }
    {
        let n = self.header.counts;
        product(n[0], n[1])
    }

    pub fn quads(&self) -> usize
        ensures { (result ≡ quad_count self.now.header) × (result ≤ most * most) }
    {
        let n = self.header.counts;
        product(n[0] - 1, n[1] - 1)
    }
}
