// FORMAT 2.2, 3: the block of a grid that was not refused for its sides.
ghost use Rattle.std.specs.Prelude.{◌≡◌};
ghost use Rattle.mesh.specs.Grid.{x_dimension, z_dimension};
ghost use Rattle.grid.specs.Sides.{Sides};

use block::{Header, Settings};
use tables::wide;

// The block, its header and its settings: each side is 2 or more, and there are no more points than the tables hold.
#[derive(Clone, Copy)]
pub struct GridBlock<'a> {
    pub block: &'a [u8],
    pub header: Header,
    pub settings: Settings,
    ghost sides: { Sides header },
}

// By two names, as the definitions have them; not by the Net of sizes, on which grid does not stand.
impl<'a> GridBlock<'a> {
    pub fn x_dimension(&self) -> usize
        ensures { result ≡ x_dimension self.now.header }
    {
        let counts = self.header.counts;
        wide(counts[0])
    }

    pub fn z_dimension(&self) -> usize
        ensures { result ≡ z_dimension self.now.header }
    {
        let counts = self.header.counts;
        wide(counts[1])
    }
}
