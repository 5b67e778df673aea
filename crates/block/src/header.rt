// The header of a block (FORMAT 2.2). Bits beyond the block are read as 0.
ghost use Rattle.std.specs.Prelude.{◌≡◌, ◌*◌, ◌+◌, ◌≤◌, ◌<◌};
ghost use Rattle.bits.specs.Bits.{field};
ghost use Rattle.block.specs.Edition.{zeros_at};
ghost use Rattle.block.specs.Header.{flag_at, count_at, counts_of, Narrow, header_of};

use crate::edition::{Edition, edition_of};
use crate::kind::{Kind, kind_of};

#[derive(Clone, Copy)]
pub struct Header {
    // The number that stands in the block, and no Option of an Edition: a block of an edition that is not known is read as one of edition 1 before it
    // is refused (FORMAT 2.2), so that whoever reads would have to say edition 1 for none once more.
    pub edition: u32,
    pub kind: Kind,
    pub ccw: bool,
    pub convex: bool,
    pub solid: bool,
    pub color_per_vertex: bool,
    pub normal_per_vertex: bool,
    pub need_uvs: bool,
    // Whether the transform in `Settings` counts. `read_settings` makes no Option of it: the twelve words are read alike whatever the bits are (FORMAT 2.3).
    pub transformed: bool,
    pub colors: bool,
    pub alpha: bool,
    pub normals: bool,
    pub texture_points: bool,
    pub begin_cap: bool,
    pub end_cap: bool,
    pub counts: [u32; 8],
    pub zeros: u32,
}

// A single bit.
fn flag(block: &[u8], at: u32) -> bool
    ensures { result ≡ flag_at block.now at }
{
    bits::field_at(block, at, 1) == 1
}

// Edition, kind and thirteen single bits stand before the counts.
pub const COUNTS_AT: u32 = 4 + 3 + 13;

// The bits of a block from the counts on, as an edition has them.
#[derive(Clone, Copy)]
struct Counts<'a> {
    block: &'a [u8],
    edition: Edition,
    ghost narrow: { Narrow edition },
}

impl<'a> Counts<'a> {
    // Count `k`.
    fn count_at(&self, k: u32) -> u32
        requires { k < 8 }
        ensures { result ≡ count_at self.now.block.now self.now.edition.count_bits k }
    {
        let width = self.edition.count_bits;
        bits::field_at(self.block, COUNTS_AT + k * width, width)
    }

    // Eight calls, and no `from_fn`: its closure is given a usize, which it would cast, and has to show of it that `count_at` may be asked.
    fn counts(&self) -> [u32; 8]
        ensures { result ≡ counts_of self.now.block.now self.now.edition.count_bits }
    {
        [
            self.count_at(0),
            self.count_at(1),
            self.count_at(2),
            self.count_at(3),
            self.count_at(4),
            self.count_at(5),
            self.count_at(6),
            self.count_at(7),
        ]
    }

    // The zero bits after the counts.
    fn zeros(&self) -> u32
        ensures { result ≡ field self.now.block.now (zeros_at self.now.edition) self.now.edition.zero_bits }
    {
        let e = self.edition;
        bits::field_at(self.block, COUNTS_AT + e.counts * e.count_bits, e.zero_bits)
    }
}

pub fn read_header(block: &[u8]) -> Header
    ensures { result ≡ header_of block.now }
{
    let edition = bits::field_at(block, 0, 4);
    let counts = Counts {
        block,
        edition: edition_of(edition),
    };
    Header {
        edition,
        kind: kind_of(bits::field_at(block, 4, 3)),
        ccw: flag(block, 7),
        convex: flag(block, 8),
        solid: flag(block, 9),
        color_per_vertex: flag(block, 10),
        normal_per_vertex: flag(block, 11),
        need_uvs: flag(block, 12),
        transformed: flag(block, 13),
        colors: flag(block, 14),
        alpha: flag(block, 15),
        normals: flag(block, 16),
        texture_points: flag(block, 17),
        begin_cap: flag(block, 18),
        end_cap: flag(block, 19),
        counts: counts.counts(),
        zeros: counts.zeros(),
    }
}
