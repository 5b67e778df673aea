// The stretches of an index list: of fans and strips its runs, of triangles and quads all entries as one (FORMAT 6.4).
ghost use Rattle.std.specs.Prelude.{◌≡◌, ◌/◌, ◌-◌, length};
ghost use Rattle.std.specs.Iterator.{at_most};
ghost use Rattle.block.specs.declared.topology.Topology.TheVariants.{Triangles};
ghost use Rattle.primitives.specs.Stretches.{StretchPart};
ghost use Rattle.primitives.specs.Walk.{GivesStretch};

use block::{Topology, next_start, run_at};

// Triangles and quads: all entries that are left.
fn rest_at(list: &[u8], start: usize) -> &[u8]
    ensures { StretchPart Triangles list.now start result.now }
{
    let n = list.len() / 4;
    if start < n {
        return &list[4 * start..4 * n];
    }
    &list[0..0]
}

// The part of the list that holds the stretch that starts at entry `start`.
pub fn stretch_at(list: &[u8], g: Topology, start: usize) -> &[u8]
    ensures { StretchPart g list.now start result.now }
{
    match g {
        Topology::Triangles | Topology::Quads => rest_at(list, start),
        Topology::Fans | Topology::Strips => run_at(list, start),
    }
}

// The stretches of a list from entry `start` on, each with the entry that it starts at.
#[derive(Drop)]
pub struct Stretches<'a> {
    list: &'a [u8],
    g: Topology,
    start: usize,
}

pub fn stretches_in(list: &[u8], g: Topology) -> Stretches<'_>
    ensures { result ≡ record { list = list.entry; g = g; start = 0 } }
{
    Stretches { list, g, start: 0 }
}

impl<'a> Iterator for Stretches<'a> {
    type Item = (usize, &'a [u8]);

    ghost next_gives = { GivesStretch };

    ghost remaining = { λ s. at_most (length s.list.now / 4 - s.start) };

    // As of block::Runs: one iterator over both would have the part as a closure, with its own clause for each of these, to share seven lines.
    fn next(&mut self) -> Option<(usize, &'a [u8])> {
        let start = self.start;
        if start < self.list.len() / 4 {
            let part = stretch_at(self.list, self.g, start);
            self.start = next_start(start, part);
            return Some((start, part));
        }
        None
    }
}
