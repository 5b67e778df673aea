// Where the corners of a primitive stand in its stretch, and whether they name points (FORMAT 6.4).
ghost use Rattle.std.specs.Prelude.{◌≡◌, ◌-◌, ◌^◌, ◌<◌, get_or};
ghost use Rattle.bits.specs.Bits.{entries};
ghost use Rattle.block.specs.declared.topology.Topology.TheVariants.{Fans, Strips};
ghost use Rattle.lists.specs.Lists.{all_below};
ghost use Rattle.primitives.specs.Primitives.{primitive_count, places_of, primitive_of};
ghost use Rattle.primitives.specs.Kept.{width_of};

use crate::source::Source;
use block::{Topology, point_at};

// How many corners each primitive has.
pub fn width_of(g: Topology) -> usize
    ensures { result ≡ width_of g }
{
    match g {
        Topology::Triangles | Topology::Fans | Topology::Strips => 3,
        Topology::Quads => 4,
    }
}

// How many primitives a stretch of n entries has: of fans and strips, one more for each entry from the third on.
pub fn count_in(g: Topology, n: usize) -> usize
    ensures { result ≡ primitive_count g n }
{
    match g {
        Topology::Triangles => n / 3,
        Topology::Fans | Topology::Strips => n.saturating_sub(2),
        Topology::Quads => n / 4,
    }
}

// `k < 2 ^ 61` is asked here one by one, and is no ghost field of a primitive: `kept_here` and primitiveset would build a primitive for each k of a range,
// and the closure of `kept_here`, which has no clause now, would need the bound as one.
// Every triangle of a fan has its first entry.
fn fan_place(k: usize, i: usize) -> usize
    requires { (i < 3) × (k < 2 ^ 61) }
    ensures { result ≡ get_or (places_of Fans k) i 0 }
{
    if i == 0 {
        return 0;
    }
    k + i
}

// Every second triangle of a strip is turned.
fn strip_place(k: usize, i: usize) -> usize
    requires { (i < 3) × (k < 2 ^ 61) }
    ensures { result ≡ get_or (places_of Strips k) i 0 }
{
    if i < 2 {
        return k + (k + i) % 2;
    }
    k + i
}

// The place of corner i of primitive k in its stretch.
pub fn place_of(g: Topology, k: usize, i: usize) -> usize
    requires { (i < width_of g) × (k < 2 ^ 61) }
    ensures { result ≡ get_or (places_of g k) i 0 }
{
    match g {
        Topology::Triangles => 3 * k + i,
        Topology::Fans => fan_place(k, i),
        Topology::Strips => strip_place(k, i),
        Topology::Quads => 4 * k + i,
    }
}

impl<'a> Source<'a> {
    // Whether every corner of primitive k of the stretch names a point.
    pub fn is_present(&self, k: usize) -> bool
        requires { k < 2 ^ 61 }
        ensures { result ≡ all_below self.now.points (primitive_of self.now.g (entries self.now.list.now) k) }
    {
        let points = self.points as usize;
        (0..width_of(self.g)).all(|i| point_at(self.list, place_of(self.g, k, i)).0 < points)
    }
}
