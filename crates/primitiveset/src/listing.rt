// The kept primitives of a triangle, fan, strip or quad set, listed in one pass over the stretches of coordIndex (FORMAT 6.4).
ghost use Rattle.std.specs.Prelude.{◌≡◌, ◌+◌, ◌/◌, ◌<◌, length};
ghost use Rattle.bits.specs.Bits.{entries};
ghost use Rattle.lists.specs.Lists.{all_below};
ghost use Rattle.block.specs.Runs.{run_of};
ghost use Rattle.primitives.specs.Primitives.{primitive_of};
ghost use Rattle.primitives.specs.Kept.{width_of};
ghost use Rattle.primitives.specs.Stretches.{StretchPart};
ghost use Rattle.faceset.specs.Adding.{words_after, progress_after};
ghost use Rattle.primitiveset.specs.Listings.{uses_of};
ghost use Rattle.primitiveset.specs.Passing.{Planned, Fits, Passed, Turned, PrimitivesListed};

use block::{Topology, point_at};
use faceset::{Progress, START, put_face};
use primitives::{Source, count_in, place_of, stretches_in, width_of};
use tables::{Plan, narrow};

// Primitive `k` of the stretch x, which starts at entry `start`: listed as the next face if it is kept.
fn pass_primitive(
    x: Source<'_>,
    start: usize,
    k: usize,
    work: &mut [u32],
    t: Plan,
    p: Progress,
) -> Progress
    requires { Fits x.points x.g (length work.old) t start (entries x.list.now) k p }
    ensures { (work.new ≡ words_after (all_below x.entry.points (primitive_of x.entry.g (entries x.entry.list.now) k)) t p p.faces (uses_of x.entry.g (run_of start (entries x.entry.list.now)) k) work.old)
        × (result ≡ progress_after (all_below x.entry.points (primitive_of x.entry.g (entries x.entry.list.now) k)) p (width_of x.entry.g)) }
{
    let g = x.g;
    if x.is_present(k) {
        return put_face(
            work,
            t,
            p,
            p.faces,
            width_of(g),
            |i| narrow(point_at(x.list, place_of(g, k, i)).0),
            |i| narrow(start + place_of(g, k, i)),
        );
    }
    p
}

// The kept primitives of the stretch `part` of the list x, which starts at entry `start`.
fn pass_stretch<'a>(
    x: Source<'a>,
    part: &'a [u8],
    start: usize,
    work: &mut [u32],
    t: Plan,
    first: Progress,
) -> Progress
    requires { Planned x.points x.g x.list.now (length work.old) t × Passed x.points x.g x.list.now work.old t start first
        × (start < length x.list.now / 4) × StretchPart x.g x.list.now start part.now }
    ensures { Turned x.entry.points x.entry.g x.entry.list.now work.old work.new t (start + length part.now / 4 + 1) result }
{
    let n = count_in(x.g, part.len() / 4);
    let stretch = Source {
        list: part,
        points: x.points,
        g: x.g,
    };
    let mut p = first;
    for k in 0..n {
        p = pass_primitive(stretch, start, k, work, t, p);
    }
    p
}

// The kept primitives of coordIndex, to the tables of first corners, face numbers, and the corners' points and places. Three arguments, and no Source: the one
// caller would make it for this call alone.
pub fn list_primitives(coord: &[u8], points: u32, g: Topology, work: &mut [u32], t: Plan)
    requires { Planned points g coord.now (length work.old) t }
    ensures { PrimitivesListed points g coord.now t work.old work.new }
{
    let x = Source {
        list: coord,
        points,
        g,
    };
    let first = t.starts;
    work[first] = 0;
    let mut p = START;
    for (start, part) in stretches_in(coord, g) {
        p = pass_stretch(x, part, start, work, t, p);
    }
}
