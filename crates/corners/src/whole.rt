// The vertices of all corners (FORMAT 11; PolyMesh::build, dedup).
ghost use Rattle.std.specs.Prelude.{◌<◌, length};
ghost use Rattle.vertices.specs.Places.{store_in, SameSlices};
ghost use Rattle.vertices.specs.Adding as adding;
ghost use Rattle.corners.specs.Laid.{Laid, chains_of};
ghost use Rattle.corners.specs.Corner.{point_at};
ghost use Rattle.corners.specs.Given.{lent_in};
ghost use Rattle.corners.specs.Numbered.{Numbered};
ghost use Rattle.corners.specs.Cornered.{Ready, Cornered};

use crate::attributed::Attributed;
use crate::attributes::Given;
use crate::key::Corner;
use crate::laid::CornerTables;
use block::{Attribute, CornerNumber, VertexNumber};
use tables::{fill, narrow};
use vertices::{Chains, VertexSlices, Widths, count_after, vertex};

// Corner c, with the words of its key, gets its vertex number, where n vertices are made. How many there are then.
fn number_corner(
    slices: &mut VertexSlices<'_>,
    work: &mut [u32],
    w: Widths,
    t: CornerTables,
    n: VertexNumber,
    c: CornerNumber,
    key: &[u32],
) -> VertexNumber
    requires { adding.Ready w (chains_of t) (store_in slices.old) work.old n.0 (point_at work.old t c.0) key.now
        × Laid t (length work.old) × (c.0 < t.count) }
    ensures same { SameSlices slices.old slices.new }
    ensures numbered { Numbered w t n.0 c.0 key.now (store_in slices.old) work.old (store_in slices.new) work.new result.0 }
{
    // By hand: here alone chains are made of the tables.
    let chains = Chains {
        points: t.points,
        spots: t.spots,
        buckets: t.buckets,
        heads: t.heads,
        nexts: t.nexts,
    };
    let corner = Corner {
        work: &*work,
        tables: &t,
        c,
    };
    let point = corner.point();
    let r = vertex(slices, work, w, chains, n, point, key);
    let at = t.named + c.0;
    work[at] = narrow(r.0);
    count_after(n, r)
}

// All corners in order. How many vertices there are.
// Not over `lent::Buffers`: this writes six of its eight slices, and would have to promise that floats and indices stay.
pub fn all_vertices(
    g: &Given<'_>,
    slices: &mut VertexSlices<'_>,
    work: &mut [u32],
    w: Widths,
    t: CornerTables,
) -> VertexNumber
    requires { Ready (lent_in g.now) w work.old t (store_in slices.old) }
    ensures same { SameSlices slices.old slices.new }
    ensures cornered { Cornered (lent_in g.now) g.now.attributes w t (store_in slices.old) work.old (store_in slices.new) work.new result.0 }
{
    fill(work, t.heads, t.buckets, 0);
    let a = g.attributes;
    let normals = a.normals.unwrap_or(a.colours);
    let given = Attributed {
        given: g,
        normals: Attribute::of(g.block, g.coord, normals),
        colours: Attribute::of(g.block, g.coord, a.colours),
    };
    let mut n = VertexNumber(0);
    for i in 0..t.count {
        let c = CornerNumber(i);
        let corner = Corner {
            work: &*work,
            tables: &t,
            c,
        };
        let key = corner.key(&given, w);
        n = number_corner(slices, work, w, t, n, c, &key);
    }
    n
}
