// FORMAT 17.7, sphere: the vertices, row by row.
ghost use Rattle.std.specs.Prelude.{◌≡◌, [], ◌∷◌, ◌+◌, ◌*◌, ◌≤◌};
ghost use Rattle.lists.specs.Lists.{flat};
ghost use Rattle.lists.specs.Loops.{tab};
ghost use Rattle.parts.specs.Building.{Room, Pushes};
ghost use Rattle.sphere.specs.Sphere.{sphere_vert, sphere_row};

use crate::ball::Ball;
use block::Pair;
use math::V3;
use parts::{Builder, Vert, cosine_at, ring_at, share, sine_at};

// Vertex i of row j.
#[tactic(auto, unfolding(crate::specs::Sphere::sphere_vert))]
fn sphere_vert(o: Ball, pairs: &[f32], j: usize, i: usize) -> Vert
    requires { (j ≤ o.k) × (i ≤ o.n) }
    ensures { result ≡ sphere_vert o.r o.n o.k pairs.now j i }
{
    let phi = j * (o.n + 2);
    let sine = sine_at(pairs, phi);
    let q = ring_at(pairs, phi + 1 + i);
    let normal = V3 {
        x: q.x * sine,
        y: -cosine_at(pairs, phi),
        z: q.z * sine,
    };
    let position = math::scale(normal, o.r);
    let st = Pair {
        s: share(i, o.n),
        t: share(j, o.k),
    };
    Vert {
        position,
        normal,
        st,
    }
}

// Row by row: with one closure for all rows each vertex would find its row by a division.
fn put_row(o: Ball, pairs: &[f32], j: usize, b: &mut Builder<'_>)
    requires { (j ≤ o.k) × Room (j * (o.n + 1) + (o.n + 1)) b.old }
    ensures { Pushes (j * (o.n + 1)) (sphere_row o.r o.n o.k pairs.now j) b.old b.new }
{
    b.put_verts(
        j * (o.n + 1),
        o.n + 1,
        |i|
            requires { (j ≤ o.k) × (i ≤ o.n) }
            ensures { result ≡ sphere_vert o.r o.n o.k pairs.exit.now j i ∷ [] }
        { [sphere_vert(o, pairs, j, i)] },
    );
}

// All rows.
pub fn put_rows(o: Ball, pairs: &[f32], b: &mut Builder<'_>)
    requires { Room (0 + (o.k + 1) * (o.n + 1)) b.old }
    ensures { Pushes 0 (flat (tab (sphere_row o.r o.n o.k pairs.now) (o.k + 1) 0)) b.old b.new }
{
    for j in 0..o.k + 1 {
        put_row(o, pairs, j, b);
    }
}
