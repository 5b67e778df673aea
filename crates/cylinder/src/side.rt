// FORMAT 17.8, cylinder (side): two vertices at each pair, two triangles a slice.
ghost use Rattle.std.specs.Prelude.{◌≡◌, ◌+◌, ◌*◌, ◌≤◌, ◌<◌, IfSome, MatchOption};
ghost use Rattle.parts.specs.Round.{half};
ghost use Rattle.parts.specs.Written.{Roomy, Written};
ghost use Rattle.cylinder.specs.Cylinder.{side_vert, side_verts, side_tris, side_part};

use block::Pair;
use math::V3;
use parts::{Builder, Round, Vert, put_words, ring_at, share};
use tables::narrow;

// The vertex at pair i, at height y, with t.
#[tactic(auto, unfolding(crate::specs::Cylinder::side_vert))]
fn side_vert(pairs: &[f32], k: Round, i: usize, y: f32, t: f32) -> Vert
    requires { i ≤ k.n }
    ensures { result ≡ side_vert pairs.now k.r k.n i y t }
{
    let q = ring_at(pairs, i);
    let position = V3 {
        x: q.x * k.r,
        y,
        z: q.z * k.r,
    };
    let normal = V3 {
        x: q.x,
        y: 0.0,
        z: q.z,
    };
    let s = share(i, k.n);
    let st = Pair { s, t };
    Vert {
        position,
        normal,
        st,
    }
}

// The two at pair i.
#[tactic(auto, unfolding(crate::specs::Cylinder::side_verts))]
fn side_verts(pairs: &[f32], k: Round, i: usize) -> [Vert; 2]
    requires { i ≤ k.n }
    ensures { result ≡ side_verts pairs.now k.r (half k) k.n i }
{
    let h = k.height / 2.0;
    let below = side_vert(pairs, k, i, -h, 0.0);
    let above = side_vert(pairs, k, i, h, 1.0);
    [below, above]
}

// The two triangles of slice i.
#[tactic(auto, unfolding(crate::specs::Cylinder::side_tris))]
fn side_tris(i: usize) -> [u32; 6]
    requires { i < 1024 }
    ensures { result ≡ side_tris i }
{
    let a = narrow(2 * i);
    let b = narrow(2 * i + 2);
    let c = narrow(2 * i + 3);
    let d = narrow(2 * i + 1);
    [a, b, c, a, c, d]
}

// The whole side.
fn put_side(pairs: &[f32], k: Round, b: &mut Builder<'_>)
    requires { Roomy (side_part pairs.now k.r (half k) k.n) 0 0 b.old }
    ensures { Written (side_part pairs.now k.r (half k) k.n) 0 0 b.old b.new }
{
    b.put_verts(
        0,
        k.n + 1,
        |i|
            requires { i ≤ k.n }
            ensures { result ≡ side_verts pairs.exit.now k.r (half k) k.n i }
        { side_verts(pairs, k, i) },
    );
    put_words(b.indices, 0, k.n, side_tris);
}

// The side, if there is one. As in cone: one function of both would take the vertices, the triangles and their numbers as closures.
pub fn put_side_at(pairs: &[f32], side: Option<Round>, b: &mut Builder<'_>)
    requires { IfSome side (λ k. Roomy (side_part pairs.now k.r (half k) k.n) 0 0 b.old) }
    ensures { MatchOption side (b.new ≡ b.old) (λ k. Written (side_part pairs.now k.r (half k) k.n) 0 0 b.old b.new) }
{
    if let Some(k) = side {
        put_side(pairs, k, b);
    }
}
