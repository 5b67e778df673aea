// FORMAT 17.9, cone (side): a triangle a slice, with vertices of its own.
ghost use Rattle.std.specs.Prelude.{◌≡◌, List, ℕ, ◌+◌, ◌*◌, ◌^◌, ◌≤◌, ◌<◌, IfSome, MatchOption, Float};
ghost use Rattle.math.specs.Vector.{y_axis, unit_of};
ghost use Rattle.mesh.specs.Normals.{or_else};
ghost use Rattle.parts.specs.Written.{Roomy, Written};
ghost use Rattle.cone.specs.Cone.{cone_normal, cone_foot, cone_apex, cone_verts, cone_tri, cone_side};

use crate::lengths::{Lengths, known_length, lengths_near};
use block::Pair;
use math::{V3, Y_AXIS};
use parts::{Builder, Round, Vert, put_words, ring_at, share};
use tables::narrow;

// What is scaled to length 1 for the normal at pair p.
#[tactic(auto, unfolding(crate::specs::Cone::cone_normal))]
fn cone_slope(pairs: &[f32], k: Round, p: usize) -> V3
    requires { p < 2 ^ 32 }
    ensures { or_else (unit_of result) y_axis ≡ cone_normal pairs.now k.r k.height p }
{
    let q = ring_at(pairs, p);
    V3 {
        x: q.x * k.height,
        y: k.r,
        z: q.z * k.height,
    }
}

// The normals of a slice: at its two places of the foot, and at the apex.
#[derive(Clone, Copy)]
pub struct SliceNormals {
    pub from: V3,
    pub to: V3,
    pub apex: V3,
}

// The roots taken together; the fourth stands for nothing.
fn three_normals(a: V3, b: V3, c: V3) -> SliceNormals
    ensures { (result.from ≡ or_else (unit_of a) y_axis)
        × (result.to ≡ or_else (unit_of b) y_axis)
        × (result.apex ≡ or_else (unit_of c) y_axis) }
{
    let k = math::normalize_four(a, b, c, a);
    let ua = k.a;
    let ub = k.b;
    let uc = k.c;
    SliceNormals {
        from: ua.unwrap_or(Y_AXIS),
        to: ub.unwrap_or(Y_AXIS),
        apex: uc.unwrap_or(Y_AXIS),
    }
}

// No root where the three are known.
fn scaled(known: Lengths, a: V3, b: V3, c: V3) -> SliceNormals
    ensures { (result.from ≡ or_else (unit_of a) y_axis)
        × (result.to ≡ or_else (unit_of b) y_axis)
        × (result.apex ≡ or_else (unit_of c) y_axis) }
{
    if let Some(x) = known_length(known, a)
        && let Some(y) = known_length(known, b)
        && let Some(z) = known_length(known, c)
    {
        return SliceNormals {
            from: math::unit_by(a, x).unwrap_or(Y_AXIS),
            to: math::unit_by(b, y).unwrap_or(Y_AXIS),
            apex: math::unit_by(c, z).unwrap_or(Y_AXIS),
        };
    }
    three_normals(a, b, c)
}

// Those of the slice whose pairs begin at p.
fn slice_normals(pairs: &[f32], known: Lengths, k: Round, p: usize) -> SliceNormals
    requires { p + 5 < 2 ^ 32 }
    ensures { (result.from ≡ cone_normal pairs.now k.r k.height (p + 2))
        × (result.to ≡ cone_normal pairs.now k.r k.height (p + 3))
        × (result.apex ≡ cone_normal pairs.now k.r k.height (p + 4)) }
{
    let a = cone_slope(pairs, k, p + 2);
    let b = cone_slope(pairs, k, p + 3);
    let c = cone_slope(pairs, k, p + 4);
    scaled(known, a, b, c)
}

// A vertex of the foot, its position from pair p.
#[tactic(auto, unfolding(crate::specs::Cone::cone_foot))]
fn cone_foot(pairs: &[f32], k: Round, p: usize, normal: V3, s: f32) -> Vert
    requires { p < 2 ^ 32 }
    ensures { (q : ℕ) → normal ≡ cone_normal pairs.now k.r k.height q
        → result ≡ cone_foot pairs.now k.r k.height p q s }
{
    let x = ring_at(pairs, p);
    let position = V3 {
        x: x.x * k.r,
        y: -(k.height / 2.0),
        z: x.z * k.r,
    };
    let st = Pair { s, t: 0.0 };
    Vert {
        position,
        normal,
        st,
    }
}

#[tactic(auto, unfolding(crate::specs::Cone::cone_apex))]
fn cone_apex(k: Round, normal: V3, s: f32) -> Vert
    ensures { (ps : List Float) (q : ℕ) → normal ≡ cone_normal ps k.r k.height q
        → result ≡ cone_apex ps k.r k.height q s }
{
    let position = V3 {
        x: 0.0,
        y: k.height / 2.0,
        z: 0.0,
    };
    let st = Pair { s, t: 1.0 };
    Vert {
        position,
        normal,
        st,
    }
}

// The three vertices of slice i.
fn cone_verts(pairs: &[f32], known: Lengths, k: Round, i: usize) -> [Vert; 3]
    requires { i < k.n }
    ensures { result ≡ cone_verts pairs.now k.r k.height k.n i }
{
    let s0 = share(i, k.n);
    let s1 = share(i + 1, k.n);
    let sm = (s0 + s1) / 2.0;
    let p = 5 * i;
    let u = slice_normals(pairs, known, k, p);
    let a = cone_foot(pairs, k, p, u.from, s0);
    let b = cone_foot(pairs, k, p + 1, u.to, s1);
    let apex = cone_apex(k, u.apex, sm);
    [a, b, apex]
}

// The triangle of slice i.
#[tactic(auto, unfolding(crate::specs::Cone::cone_tri))]
fn cone_tri(i: usize) -> [u32; 3]
    requires { i < 1024 }
    ensures { result ≡ cone_tri i }
{
    [narrow(3 * i), narrow(3 * i + 1), narrow(3 * i + 2)]
}

// The whole side.
fn put_side(pairs: &[f32], k: Round, b: &mut Builder<'_>)
    requires { Roomy (cone_side pairs.now k.r k.height k.n) 0 0 b.old }
    ensures { Written (cone_side pairs.now k.r k.height k.n) 0 0 b.old b.new }
{
    let known = lengths_near(k);
    b.put_verts(
        0,
        k.n,
        |i|
            requires { i < k.n }
            ensures { result ≡ cone_verts pairs.exit.now k.r k.height k.n i }
        { cone_verts(pairs, known, k, i) },
    );
    put_words(b.indices, 0, k.n, cone_tri);
}

// The side, if there is one. As in cylinder: one function of both would take the vertices, the triangles and their numbers as closures.
pub fn put_side_at(pairs: &[f32], side: Option<Round>, b: &mut Builder<'_>)
    requires { IfSome side (λ k. Roomy (cone_side pairs.now k.r k.height k.n) 0 0 b.old) }
    ensures { MatchOption side (b.new ≡ b.old) (λ k. Written (cone_side pairs.now k.r k.height k.n) 0 0 b.old b.new) }
{
    if let Some(k) = side {
        put_side(pairs, k, b);
    }
}
