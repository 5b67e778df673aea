// FORMAT 19.2: Möller and Trumbore's test of 1997 ("Fast, Minimum Storage Ray/Triangle
// Intersection") in the order of their code. All is worked out before anything is tested: without
// branches between them, the compiler tests several paths side by side.
ghost use Rattle.std.specs.Prelude.{◌≡◌};
ghost use Rattle.std.specs.Float.Ieee.{le};
ghost use Rattle.math.specs.Vector.{zero_f, one_f};
ghost use Rattle.paths.specs.Intersect.{crossing_of, is_hit, hits};

use math::{V3, cross, dot, sub};

// Where it starts, and where it leads to less that.
#[derive(Clone, Copy)]
pub struct Ray {
    pub orig: V3,
    pub dir: V3,
}

// A corner, and from there to the second and to the third.
#[derive(Clone, Copy)]
pub struct Triangle {
    pub vert0: V3,
    pub edge1: V3,
    pub edge2: V3,
}

// The determinant, the place u, v in the triangle and the place t on the ray.
#[derive(Clone, Copy)]
pub struct Crossing {
    pub det: f32,
    pub u: f32,
    pub v: f32,
    pub t: f32,
}

fn cross_triangle(ray: Ray, tri: Triangle) -> Crossing
    ensures { result ≡ crossing_of ray tri }
{
    let pvec = cross(ray.dir, tri.edge2);
    let det = dot(tri.edge1, pvec);
    let inv_det = 1.0 / det;
    let tvec = sub(ray.orig, tri.vert0);
    let u = dot(tvec, pvec) * inv_det;
    let qvec = cross(tvec, tri.edge1);
    let v = dot(ray.dir, qvec) * inv_det;
    let t = dot(tri.edge2, qvec) * inv_det;
    Crossing { det, u, v, t }
}

// Not of a NaN.
fn is_from_zero(x: f32) -> bool
    ensures { result ≡ le zero_f x }
{
    x >= 0.0
}

// Not of a NaN.
fn is_to_one(x: f32) -> bool
    ensures { result ≡ le x one_f }
{
    x <= 1.0
}

fn is_hit(c: Crossing) -> bool
    ensures { result ≡ is_hit c }
{
    (c.det != 0.0)
        & is_from_zero(c.u)
        & is_to_one(c.u)
        & is_from_zero(c.v)
        & is_to_one(c.u + c.v)
        & is_from_zero(c.t)
        & is_to_one(c.t)
}

pub fn hits(ray: Ray, tri: Triangle) -> bool
    ensures { result ≡ hits ray tri }
{
    is_hit(cross_triangle(ray, tri))
}
