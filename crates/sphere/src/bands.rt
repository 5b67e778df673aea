// FORMAT 17.7, sphere (tri): the triangles, band by band.
ghost use Rattle.std.specs.Prelude.{◌≡◌, [], unwrap_or, ◌+◌, ◌*◌, ◌≤◌, ◌<◌, ◌^◌, length};
ghost use Rattle.lists.specs.Lists.{flat};
ghost use Rattle.lists.specs.Loops.{tab};
ghost use Rattle.lists.specs.Parts.{Added, spliced};
ghost use Rattle.sphere.specs.Sphere.{sphere_quad, sphere_band};

use crate::ball::Ball;
use lists::put_all;
use tables::narrow;

// A triangle, if there is one, and the next place.
fn put_tri(indices: &mut [u32], at: usize, tri: Option<[u32; 3]>) -> usize
    requires { at + length (unwrap_or tri []) ≤ length indices.old }
    ensures { Added spliced (unwrap_or tri []) at indices.old result indices.new }
{
    match tri {
        Some(t) => {
            put_all(indices, at, &t);
            at + 3
        }
        None => at,
    }
}

// Those between rows j and j + 1 at slice i, and the next place.
fn put_quad(indices: &mut [u32], at: usize, o: Ball, j: usize, i: usize) -> usize
    requires { (j < o.k) × (i < o.n) × (at + length (sphere_quad o.n o.k j i) ≤ length indices.old) }
    ensures { Added spliced (sphere_quad o.n o.k j i) at indices.old result indices.new }
{
    let first = j * (o.n + 1) + i;
    let a = narrow(first);
    let b = narrow(first + 1);
    let c = narrow(first + (o.n + 1) + 1);
    let d = narrow(first + (o.n + 1));
    let next = put_tri(indices, at, (j != 0).then_some([a, b, c]));
    put_tri(indices, next, (j + 1 != o.k).then_some([a, c, d]))
}

// A loop, not put_words: a quad has one triangle or two, and an array has one length.
fn put_band(indices: &mut [u32], at: usize, o: Ball, j: usize) -> usize
    requires { (j < o.k) × (at + length (sphere_band o.n o.k j) ≤ length indices.old) }
    ensures { Added spliced (sphere_band o.n o.k j) at indices.old result indices.new }
{
    let mut at = at;
    for i in 0..o.n {
        at = put_quad(indices, at, o, j, i);
    }
    at
}

// All bands.
pub fn put_bands(indices: &mut [u32], o: Ball)
    requires { length (flat (tab (sphere_band o.n o.k) o.k 0)) ≤ length indices.old }
    ensures { indices.new ≡ spliced indices.old 0 (flat (tab (sphere_band o.n o.k) o.k 0)) }
{
    let mut at = 0;
    for j in 0..o.k {
        at = put_band(indices, at, o, j);
    }
}
