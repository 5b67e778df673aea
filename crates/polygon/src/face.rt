// FORMAT 12.1, triangulate: the triangles of one face.
ghost use Rattle.std.specs.Prelude.{◌≡◌, ◌+◌, ◌-◌, ◌*◌, ◌/◌, ◌^◌, ◌≤◌, ◌<◌, length, take};
ghost use Rattle.std.proofs.lemmas.List.Edits.{sets};
ghost use Rattle.polygon.specs.Ears.{outline, fan, flat};
ghost use Rattle.polygon.specs.Plane.{pairs};
ghost use Rattle.polygon.specs.Face.{face_tris};
ghost use Rattle.polygon.specs.Fans.{is_fan};

use crate::ears::{ear_clip, put_tri};

const EAR_CLIP_MAX: usize = 4096;

// Whether a face of n corners is a fan: then its points in the plane are not looked at. `convex` is a bool: the bit of the header, or true of a grid and of
// primitives, and this alone reads it.
pub fn is_fan(n: usize, convex: bool) -> bool
    ensures { result ≡ is_fan convex n }
{
    n <= 3 || convex || EAR_CLIP_MAX < n
}

// A fan over 0, 1, .., n - 1, to the front of `out`. Not `put_fan` of ears, which reads its corners from an order: one over a closure would need its clause,
// and be longer than this loop.
fn put_outline_fan(n: usize, out: &mut [u32])
    requires { n ≤ 2 ^ 31 }
    ensures { out.new ≡ sets out.old 0 (flat (fan (outline n))) }
{
    for t in 0..n.saturating_sub(2) {
        put_tri(out, t, false, 0, (t + 1) as u32, (t + 2) as u32);
    }
}

// The face's triangles, to the front of `out`. `plane` has its points in the plane, two coordinates each.
fn face_tris(plane: &[f32], convex: bool, scratch: &mut [u32], out: &mut [u32])
    requires { (length plane.now ≤ 2 ^ 32) × (length plane.now ≡ length plane.now / 2 * 2) × (length plane.now / 2 * 5 ≤ length scratch.old) }
    ensures { out.new ≡ sets out.old 0 (flat (face_tris convex (pairs plane.now))) }
{
    let n = plane.len() / 2;
    if is_fan(n, convex) {
        put_outline_fan(n, out);
        return;
    }
    ear_clip(plane, &mut scratch[..n * 5], out);
}

// The triangles of a face of n corners, from place `at` of `out` on, as triples of its own corners. `plane` begins with its points in the plane, but
// for a fan; it may be longer, so n stands beside it. `scratch` is room to work in.
pub fn triangulate(
    plane: &[f32],
    n: usize,
    convex: bool,
    scratch: &mut [u32],
    out: &mut [u32],
    at: usize,
)
    requires { (n ≤ 2 ^ 31) × (n * 2 ≤ length plane.now) × (n * 5 ≤ length scratch.old) × (at + (n - 2) * 3 ≤ length out.old) }
    ensures { out.new ≡ sets out.old at (flat (face_tris convex (pairs (take (n * 2) plane.now)))) }
{
    face_tris(&plane[..n * 2], convex, scratch, &mut out[at..]);
}
