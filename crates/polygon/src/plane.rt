// FORMAT 12.2: the points of a face seen along the largest axis of its normal.
ghost use Rattle.std.specs.Prelude.{◌≡◌, [], ◌∷◌, map, ◌^◌, ◌≤◌, ◌<◌, length};
ghost use Rattle.std.proofs.lemmas.List.Edits.{sets};
ghost use Rattle.polygon.specs.Points.{spots};
ghost use Rattle.polygon.specs.Plane.{entry, handed, most, axis_of, projection, flat2};

use crate::points::entry_at;
use block::PointNumber;
use lists::put;
use math::V3;

fn entry_of(v: V3, k: u32) -> f32
    ensures { result ≡ entry v k }
{
    match k {
        0 => v.x,
        1 => v.y,
        _ => v.z,
    }
}

// Turned where ccw is off; done twice it is as it was. A bool, as the block has it: no caller chooses by it.
pub fn handed_of(ccw: bool, n: V3) -> V3
    ensures { result ≡ handed ccw n }
{
    if ccw {
        return n;
    }
    math::scale(n, -1.0)
}

fn is_most(x: f32, y: f32, z: f32) -> bool
    ensures { result ≡ most x y z }
{
    x >= y && x >= z
}

// A number, not an enum: the two other axes are counted on from it.
fn axis_of(n: V3) -> u32
    ensures is { result ≡ axis_of n }
    ensures small { result < 3 }
{
    let x = math::abs(n.x);
    let y = math::abs(n.y);
    let z = math::abs(n.z);
    if is_most(x, y, z) {
        return 0;
    }
    if y >= z {
        return 1;
    }
    2
}

// Where one point lies in the plane, to place k.
fn put_pair(out: &mut [f32], k: usize, x: f32, y: f32)
    requires { k < 2 ^ 40 }
    ensures { out.new ≡ sets out.old k (flat2 ((x, y) ∷ [])) }
{
    put(out, k, x);
    put(out, k + 1, y);
}

// The entries u and v of each point: no more is read of it.
fn put_entries(points: &[u32], names: &[u32], u: u32, v: u32, out: &mut [f32])
    requires { (u < 3) × (v < 3) × (length names.now ≤ 2 ^ 31) }
    ensures { out.new ≡ sets out.old 0 (flat2 (map (λ p. (entry p u, entry p v)) (spots points.now names.now))) }
{
    for (i, name) in names.iter().enumerate() {
        let p = PointNumber(*name as usize);
        put_pair(out, i * 2, entry_at(points, p, u), entry_at(points, p, v));
    }
}

// The coordinates of a face's points in the plane, two a corner, to the front of `plane`. The face is seen from behind where the two are exchanged.
pub fn project(points: &[u32], names: &[u32], normal: V3, ccw: bool, plane: &mut [f32])
    requires { length names.now ≤ 2 ^ 31 }
    ensures { plane.new ≡ sets plane.old 0 (flat2 (projection ccw normal (spots points.now names.now))) }
{
    let n = handed_of(ccw, normal);
    let axis = axis_of(n);
    let u = (axis + 1) % 3;
    let v = (axis + 2) % 3;
    if entry_of(n, axis) < 0.0 {
        put_entries(points, names, v, u, plane);
    } else {
        put_entries(points, names, u, v, plane);
    }
}
