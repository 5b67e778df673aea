// FORMAT 9.1: points as words, three a point.
ghost use Rattle.std.specs.Prelude.{◌≡◌, ◌^◌, ◌<◌};
ghost use Rattle.polygon.specs.Points.{spot};
ghost use Rattle.polygon.specs.Plane.{entry};

use block::PointNumber;
use lists::get;
use math::V3;

pub fn spot(points: &[u32], p: PointNumber) -> V3
    requires { p.0 < 2 ^ 32 }
    ensures { result ≡ spot points.now p.0 }
{
    let k = p.0 * 3;
    V3 {
        x: math::of_bits(get(points, k)),
        y: math::of_bits(get(points, k + 1)),
        z: math::of_bits(get(points, k + 2)),
    }
}

// One entry of a point.
pub fn entry_at(points: &[u32], p: PointNumber, k: u32) -> f32
    requires { (p.0 < 2 ^ 32) × (k < 3) }
    ensures { result ≡ entry (spot points.now p.0) k }
{
    math::of_bits(get(points, p.0 * 3 + k as usize))
}
