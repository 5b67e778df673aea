// FORMAT 10.1, newell: the facing normal of a face.
ghost use Rattle.std.specs.Prelude.{◌≡◌};
ghost use Rattle.polygon.specs.Points.{spots};
ghost use Rattle.polygon.specs.Facing.{edge_sum, newell};

use crate::points::spot;
use block::PointNumber;
use math::V3;

fn add_edge(n: V3, a: V3, b: V3) -> V3
    ensures { result ≡ edge_sum n a b }
{
    V3 {
        x: n.x + (a.y - b.y) * (a.z + b.z),
        y: n.y + (a.z - b.z) * (a.x + b.x),
        z: n.z + (a.x - b.x) * (a.y + b.y),
    }
}

// The sum over the edges of the points that `names` names, the edge back to the first at the end. Two slices, here and in plane, and no struct: nothing is
// known of both, as a name past the points reads as 0, and callers have them apart.
pub fn newell(points: &[u32], names: &[u32]) -> V3
    ensures { result ≡ newell (spots points.now names.now) }
{
    let mut n = V3::default();
    let [start, rest @ ..] = names else {
        return n;
    };
    let first = spot(points, PointNumber(*start as usize));
    let mut a = first;
    for name in rest {
        let b = spot(points, PointNumber(*name as usize));
        n = add_edge(n, a, b);
        a = b;
    }
    add_edge(n, a, first)
}
