// FORMAT 19.1: the points of words, and the triangles of a mesh.
ghost use Rattle.std.specs.Prelude.{◌≡◌, ℕ, ◌/◌, ◌<◌, length, get_or};
ghost use Rattle.paths.specs.Paths.{point_in, triangle_in};

use crate::intersect::Triangle;
use block::VertexNumber;
use math::{V3, sub};

// Point p. Not one with `polygon::spot`, which tests each index: here every index is known to be there, and the pass makes no test.
pub fn point_at(words: &[u32], p: usize) -> V3
    requires { p < length words.now / 3 }
    ensures { result ≡ point_in words.now p }
{
    let k = p * 3;
    let x = math::of_bits(words[k]);
    let y = math::of_bits(words[k + 1]);
    let z = math::of_bits(words[k + 2]);
    V3 { x, y, z }
}

// Where the vertex lies that an index names. A cast: no From gives a usize of a u32, and `tables::wide` stands in a crate that paths does not stand on.
fn position_of(positions: &[u32], index: u32) -> V3
    requires { index < length positions.now / 3 }
    ensures { result ≡ point_in positions.now index }
{
    let v = VertexNumber(index as usize);
    point_at(positions, v.0)
}

// The triangle of three indices that all name a vertex. The slices stay two: a struct with that fact would serve here and in `pass` alone, for the call
// takes slices, and `is_refused` decides the fact.
pub fn triangle_of(positions: &[u32], corners: &[u32]) -> Triangle
    requires { (length corners.now ≡ 3) × ((k : ℕ) → k < 3 → get_or corners.now k 0 < length positions.now / 3) }
    ensures { result ≡ triangle_in positions.now corners.now 0 }
{
    let vert0 = position_of(positions, corners[0]);
    let vert1 = position_of(positions, corners[1]);
    let vert2 = position_of(positions, corners[2]);
    let edge1 = sub(vert1, vert0);
    let edge2 = sub(vert2, vert0);
    Triangle {
        vert0,
        edge1,
        edge2,
    }
}
