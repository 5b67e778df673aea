// FORMAT 17.9, 9.3: the lengths by which the normals of a cone are scaled. Their squares are nearly
// all one number but for some roundings, so the roots of four numbers in a row serve for them.
ghost use Rattle.std.specs.Prelude.{◌≡◌, ◌+◌, ◌<◌, ◌^◌, IfSome};
ghost use Rattle.std.specs.Float.{binary32};
ghost use Rattle.std.specs.Float.Ieee.{of_bits};
ghost use Rattle.math.specs.SquareRoot.{root_of};
ghost use Rattle.math.specs.Vector.{vlen};

use math::square_root::roots;
use math::{Four, V3};
use parts::Round;

// The bits of the first of the four, and their roots.
#[derive(Clone, Copy)]
pub struct Lengths {
    pub first: u32,
    pub roots: Four<f32>,
    ghost low: { first < 2 ^ 31 },
    ghost root_a: { roots.a ≡ root_of (of_bits binary32 first) },
    ghost root_b: { roots.b ≡ root_of (of_bits binary32 (first + 1)) },
    ghost root_c: { roots.c ≡ root_of (of_bits binary32 (first + 2)) },
    ghost root_d: { roots.d ≡ root_of (of_bits binary32 (first + 3)) },
}

// One below, where that is a number; any first serves.
fn first_before(b: u32) -> u32
    ensures { result < 2 ^ 31 }
{
    if 0 < b && b < 0x7f80_0000 {
        return b - 1;
    }
    0
}

// Around the square of the length over a point of the unit circle. No ensures: the type says all that is used, and any first serves.
pub fn lengths_near(k: Round) -> Lengths {
    let first = first_before(math::bits_of(k.height * k.height + k.r * k.r));
    let roots = roots(
        math::of_bits(first),
        math::of_bits(first + 1),
        math::of_bits(first + 2),
        math::of_bits(first + 3),
    );
    Lengths { first, roots }
}

// The root of the number with the bits w, if it is among the four.
fn known_root(k: Lengths, w: u32) -> Option<f32>
    ensures { IfSome result (λ r. r ≡ root_of (of_bits binary32 w)) }
{
    if w < k.first {
        return None;
    }
    match w - k.first {
        0 => Some(k.roots.a),
        1 => Some(k.roots.b),
        2 => Some(k.roots.c),
        3 => Some(k.roots.d),
        _ => None,
    }
}

// The length of v, if it is known.
pub fn known_length(k: Lengths, v: V3) -> Option<f32>
    ensures { IfSome result (λ l. l ≡ vlen v) }
{
    known_root(k, math::bits_of(math::dot(v, v)))
}
