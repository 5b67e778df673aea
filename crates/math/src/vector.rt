// FORMAT 9.3: vectors of three f32, their length, and normalising.
ghost use Rattle.std.specs.Prelude.{◌≡◌};
ghost use Rattle.math.specs.Vector.{vadd, vsub, vscale, vdot, vcross, vlen, unit_by, unit_of};

use crate::square_root::{Four, root, roots};
use crate::word::is_finite;

#[derive(Clone, Copy, Default, PartialEq)]
pub struct V3 {
    pub x: f32,
    pub y: f32,
    pub z: f32,
}

// The axes.
pub const X_AXIS: V3 = V3 {
    x: 1.0,
    y: 0.0,
    z: 0.0,
};

pub const Y_AXIS: V3 = V3 {
    x: 0.0,
    y: 1.0,
    z: 0.0,
};

pub const Z_AXIS: V3 = V3 {
    x: 0.0,
    y: 0.0,
    z: 1.0,
};

pub fn add(a: V3, b: V3) -> V3
    ensures { result ≡ vadd a b }
{
    V3 {
        x: a.x + b.x,
        y: a.y + b.y,
        z: a.z + b.z,
    }
}

pub fn sub(a: V3, b: V3) -> V3
    ensures { result ≡ vsub a b }
{
    V3 {
        x: a.x - b.x,
        y: a.y - b.y,
        z: a.z - b.z,
    }
}

pub fn scale(a: V3, s: f32) -> V3
    ensures { result ≡ vscale a s }
{
    V3 {
        x: a.x * s,
        y: a.y * s,
        z: a.z * s,
    }
}

pub fn dot(a: V3, b: V3) -> f32
    ensures { result ≡ vdot a b }
{
    a.x * b.x + a.y * b.y + a.z * b.z
}

pub fn cross(a: V3, b: V3) -> V3
    ensures { result ≡ vcross a b }
{
    V3 {
        x: a.y * b.z - a.z * b.y,
        y: a.z * b.x - a.x * b.z,
        z: a.x * b.y - a.y * b.x,
    }
}

pub fn len(a: V3) -> f32
    ensures { result ≡ vlen a }
{
    root(dot(a, a))
}

// The vector a, whose length is l, scaled to length 1: none where l is not finite, or not above 1e-20. For who needs the length too.
pub fn unit_by(a: V3, l: f32) -> Option<V3>
    ensures { result ≡ unit_by l a }
{
    if is_finite(l) && l > 1e-20 {
        return Some(scale(a, 1.0 / l));
    }
    None
}

pub fn normalize(a: V3) -> Option<V3>
    ensures { result ≡ unit_of a }
{
    unit_by(a, len(a))
}

// Four vectors normalised: their roots are taken together.
pub fn normalize_four(a: V3, b: V3, c: V3, d: V3) -> Four<Option<V3>>
    ensures { (result.a ≡ unit_of a) × (result.b ≡ unit_of b) × (result.c ≡ unit_of c) × (result.d ≡ unit_of d) }
{
    let l = roots(dot(a, a), dot(b, b), dot(c, c), dot(d, d));
    Four {
        a: unit_by(a, l.a),
        b: unit_by(b, l.b),
        c: unit_by(c, l.c),
        d: unit_by(d, l.d),
    }
}
