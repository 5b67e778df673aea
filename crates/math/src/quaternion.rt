// FORMAT 9.5: unit quaternions, and the turns made of them.
ghost use Rattle.std.specs.Prelude.{◌≡◌};
ghost use Rattle.math.specs.Quaternion.{rotated, axis_turn, other_axis, half_turn, shortest_arc, turn_to, between};

use crate::order::abs;
use crate::square_root::root;
use crate::vector::{V3, X_AXIS, Y_AXIS, add, cross, dot, normalize, scale};
use crate::word::is_finite;

#[derive(Clone, Copy)]
pub struct Quat {
    pub x: f32,
    pub y: f32,
    pub z: f32,
    pub w: f32,
}

// The quaternion of no turn.
pub const NO_TURN: Quat = Quat {
    x: 0.0,
    y: 0.0,
    z: 0.0,
    w: 1.0,
};

pub fn quat_rotate(q: Quat, v: V3) -> V3
    ensures { result ≡ rotated q v }
{
    let u = V3 {
        x: q.x,
        y: q.y,
        z: q.z,
    };
    let w = q.w;
    let t = scale(cross(u, v), 2.0);
    add(add(v, scale(t, w)), cross(u, t))
}

// axis_angle_to_quat, from the sine and the cosine of half the angle.
#[tactic(auto, unfolding(crate::specs::Quaternion::axis_turn))]
pub fn axis_turn(axis: V3, s: f32, c: f32) -> Quat
    ensures { result ≡ axis_turn axis s c }
{
    let Some(u) = normalize(axis) else {
        return NO_TURN;
    };
    if is_finite(s) && is_finite(c) {
        return Quat {
            x: u.x * s,
            y: u.y * s,
            z: u.z * s,
            w: c,
        };
    }
    NO_TURN
}

// The X axis, or the Y axis where x is not well below 1.
fn other_axis(x: f32) -> V3
    ensures { result ≡ other_axis x }
{
    if abs(x) < 0.9 {
        return X_AXIS;
    }
    Y_AXIS
}

// Half a turn about an axis across f.
#[tactic(auto, unfolding(crate::specs::Quaternion::half_turn))]
fn half_turn(f: V3) -> Quat
    ensures { result ≡ half_turn f }
{
    let Some(u) = normalize(cross(f, other_axis(f.x))) else {
        return Quat {
            x: 0.0,
            y: 0.0,
            z: 1.0,
            w: 0.0,
        };
    };
    Quat {
        x: u.x,
        y: u.y,
        z: u.z,
        w: 0.0,
    }
}

#[tactic(auto, unfolding(crate::specs::Quaternion::shortest_arc))]
fn shortest_arc(c: V3, w: f32) -> Quat
    ensures { result ≡ shortest_arc c w }
{
    let n = root(c.x * c.x + c.y * c.y + c.z * c.z + w * w);
    Quat {
        x: c.x / n,
        y: c.y / n,
        z: c.z / n,
        w: w / n,
    }
}

#[tactic(auto, unfolding(crate::specs::Quaternion::turn_to))]
fn turn_to(f: V3, t: V3) -> Quat
    ensures { result ≡ turn_to f t }
{
    let d = dot(f, t);
    if d > 1.0 - 1e-7 {
        return NO_TURN;
    }
    if d < -1.0 + 1e-7 {
        return half_turn(f);
    }
    shortest_arc(cross(f, t), 1.0 + d)
}

// The shortest turn that takes one direction to another.
#[tactic(auto, unfolding(crate::specs::Quaternion::between))]
pub fn quat_between(from: V3, to: V3) -> Quat
    ensures { result ≡ between from to }
{
    let Some(f) = normalize(from) else {
        return NO_TURN;
    };
    let Some(t) = normalize(to) else {
        return NO_TURN;
    };
    turn_to(f, t)
}
