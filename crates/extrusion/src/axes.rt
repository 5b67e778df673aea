// FORMAT 8.4, extrusion_frames: the axes of the cross-section's plane at a spine point.
ghost use Rattle.std.specs.Prelude.{◌≡◌};
ghost use Rattle.mesh.specs.Frames as spec;
ghost use Rattle.mesh.specs.Frames.{pick_z, axes_by};
ghost use Rattle.extrusion.specs.Rows.{axes_of};

use math::{V3, X_AXIS, Y_AXIS, Z_AXIS};

// X and Z span the plane, and Y goes along the spine.
#[derive(Clone, Copy)]
pub struct PlaneAxes {
    pub x: V3,
    pub y: V3,
    pub z: V3,
}

// z, turned over where it points against the one used before it.
fn turned(prev: Option<V3>, z: V3) -> V3
    ensures { result ≡ spec.turned prev z }
{
    match prev {
        Some(p) => {
            if math::dot(z, p) < 0.0 {
                return math::scale(z, -1.0);
            }
            return z;
        }
        None => z,
    }
}

// The Z axis used at a point, by the first of all, the one used before, and the point's own.
pub fn pick_z(first: Option<V3>, prev: Option<V3>, z: Option<V3>) -> V3
    ensures { result ≡ pick_z first prev z }
{
    turned(prev, z.or(prev).or(first).unwrap_or(Z_AXIS))
}

// z straightened against y.
fn upright(y: V3, z: V3) -> V3
    ensures { result ≡ spec.upright y z }
{
    let along = math::scale(y, math::dot(z, y));
    math::normalize(math::sub(z, along)).unwrap_or(z)
}

fn bent(y: V3, z: V3) -> PlaneAxes
    ensures { axes_of result ≡ spec.bent y z }
{
    let u = upright(y, z);
    PlaneAxes {
        x: math::cross(y, u),
        y: y,
        z: u,
    }
}

// The axes where all points are in a line: Y goes along it.
fn straight(y: Option<V3>) -> PlaneAxes
    ensures { axes_of result ≡ spec.straight y }
{
    let q = math::quat_between(Y_AXIS, y.unwrap_or(Y_AXIS));
    PlaneAxes {
        x: math::quat_rotate(q, X_AXIS),
        y: math::quat_rotate(q, Y_AXIS),
        z: math::quat_rotate(q, Z_AXIS),
    }
}

// Bent by the first Z axis of all, where there is one; else one frame for all points.
pub fn axes_by(first: Option<V3>, y0: Option<V3>, y: Option<V3>, z: V3) -> PlaneAxes
    ensures { axes_of result ≡ axes_by first y0 y z }
{
    match first {
        Some(_) => bent(y.unwrap_or(Y_AXIS), z),
        None => straight(y0),
    }
}
