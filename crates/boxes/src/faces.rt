// FORMAT 17.6, box_prim (faces).
ghost use Rattle.std.specs.Prelude.{◌≡◌, ◌<◌};
ghost use Rattle.boxes.specs.Box.{face, face_at};

use math::{V3, X_AXIS, Y_AXIS, Z_AXIS};
use parts::MINUS_Y;

// The outward normal, right and up.
#[derive(Clone, Copy)]
pub struct BoxFace {
    pub normal: V3,
    pub right: V3,
    pub up: V3,
}

const MINUS_X: V3 = V3 {
    x: -1.0,
    y: 0.0,
    z: 0.0,
};

const MINUS_Z: V3 = V3 {
    x: 0.0,
    y: 0.0,
    z: -1.0,
};

fn face_of(normal: V3, right: V3, up: V3) -> BoxFace
    ensures { result ≡ face normal right up }
{
    BoxFace { normal, right, up }
}

// Face k: +Z, -Z, +X, -X, +Y, -Y.
pub fn face_at(k: usize) -> BoxFace
    requires { k < 6 }
    ensures { result ≡ face_at k }
{
    match k {
        0 => face_of(Z_AXIS, X_AXIS, Y_AXIS),
        1 => face_of(MINUS_Z, MINUS_X, Y_AXIS),
        2 => face_of(X_AXIS, MINUS_Z, Y_AXIS),
        3 => face_of(MINUS_X, Z_AXIS, Y_AXIS),
        4 => face_of(Y_AXIS, X_AXIS, MINUS_Z),
        _ => face_of(MINUS_Y, X_AXIS, Z_AXIS),
    }
}
