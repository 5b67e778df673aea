// FORMAT 10.2: the rows of the faces once more, as f32, behind the corners' normals. The cosine rule looks at a face for each two uses of a point, and a word
// that becomes an f32 is first looked at whether it is a NaN (FORMAT 9.1).
ghost use Rattle.std.specs.Prelude.{◌≡◌, ◌+◌, ◌*◌, ◌≤◌, length};
ghost use Rattle.normals.specs.Rows.{Mirrored};

use crate::vectors::{load, load_unit, put3};
use math::V3;
use tables::Tables;

// In place of no unit vector: no cosine with it is above a bound.
const NO_UNIT: V3 = V3 {
    x: f32::NAN,
    y: f32::NAN,
    z: f32::NAN,
};

pub fn mirror(x: &Tables<'_>, floats: &mut [f32])
    requires { 3 * x.now.plan.now.count + 6 * x.now.plan.now.faces ≤ length floats.old }
    ensures { Mirrored floats.new x.now.work.now x.now.plan.now x.now.plan.now.faces }
{
    let t = x.plan;
    for g in 0..t.faces {
        let row = t.rows + 7 * g;
        let at = 3 * t.count + 6 * g;
        put3(floats, at, load(x.work, row));
        put3(
            floats,
            at + 3,
            load_unit(x.work, row + 3).unwrap_or(NO_UNIT),
        );
    }
}
