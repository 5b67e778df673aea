// FORMAT 10.1, 10.2: all of it.
ghost use Rattle.std.specs.Prelude.{◌+◌, ◌*◌, ◌≤◌, length};
ghost use Rattle.tables.specs.Soups.{Sound};
ghost use Rattle.normals.specs.Rows.{Made};
ghost use Rattle.normals.specs.Written.{Generated};

use crate::facing::{owners, rows};
use crate::groups::group;
use crate::points::share;
use crate::source::Source;
use block::CreaseRule;
use tables::{Plan, Tables};

// The owners, the rows and the faces by number.
fn prepare(work: &mut [u32], t: Plan, ccw: bool)
    requires { Sound work.old t }
    ensures { Made work.old work.new t ccw }
{
    owners(work, t);
    rows(work, t, ccw);
    group(work, t);
}

// `ccw` and `rule` are two: the rows read the one, and what comes after them the other.
// The normals of the corners of the soup that the tables hold. The tables below the owners are kept; the words above and the floats behind
// the normals are used. The room in the floats stays a clause here and below, for the reason in outputs.
pub fn generate(work: &mut [u32], t: Plan, ccw: bool, rule: CreaseRule, floats: &mut [f32])
    requires { Sound work.old t × (3 * t.count + 6 * t.faces ≤ length floats.old) }
    ensures { Generated work.old work.new t ccw rule floats.new }
{
    prepare(work, t, ccw);
    share(work, t, rule, floats);
    let x = Source {
        tables: Tables { work, plan: &t },
    };
    x.corner_normals(rule, floats);
}
