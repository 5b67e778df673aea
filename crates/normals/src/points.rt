// FORMAT 10.2, generate_normals: what a crease rule asks for before the corners' normals. The sum of every face depends on the number alone, so it is
// made once for each: made for each corner, it would be a square where many corners meet.
ghost use Rattle.std.specs.Prelude.{◌+◌, ◌*◌, ◌≤◌, length};
ghost use Rattle.lists.specs.Parts.{Kept};
ghost use Rattle.normals.specs.Rows.{Ready, SummedTo, Summed};

use crate::mirror::mirror;
use crate::source::Source;
use crate::vectors::store_unit;
use block::{CreaseRule, PointNumber};
use tables::{Plan, Tables};

// For each number, the unit vector of the sum of the facing normals of its faces.
fn sum_points(work: &mut [u32], t: Plan)
    requires { Ready work.old t }
    ensures { Kept t.sums work.old work.new × SummedTo work.old work.new t t.spots }
{
    for p in 0..t.spots {
        let x = Source {
            tables: Tables { work, plan: &t },
        };
        let s = x.sum_all(PointNumber(p));
        store_unit(work, t.sums + 4 * p, math::normalize(s));
    }
}

// What the rule asks for: nothing for that of the own face, the sum of each number for that of every face, the rows as f32 for the cosine rule.
pub fn share(work: &mut [u32], t: Plan, rule: CreaseRule, floats: &mut [f32])
    requires { Ready work.old t × (3 * t.count + 6 * t.faces ≤ length floats.old) }
    ensures { Kept t.sums work.old work.new × Summed work.new t rule floats.new }
{
    match rule {
        CreaseRule::Own => {}
        CreaseRule::Every => sum_points(work, t),
        CreaseRule::Bound(_) => mirror(&Tables { work, plan: &t }, floats),
    }
}
