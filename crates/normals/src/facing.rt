// FORMAT 10.1, 10.2: each corner's face, and each face's facing normal and unit normal.
ghost use Rattle.std.specs.Prelude.{◌≡◌, ◌+◌, ◌≤◌, ◌<◌, length};
ghost use Rattle.math.specs.Vector.{unit_of};
ghost use Rattle.lists.specs.Parts.{Kept};
ghost use Rattle.tables.specs.Soups.{Sound};
ghost use Rattle.normals.specs.Rows.{at3, unit_at, facing_in, OwnedTo, Rowed, Onward};

use crate::vectors::{store_unit, store3};
use math::V3;
use tables::{Plan, Tables, fill, narrow};

// Each corner's face. Not one with `spread_numbers` of soups: that reads each number from the words that it fills, so a closure would be given
// them at each turn, and its clauses would say what they are then.
pub fn owners(work: &mut [u32], t: Plan)
    requires { Sound work.old t }
    ensures { Kept t.owners work.old work.new × OwnedTo work.old work.new t t.faces }
{
    for g in 0..t.faces {
        let e = Tables { work, plan: &t }.stretch_of(g);
        fill(work, t.owners + e.from.0, e.to.0 - e.from.0, narrow(g));
    }
}

// The facing normal of face g: Newell's sum over its points, turned where ccw is off.
fn face_normal(x: &Tables<'_>, ccw: bool, g: usize) -> V3
    requires { Sound x.now.work.now x.now.plan.now × (g < x.now.plan.now.faces) }
    ensures { result ≡ facing_in x.now.work.now x.now.plan.now ccw g }
{
    let e = x.stretch_of(g);
    let names = x.corners_of(e.from, e.to.0 - e.from.0);
    let n = polygon::newell(x.points(), names);
    polygon::handed_of(ccw, n)
}

// A face's row: its facing normal v, and its unit vector k.
fn put_row(work: &mut [u32], a: usize, v: V3, k: Option<V3>)
    requires { (a + 7 ≤ length work.old) × (k ≡ unit_of v) }
    ensures { Kept a work.old work.new × (at3 work.new a ≡ v) × (unit_at work.new (a + 3) ≡ unit_of v) }
{
    store3(work, a, v);
    store_unit(work, a + 3, k);
}

// The rows of the faces, four at a time since their roots are taken together, and how many they are.
fn rows_by_fours(work: &mut [u32], t: Plan, ccw: bool) -> usize
    requires { Sound work.old t }
    ensures { (result ≤ t.faces) × Kept t.rows work.old work.new × Sound work.new t × Rowed work.old work.new t ccw result }
{
    let fours = t.faces / 4;
    for i in 0..fours {
        let g = 4 * i;
        let p = t.rows + 7 * g;
        let q = t.rows + 7 * (g + 1);
        let r = t.rows + 7 * (g + 2);
        let s = t.rows + 7 * (g + 3);
        let x = Tables { work, plan: &t };
        let a = face_normal(&x, ccw, g);
        let b = face_normal(&x, ccw, g + 1);
        let c = face_normal(&x, ccw, g + 2);
        let d = face_normal(&x, ccw, g + 3);
        let k = math::normalize_four(a, b, c, d);
        put_row(work, p, a, k.a);
        put_row(work, q, b, k.b);
        put_row(work, r, c, k.c);
        put_row(work, s, d, k.d);
    }
    4 * fours
}

// The rows from face g on.
fn rows_from(work: &mut [u32], t: Plan, ccw: bool, g: usize)
    requires { Sound work.old t × (g ≤ t.faces) }
    ensures { Onward work.old work.new t ccw g t.faces }
{
    for k in g..t.faces {
        let n = face_normal(&Tables { work, plan: &t }, ccw, k);
        let u = math::normalize(n);
        put_row(work, t.rows + 7 * k, n, u);
    }
}

// The rows of all faces.
pub fn rows(work: &mut [u32], t: Plan, ccw: bool)
    requires { Sound work.old t }
    ensures { Kept t.rows work.old work.new × Rowed work.old work.new t ccw t.faces }
{
    let g = rows_by_fours(work, t, ccw);
    rows_from(work, t, ccw, g);
}
