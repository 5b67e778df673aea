// The tables of a soup, made ready for its vertices.
ghost use Rattle.std.specs.Prelude.{◌≡◌, ◌+◌, ◌*◌, ◌≤◌, length};
ghost use Rattle.lists.specs.Parts.{Kept};
ghost use Rattle.tables.specs.Soups.{number_in, Sound, Spread};
ghost use Rattle.soups.specs.Prepared.{Normals, Prepared};

use block::CreaseRule;
use tables::{Plan, Tables, fill};

// Each corner's face number, over the owners. Not one with `owners` of normals: the number is read from the words that are filled, so a closure would be
// given them at each turn, and its clauses would say what they are then.
fn spread_numbers(work: &mut [u32], t: Plan)
    requires { Sound work.old t }
    ensures { Kept t.owners work.old work.new × Spread work.old work.new t (number_in work.old t) t.faces }
{
    for g in 0..t.faces {
        let e = Tables { work, plan: &t }.stretch_of(g);
        let number = work[t.numbers + g];
        fill(work, t.owners + e.from.0, e.to.0 - e.from.0, number);
    }
}

// Where no normals are supplied, they are generated. What the tables are and how many floats are lent stay clauses, as in normals: both slices are lent to be
// written, and a struct with a `&mut` in it would have to say in each function that it is still the same reference.
fn generate_where(
    work: &mut [u32],
    t: Plan,
    supplied: bool,
    ccw: bool,
    rule: CreaseRule,
    floats: &mut [f32],
)
    requires { Sound work.old t × (3 * t.count + 6 * t.faces ≤ length floats.old) }
    ensures { Kept t.owners work.old work.new × Normals supplied work.old t ccw rule floats.old floats.new }
{
    if supplied {
        return;
    }
    normals::generate(work, t, ccw, rule, floats);
}

// The normals and the face numbers of all corners. The tables below the owners are kept; the floats behind the normals are used.
// `supplied` is a bool: whether there is a stream of normals is all that counts here, and the stream itself would go unread.
pub fn prepare(
    work: &mut [u32],
    t: Plan,
    supplied: bool,
    ccw: bool,
    rule: CreaseRule,
    floats: &mut [f32],
)
    requires { Sound work.old t × (3 * t.count + 6 * t.faces ≤ length floats.old) }
    ensures { Prepared supplied ccw rule t work.old work.new floats.old floats.new }
{
    generate_where(work, t, supplied, ccw, rule, floats);
    spread_numbers(work, t);
}
