// FORMAT 8.2: the tables of a line set, as `make_lines` reads them.
ghost use Rattle.std.specs.Prelude.{◌≡◌, ◌*◌, ◌/◌, ◌^◌, ◌≤◌, length};
ghost use Rattle.bits.specs.Bits.{entries};
ghost use Rattle.tables.specs.Layout.{most};
ghost use Rattle.corners.specs.Laid.{Laid};
ghost use Rattle.lineshape.specs.Shape.{tables_for, line_tables, Tabled};

use corners::CornerTables;
use lines::list_entries;
use tables::{plan_of, put_points, wide};

// Where the tables stand: those of a plan with a corner for each entry that names a point, and no faces.
pub fn line_tables(points: u32, count: usize) -> CornerTables
    requires { (points ≤ most) × (count ≤ most) }
    ensures { result ≡ tables_for points count }
{
    CornerTables::of_plan(plan_of(wide(points), count, 0, 0))
}

// The points' words, then the entries that name one.
pub fn put_tables<'a>(
    list: &'a [u8],
    coord: &'a [u8],
    points: u32,
    work: &mut [u32],
    t: CornerTables,
)
    requires { (t ≡ line_tables points (entries coord.now)) × Laid t (length work.old) × (points ≤ most)
        × (3 * points ≤ length list.now / 4) × (length coord.now / 4 ≤ 2 ^ 32) }
    ensures { Tabled points (entries list.now) (entries coord.now) t work.old work.new }
{
    put_points(list, work, t.points, 3 * t.spots);
    list_entries(coord, points, work, t);
}
