// FORMAT 6.3, 7.1: the entries that name a point, listed as corners, run by run.
ghost use Rattle.std.specs.Prelude.{◌≡◌, ◌+◌, ◌*◌, ◌/◌, ◌^◌, ◌<◌, ◌≤◌, length};
ghost use Rattle.bits.specs.Bits.{entries};
ghost use Rattle.block.specs.Runs.{run_of, runs, sum_over};
ghost use Rattle.mesh.specs.Lines.{these};
ghost use Rattle.mesh.specs.Sizes as sizes;
ghost use Rattle.corners.specs.Laid.{Laid};
ghost use Rattle.lists.specs.Parts.{Added};
ghost use Rattle.lines.specs.Uses.{use_of, run_uses, listed_at, listed, Listed};

use block::{CornerNumber, PointNumber, runs_in};
use corners::CornerTables;
use tables::{narrow, wide};

// Corner c: its point, its place in coordIndex, and the number of its line. The words stay beside the tables here and below, for the reason at `tables::Plan`.
#[tactic(auto, unfolding(crate::specs::Uses::listed_at))]
fn list_corner(
    work: &mut [u32],
    t: CornerTables,
    c: CornerNumber,
    e: PointNumber,
    k: usize,
    line: usize,
)
    requires { Laid t (length work.old) × (c.0 < t.count) × (e.0 < 2 ^ 32) × (k < 2 ^ 32) × (line < 2 ^ 32) }
    ensures { work.new ≡ listed_at t work.old c.0 (record { point = e.0; place = k; number = line }) }
{
    work[t.corners + c.0] = narrow(e.0);
    work[t.places + c.0] = narrow(k);
    work[t.numbers + c.0] = narrow(line);
}

// The entry at place k: corner c, where it names a point. The next corner.
fn list_entry(
    work: &mut [u32],
    t: CornerTables,
    points: usize,
    c: CornerNumber,
    e: PointNumber,
    k: usize,
    line: usize,
) -> CornerNumber
    requires { Laid t (length work.old) × (e.0 < points → c.0 < t.count) × (points ≤ 2 ^ 32) × (k < 2 ^ 32) × (line < 2 ^ 32) }
    ensures { Added (listed t) (these (use_of points line k e.0)) c.0 work.old result.0 work.new }
{
    if e.0 < points {
        list_corner(work, t, c, e, k, line);
        return CornerNumber(c.0 + 1);
    }
    c
}

// The run that starts at entry `start`, from corner `first` on. The next corner.
fn list_run(
    run: &[u8],
    points: u32,
    work: &mut [u32],
    t: CornerTables,
    first: CornerNumber,
    start: usize,
    line: usize,
) -> CornerNumber
    requires { Laid t (length work.old) × (first.0 + length (run_uses points line (run_of start (entries run.now))) ≤ t.count)
        × (start + length run.now / 4 ≤ 2 ^ 32) × (line < 2 ^ 32) }
    ensures { Added (listed t) (run_uses points line (run_of start (entries run.now))) first.0 work.old result.0 work.new }
{
    let mut c = first;
    for (j, e) in run.chunks_exact(4).enumerate() {
        let p = PointNumber(wide(bits::word(e, 0)));
        c = list_entry(work, t, wide(points), c, p, start + j, line);
    }
    c
}

// The number of a line is the number of runs before it. `points` stands beside t, whose spots it is: the clauses of the runs are by the header's number.
pub fn list_entries(coord: &[u8], points: u32, work: &mut [u32], t: CornerTables)
    requires { Laid t (length work.old) × (t.points + 3 * t.spots ≤ t.corners) × (t.count ≡ sum_over (sizes.named points) (runs (entries coord.now)))
        × (points ≡ t.spots) × (length coord.now / 4 ≤ 2 ^ 32) }
    ensures { Listed points (entries coord.now) t work.old work.new }
{
    let mut c = CornerNumber(0);
    for (line, (start, run)) in runs_in(coord).enumerate() {
        c = list_run(run, points, work, t, c, start, line);
    }
}
