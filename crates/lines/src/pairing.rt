// FORMAT 6.3: the lines in pairs of vertex numbers, run by run.
ghost use Rattle.std.specs.Prelude.{◌≡◌, None, Some, false, IfSome, ◌+◌, ◌*◌, ◌^◌, ◌<◌, ◌≤◌, length};
ghost use Rattle.bits.specs.Bits.{entries};
ghost use Rattle.block.specs.Runs.{runs, sum_over};
ghost use Rattle.mesh.specs.Lines.{line};
ghost use Rattle.mesh.specs.Sizes as sizes;
ghost use Rattle.lists.specs.Parts.{spliced, Added};
ghost use Rattle.lines.specs.Steps.{last_of, vertex_at, pairs, run_pairs, Stepped, RunPut, Put};

use block::{CornerNumber, PointNumber, VertexNumber, runs_in};
use lists::put_all;
use tables::{narrow, wide};

// How far the lines are put: the next place for an index, the next corner, and the vertex of the entry before, where that names a point.
#[derive(Clone, Copy)]
pub struct Progress {
    pub at: usize,
    pub corner: CornerNumber,
    pub last: Option<VertexNumber>,
}

// The line from the entry before to vertex `next`, if that entry names a point. The next place.
fn put_line(indices: &mut [u32], at: usize, last: Option<VertexNumber>, next: VertexNumber) -> usize
    requires { (at + length (line (last_of last) (Some next.0)) ≤ length indices.old) × IfSome last (λ v. v.0 < 2 ^ 32) × (next.0 < 2 ^ 32) }
    ensures { Added spliced (line (last_of last) (Some next.0)) at indices.old result indices.new }
{
    match last {
        Some(v) => {
            put_all(indices, at, &[narrow(v.0), narrow(next.0)]);
            at + 2
        }
        None => at,
    }
}

// One entry, read as a point. `numbers` has the vertex numbers of the corners. It and `points` stay two arguments: a struct of them would spare this function
// and `put_run` one each, and their clauses and bodies would name both through it.
fn put_entry(
    e: PointNumber,
    points: usize,
    numbers: &[u32],
    w: Progress,
    indices: &mut [u32],
) -> Progress
    requires { (e.0 < points → w.corner.0 < length numbers.now) × IfSome w.last (λ v. v.0 < 2 ^ 32)
        × (w.at + length (line (last_of w.last) (vertex_at points numbers.now w.corner.0 e.0)) ≤ length indices.old) }
    ensures { Stepped points e.0 numbers.now w indices.old result indices.new }
{
    let corner = w.corner;
    if e.0 < points {
        let c = corner.0;
        let next = VertexNumber(wide(numbers[c]));
        let at = put_line(indices, w.at, w.last, next);
        return Progress {
            at,
            corner: CornerNumber(c + 1),
            last: Some(next),
        };
    }
    Progress {
        at: w.at,
        corner,
        last: None,
    }
}

// The lines of one run: none comes from the run before.
fn put_run(
    run: &[u8],
    points: u32,
    numbers: &[u32],
    from: Progress,
    indices: &mut [u32],
) -> Progress
    requires { (from.corner.0 + sizes.named points (entries run.now) ≤ length numbers.now)
        × (from.at + length (pairs points numbers.now from.corner.0 None (entries run.now)) ≤ length indices.old) }
    ensures { RunPut points (entries run.now) numbers.now from indices.old result indices.new }
{
    let corner = from.corner;
    let mut w = Progress {
        at: from.at,
        corner,
        last: None,
    };
    for e in run.chunks_exact(4) {
        let p = PointNumber(wide(bits::word(e, 0)));
        w = put_entry(p, wide(points), numbers, w, indices);
    }
    w
}

// All lines, through the vertex numbers of the corners, to the front of `indices`. How many indices there are.
pub fn put_lines(coord: &[u8], points: u32, numbers: &[u32], indices: &mut [u32]) -> usize
    requires { (length numbers.now ≡ sum_over (sizes.named points) (runs (entries coord.now)))
        × (2 * sum_over (sizes.lines_after points false) (runs (entries coord.now)) ≤ length indices.old) }
    ensures { Put (run_pairs points numbers.now 0 (runs (entries coord.now))) result indices.old indices.new }
{
    let mut w = Progress {
        at: 0,
        corner: CornerNumber(0),
        last: None,
    };
    for (_, run) in runs_in(coord) {
        w = put_run(run, points, numbers, w, indices);
    }
    w.at
}
