// FORMAT 4, 6.3: how many entries of coordIndex name a point, and how many lines there are.
ghost use Rattle.std.specs.Prelude.{◌≡◌, false};
ghost use Rattle.bits.specs.Bits.{entries};
ghost use Rattle.block.specs.Runs.{runs, sum_over};
ghost use Rattle.mesh.specs.Sizes as sizes;
ghost use Rattle.lines.specs.Totals.{Counted};

use block::runs_in;

#[derive(Clone, Copy)]
pub struct LineTotals {
    pub corners: usize,
    pub lines: usize,
}

// The entries of one run: those that name a point, and the lines between them.
#[tactic(auto, using(bits::proofs::Entries::entries_length))]
fn run_totals(run: &[u8], points: u32) -> LineTotals
    ensures { Counted points (entries run.now) result }
{
    let mut corners: usize = 0;
    let mut lines: usize = 0;
    let mut after = false;
    for e in run.chunks_exact(4) {
        let here = bits::word(e, 0) < points;
        corners += usize::from(here);
        lines += usize::from(after && here);
        after = here;
    }
    LineTotals { corners, lines }
}

// Run by run: no line goes from one run to the next.
#[tactic(auto, using(bits::proofs::Entries::entries_length))]
pub fn line_totals(list: &[u8], points: u32) -> LineTotals
    ensures { (result.corners ≡ sum_over (sizes.named points) (runs (entries list.now)))
        × (result.lines ≡ sum_over (sizes.lines_after points false) (runs (entries list.now))) }
{
    let mut corners: usize = 0;
    let mut lines: usize = 0;
    for (_, run) in runs_in(list) {
        let t = run_totals(run, points);
        corners += t.corners;
        lines += t.lines;
    }
    LineTotals { corners, lines }
}
