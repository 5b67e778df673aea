// The runs of an index list (FORMAT 6.1, 6.2; split_runs).
ghost use Rattle.std.specs.Prelude.{◌≡◌, ◌+◌, ◌/◌, ◌^◌, ◌<◌, ◌≤◌, ◌-◌, length, get_or, drop};
ghost use Rattle.std.specs.Iterator.{at_most};
ghost use Rattle.bits.specs.Bits.{entries};
ghost use Rattle.block.specs.Runs.{ends_run, run_length, runs, RunPart, next_start, kept, totals};
ghost use Rattle.block.specs.Walk.{GivesRun};

use crate::number::PointNumber;

// The one test for what ends a run: -1. A value below it is a point that is not there.
pub fn ends_run(w: u32) -> bool
    ensures { result ≡ ends_run w }
{
    w == 0xffff_ffff
}

// The place of the first entry from `start` on that ends a run, or the number of entries.
fn run_end(list: &[u8], start: usize) -> usize
    requires { start ≤ length list.now / 4 }
    ensures { (result ≡ start + run_length (drop start (entries list.now))) × (result ≤ length list.now / 4) }
{
    let rest = &list[4 * start..];
    start
        + rest
            .chunks_exact(4)
            .position(|e| ends_run(bits::word(e, 0)))
            .unwrap_or(rest.len() / 4)
}

// The part of the list that holds the run that starts at entry `start`.
pub fn run_at(list: &[u8], start: usize) -> &[u8]
    ensures { RunPart list.now start result.now }
{
    if start < list.len() / 4 {
        let e = run_end(list, start);
        return &list[4 * start..4 * e];
    }
    &list[0..0]
}

// Where the run after `run` starts: one past its closing entry. A run lies in its list, so that every run meets the bound.
pub fn next_start(start: usize, run: &[u8]) -> usize
    requires { start + length run.now / 4 < 2 ^ 63 }
    ensures { result ≡ next_start start run.now }
{
    start + run.len() / 4 + 1
}

// The runs of a list from entry `start` on, each with the entry that it starts at.
#[derive(Drop)]
pub struct Runs<'a> {
    list: &'a [u8],
    start: usize,
}

pub fn runs_in(list: &[u8]) -> Runs<'_>
    ensures { result ≡ record { list = list.entry; start = 0 } }
{
    Runs { list, start: 0 }
}

impl<'a> Iterator for Runs<'a> {
    type Item = (usize, &'a [u8]);

    ghost next_gives = { GivesRun };

    ghost remaining = { λ s. at_most (length s.list.now / 4 - s.start) };

    fn next(&mut self) -> Option<(usize, &'a [u8])> {
        let start = self.start;
        if start < self.list.len() / 4 {
            let run = run_at(self.list, start);
            self.start = next_start(start, run);
            return Some((start, run));
        }
        None
    }
}

// Whether a run is a face over so many points: 3 entries or more, each of a point.
pub fn is_kept(run: &[u8], points: u32) -> bool
    ensures { result ≡ kept points (entries run.now) }
{
    run.len() / 4 >= 3 && run.chunks_exact(4).all(|e| bits::word(e, 0) < points)
}

// What the kept faces of an index list have together.
#[derive(Clone, Copy)]
pub struct Totals {
    pub faces: usize,
    pub corners: usize,
    pub triangles: usize,
}

pub fn face_totals(list: &[u8], points: u32) -> Totals
    ensures { result ≡ totals points (runs (entries list.now)) }
{
    let mut faces: usize = 0;
    let mut corners: usize = 0;
    let mut triangles: usize = 0;
    for (_, run) in runs_in(list) {
        if is_kept(run, points) {
            faces += 1;
            corners += run.len() / 4;
            triangles += run.len() / 4 - 2;
        }
    }
    Totals {
        faces,
        corners,
        triangles,
    }
}

// The point that entry `k` of a run names; beyond the run, point 0.
pub fn point_at(run: &[u8], k: usize) -> PointNumber
    ensures { result.0 ≡ get_or (entries run.now) k 0 }
{
    if k < run.len() / 4 {
        return PointNumber(bits::entry(run, k) as usize);
    }
    PointNumber(0)
}
