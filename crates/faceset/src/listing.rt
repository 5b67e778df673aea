// The kept faces of a face set, listed in one pass over the runs of coordIndex (FORMAT 6.1, 6.2; split_runs, indexed_face_set).
ghost use Rattle.std.specs.Prelude.{◌≡◌, ℕ, ◌+◌, ◌/◌, ◌≤◌, ◌<◌, length, set};
ghost use Rattle.bits.specs.Bits.{entries};
ghost use Rattle.block.specs.Edition.{most};
ghost use Rattle.block.specs.Runs.{kept};
ghost use Rattle.tables.specs.Layout.{Room};
ghost use Rattle.lists.specs.Lists.{map_n};
ghost use Rattle.faceset.specs.Listings.{use_of};
ghost use Rattle.faceset.specs.Adding.{Fits, FacePut, words_after, progress_after};
ghost use Rattle.faceset.specs.Passing.{Planned, RunFits, FacesListed};

use block::{CornerNumber, is_kept, point_at, runs_in};
use tables::{Plan, narrow, put_each};

// How many faces are listed, and the next corner.
#[derive(Clone, Copy)]
pub struct Progress {
    pub faces: usize,
    pub corner: CornerNumber,
}

// Before the first.
pub const START: Progress = Progress {
    faces: 0,
    corner: CornerNumber(0),
};

// The number of listed face `face`, and the first corner after it.
pub fn put_row(work: &mut [u32], t: Plan, face: usize, number: usize, next: CornerNumber)
    requires { Room (length work.old) t × (face < t.faces) × (number ≤ most) × (next.0 ≤ most) }
    ensures { work.new ≡ set (set work.old (t.numbers + face) number) (t.starts + (face + 1)) next.0 }
{
    work[t.numbers + face] = narrow(number);
    work[t.starts + (face + 1)] = narrow(next.0);
}

// The next face: the point and the place of each of its n corners, and its number.
pub fn put_face<P: Fn(usize) -> u32, Q: Fn(usize) -> u32>(
    work: &mut [u32],
    t: Plan,
    p: Progress,
    number: usize,
    n: usize,
    point: P,
    place: Q,
) -> Progress
    requires room { Fits (length work.old) t p.faces p.corner.0 n × (number ≤ most) }
    requires points { (i : ℕ) → i < n → P.pre point i }
    requires places { (i : ℕ) → i < n → Q.pre place i }
    ensures { FacePut (P.post point) (Q.post place) t p number n work.old work.new result }
{
    let from = p.corner;
    let next = CornerNumber(from.0 + n);
    put_each(work, t.corners + from.0, n, point);
    put_each(work, t.places + from.0, n, place);
    put_row(work, t, p.faces, number, next);
    Progress {
        faces: p.faces + 1,
        corner: next,
    }
}

// The run that starts at entry `start`: listed if it is kept.
fn pass_run(
    run: &[u8],
    start: usize,
    number: usize,
    points: u32,
    work: &mut [u32],
    t: Plan,
    p: Progress,
) -> Progress
    requires { RunFits points (length work.old) t start run.now number p }
    ensures { (work.new ≡ words_after (kept points (entries run.now)) t p number (map_n use_of start (entries run.now)) work.old)
        × (result ≡ progress_after (kept points (entries run.now)) p (length run.now / 4)) }
{
    if is_kept(run, points) {
        let n = run.len() / 4;
        return put_face(
            work,
            t,
            p,
            number,
            n,
            |i| narrow(point_at(run, i).0),
            |i| narrow(start + i),
        );
    }
    p
}

// The kept faces of coordIndex, to the tables of first corners, face numbers, and the corners' points and places. A face has the number of its run.
pub fn list_faces(coord: &[u8], points: u32, work: &mut [u32], t: Plan)
    requires { Planned points coord.now (length work.old) t }
    ensures { FacesListed points coord.now t work.old work.new }
{
    let first = t.starts;
    work[first] = 0;
    let mut p = START;
    for (number, (start, run)) in runs_in(coord).enumerate() {
        p = pass_run(run, start, number, points, work, t, p);
    }
}
