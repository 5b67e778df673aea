// FORMAT 19.4: the triangles one by one, each for all the paths.
ghost use Rattle.std.specs.Prelude.{◌≡◌, false, ◌||◌, ◌/◌, ◌≤◌, ◌<◌, eqb, leb, length};
ghost use Rattle.lists.specs.Updates.{updated};
ghost use Rattle.lists.specs.Loops.{any, run};
ghost use Rattle.paths.specs.Pass.{next_answer, step_at, turn_of};
ghost use Rattle.paths.specs.Pass.{hit_count, any_clear};

use crate::intersect::{Triangle, hits};
use crate::rays::{Rays, ray_at};
use crate::triangles::triangle_of;

// The answer of a path after a triangle: the first that was hit stays. 0 is FORMAT 19's word for a clear path.
fn answer_after(hit: bool, number: u64, answer: u64) -> u64
    ensures { result ≡ next_answer hit number answer }
{
    if hit && answer == 0 {
        return number;
    }
    answer
}

// That of path j. Rays, triangle and number stay three arguments: `count_hits` takes two of them, and the definition takes them one by one.
fn verdict(rays: &Rays, j: usize, tri: Triangle, number: u64, answer: u64) -> u64
    requires { j < 64 }
    ensures { result ≡ step_at rays.now tri number j answer }
{
    answer_after(hits(ray_at(rays, j), tri), number, answer)
}

// The answers of the paths after a triangle.
// That there are at most 64 is a clause: a struct of the slice and its bound would have to promise besides that it keeps the caller's slice.
fn mark(rays: &Rays, tri: Triangle, number: u64, answers: &mut [u64])
    requires { length answers.old ≤ 64 }
    ensures { answers.new
        ≡ updated (step_at rays.now tri number) (length answers.old) answers.old }
{
    for (j, answer) in answers.iter_mut().enumerate() {
        *answer = verdict(rays, j, tri, number, *answer);
    }
}

// How many of the first m rays hit a triangle. Most time goes here, so it reads the rays alone, and no branch counts.
fn count_hits(rays: &Rays, m: usize, tri: Triangle) -> u32
    requires { m ≤ 64 }
    ensures { result ≡ hit_count rays.now tri m }
{
    let mut count: u32 = 0;
    for j in 0..m {
        count += u32::from(hits(ray_at(rays, j), tri));
    }
    count
}

// Whether one of the paths is clear.
fn any_clear(answers: &[u64]) -> bool
    ensures { result ≡ any_clear answers.now (length answers.now) }
{
    answers.iter().any(|answer| *answer == 0)
}

// One triangle for all the paths. Few triangles hit any, and only then are answers looked at.
// It answers false where no path is left clear. The bound is a clause as at `mark`.
fn turn(rays: &Rays, tri: Triangle, number: u64, answers: &mut [u64]) -> bool
    requires { length answers.old ≤ 64 }
    ensures { (answers.new
        ≡ updated (step_at rays.now tri number) (length answers.old) answers.old)
        × (result ≡ (eqb (hit_count rays.now tri (length answers.old)) 0
        || any_clear answers.new (length answers.old))) }
{
    if count_hits(rays, answers.len(), tri) == 0 {
        return true;
    }
    mark(rays, tri, number, answers);
    any_clear(answers)
}

// All triangles for the paths, which have an answer each. The bound is a clause as at `mark`.
pub fn pass(positions: &[u32], indices: &[u32], rays: &Rays, answers: &mut [u64])
    requires { (any (leb (length positions.now / 3)) indices.now ≡ false)
        × (length answers.old ≤ 64) }
    ensures { answers.new
        ≡ run (turn_of positions.now indices.now rays.now (length answers.old))
        (length indices.now / 3) 0 answers.old }
{
    for (t, corners) in indices.chunks_exact(3).enumerate() {
        let tri = triangle_of(positions, corners);
        if !turn(rays, tri, t as u64 + 1, answers) {
            return;
        }
    }
}
