// FORMAT 19: the call.
ghost use Rattle.paths.specs.Paths.{PathsCall};

use crate::answer::{PathsAnswer, PathsRefusal};
use crate::pass::pass;
use crate::rays::{Rays, load};
use crate::refusal::is_refused;

// For each path 0 where it is clear, else the number of the lowest triangle that blocks it, plus 1;
// or a refusal, and every answer as it was.
pub fn test_paths(
    positions: &[u32],
    indices: &[u32],
    paths: &[u32],
    answers: &mut [u64],
) -> PathsAnswer
    ensures { PathsCall positions.now indices.now paths.now
        answers.old answers.new result }
{
    if is_refused(positions, indices, paths, answers.len()) {
        return Err(PathsRefusal);
    }
    let mut rays: Rays = [0.0; 384];
    load(paths, &mut rays);
    let lent = &mut answers[..paths.len() / 6];
    lent.fill(0);
    pass(positions, indices, &rays, lent);
    Ok(())
}
