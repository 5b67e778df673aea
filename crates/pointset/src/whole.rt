// FORMAT 17.5, 17.10: the call of a PointSet.
ghost use Rattle.pointset.specs.PointSet.{PointSetCall, lent_to};

use crate::copies::{Listed, copy_words, put_colours, put_sources};
use crate::refusals::{makes_colours, refusal_of};
use lent::{Answer, Report};

// The mesh of a PointSet, into the lent slices; or a refusal, and every lent element as it was.
// The slices one by one, as C hands them; each is written by one call, so a struct of them would have one use.
pub fn point_set(
    points: &[u32],
    has_colors: bool,
    alpha: bool,
    listed: &[u32],
    positions: &mut [u32],
    colours: &mut [u32],
    sources: &mut [u32],
) -> Answer
    ensures { PointSetCall points.now has_colors alpha listed.now
        (lent_to positions.old colours.old sources.old)
        (lent_to positions.new colours.new sources.new) result }
{
    let n = points.len() / 3;
    let given = Listed {
        words: listed,
        alpha,
    };
    let made = makes_colours(points, has_colors, given);
    refusal_of(n, made, positions, colours, sources)?;
    copy_words(points, positions, 3 * n);
    put_colours(made.then_some(given), colours, n);
    put_sources(sources, n);
    Ok(Report {
        vertices: n,
        indices: 0,
        solid: true,
        unlit: true,
        has_colors: made,
    })
}
