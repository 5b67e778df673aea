// The call of a PointSet for hosts in other languages (FORMAT 17.12).
ghost use Rattle.pointset.specs.PointSet.{PointSetCall, lent_to};
ghost use Rattle.host.specs.Context.{is_on};
ghost use Rattle.host.specs.Hosted.{Hosted};

use crate::answers::answered;
use crate::context::is_on;

// The mesh of a PointSet, into the lent slices, and 0; or the number of the refusal, and every lent element as it was.
// The flags and the slices one by one, as C hands them.
#[unsafe(no_mangle)]
pub extern "C" fn sitemesh_point_set(
    points: &[u32],
    has_colors: u32,
    alpha: u32,
    listed: &[u32],
    positions: &mut [u32],
    colours: &mut [u32],
    sources: &mut [u32],
    res: &mut [usize],
) -> u32
    ensures { Hosted (PointSetCall points.now (is_on has_colors) (is_on alpha) listed.now
        (lent_to positions.old colours.old sources.old)
        (lent_to positions.new colours.new sources.new))
        res.old res.new result }
{
    let a = pointset::point_set(
        points,
        is_on(has_colors),
        is_on(alpha),
        listed,
        positions,
        colours,
        sources,
    );
    answered(a, res)
}
