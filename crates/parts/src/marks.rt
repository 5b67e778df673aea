// FORMAT 17.8, 17.9: what stands before the caps of a cylinder or a cone.
ghost use Rattle.std.specs.Prelude.{◌≡◌, ◌≤◌, IfSome, unwrap_or};
ghost use Rattle.parts.specs.Sizes.{no_sizes, Small, piece_most};
ghost use Rattle.parts.specs.Round.{marks_of};

use crate::cap::cap_sizes;
use crate::sizes::{NO_PART, PartSizes, sum_sizes};

// How much there is before the top, before the bottom, and in all.
#[derive(Clone, Copy)]
pub struct Marks {
    pub top: PartSizes,
    pub bottom: PartSizes,
    pub all: PartSizes,
}

// Of a side of these sizes, if there is one, and caps of n slices, each if it is there: two bools, as the node has them (a cone has no top), for both caps
// have n slices and an Option would hold nothing.
pub fn marks_of(side: Option<PartSizes>, n: usize, top: bool, bottom: bool) -> Marks
    requires { IfSome side (Small piece_most) × (n ≤ 1024) }
    ensures { result ≡ marks_of (unwrap_or side no_sizes) n top bottom }
{
    let a = side.unwrap_or(NO_PART);
    let upper = if top { cap_sizes(n) } else { NO_PART };
    let lower = if bottom { cap_sizes(n) } else { NO_PART };
    let b = sum_sizes(a, upper);
    let all = sum_sizes(b, lower);
    Marks {
        top: a,
        bottom: b,
        all,
    }
}
