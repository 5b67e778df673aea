// FORMAT 17.2, 17.8, 17.9: a cylinder or a cone as it is read.
ghost use Rattle.std.specs.Prelude.{◌≡◌, ◌≤◌};
ghost use Rattle.math.specs.Vector.{one_f, two_f};
ghost use Rattle.parts.specs.Sizes.{dim_of, held_to};

use crate::sizes::{dim, held};

// The radius, the height and the slices, of the node. The pairs that are lent go beside it: a cap reads them with a Cap and not with this.
#[derive(Clone, Copy)]
pub struct Round {
    pub r: f32,
    pub height: f32,
    pub n: usize,
    ghost few: { n ≤ 1024 },
}

pub fn round_of(radius: f32, height: f32, slices: u32) -> Round
    ensures { (result.r ≡ dim_of radius one_f) × (result.height ≡ dim_of height two_f) × (result.n ≡ held_to slices 3) }
{
    Round {
        r: dim(radius, 1.0),
        height: dim(height, 2.0),
        n: held(slices, 3),
    }
}
