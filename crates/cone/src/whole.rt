// FORMAT 17.9, 17.10: the call of a cone.
ghost use Rattle.std.specs.Prelude.{◌≤◌, ◌≡◌, false};
ghost use Rattle.parts.specs.Parted.{Parted, lent_to};
ghost use Rattle.parts.specs.Written.{Roomy, Written};
ghost use Rattle.parts.specs.Round.{marks_of};
ghost use Rattle.parts.specs.Sizes.{sizes_where};
ghost use Rattle.cone.specs.Cone.{cone_side_sizes, cone_part, cone_of};

use crate::side::put_side_at;
use lent::Answer;
use parts::{
    Builder, Cap, GeomCtx, Marks, PartSizes, Round, finite_ctx, marks_of, part_report, round_of,
};

// The sizes of a side of n slices.
#[tactic(auto, unfolding(crate::specs::Cone::cone_side_sizes))]
fn side_sizes(n: usize) -> PartSizes
    requires { n ≤ 1024 }
    ensures { result ≡ cone_side_sizes n }
{
    PartSizes {
        vertices: 3 * n,
        indices: 3 * n,
        pairs: 5 * n,
    }
}

// The side and the bottom, each where it is there, one after the other. The flags are the fields of the node, as the call has them; here each becomes
// an Option with its value. As in cylinder, but with no top: one function of both would take the side and the definition of the part.
fn put_cone(pairs: &[f32], k: Round, side: bool, bottom: bool, m: Marks, b: &mut Builder<'_>)
    requires { (m ≡ marks_of (sizes_where side (cone_side_sizes k.n)) k.n false bottom) × Roomy (cone_part pairs.now k.r k.height k.n side bottom) 0 0 b.old }
    ensures { Written (cone_part pairs.now k.r k.height k.n side bottom) 0 0 b.old b.new }
{
    put_side_at(pairs, side.then_some(k), b);
    let lower = Cap {
        y: -(k.height / 2.0),
        r: k.r,
        slices: k.n,
        top: false,
        first: m.bottom.vertices,
        pair: m.bottom.pairs,
    };
    b.put_cap_at(pairs, bottom.then_some(lower), m.bottom.indices);
}

// The mesh of a cone, into the lent slices; or a refusal, and every lent element as it was.
// The slices one by one, as C hands them.
pub fn cone(
    radius: f32,
    height: f32,
    side: bool,
    bottom: bool,
    slices: u32,
    ctx: GeomCtx,
    pairs: &[f32],
    positions: &mut [u32],
    normals: &mut [u32],
    textures: &mut [u32],
    indices: &mut [u32],
) -> Answer
    ensures { Parted ctx pairs.now (cone_of radius height side bottom slices pairs.now)
        (lent_to positions.old normals.old textures.old indices.old)
        (lent_to positions.new normals.new textures.new indices.new) result }
{
    let k = round_of(radius, height, slices);
    let mut b = Builder {
        ctx: finite_ctx(ctx),
        positions,
        normals,
        textures,
        indices,
    };
    // No top.
    let m = marks_of(side.then_some(side_sizes(k.n)), k.n, false, bottom);
    b.refusal(m.all, pairs.len())?;
    put_cone(pairs, k, side, bottom, m, &mut b);
    Ok(part_report(m.all))
}
