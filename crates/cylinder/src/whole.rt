// FORMAT 17.8, 17.10: the call of a cylinder.
ghost use Rattle.std.specs.Prelude.{◌≤◌, ◌≡◌};
ghost use Rattle.parts.specs.Parted.{Parted, lent_to};
ghost use Rattle.parts.specs.Written.{Roomy, Written};
ghost use Rattle.parts.specs.Round.{half, marks_of};
ghost use Rattle.parts.specs.Sizes.{sizes_where};
ghost use Rattle.cylinder.specs.Cylinder.{side_sizes, cylinder_part, cylinder_of};

use crate::side::put_side_at;
use lent::Answer;
use parts::{
    Builder, Cap, GeomCtx, Marks, PartSizes, Round, finite_ctx, marks_of, part_report, round_of,
};

// The sizes of a side of n slices.
#[tactic(auto, unfolding(crate::specs::Cylinder::side_sizes))]
fn side_sizes(n: usize) -> PartSizes
    requires { n ≤ 1024 }
    ensures { result ≡ side_sizes n }
{
    PartSizes {
        vertices: 2 * (n + 1),
        indices: 6 * n,
        pairs: n + 1,
    }
}

// The side, the top and the bottom, each where it is there, one after the other. The flags are the fields of the node, as the call has them; here each
// becomes an Option with its value. As in cone, but for the top: one function of both would take the side and the definition of the part.
fn put_cylinder(
    pairs: &[f32],
    k: Round,
    side: bool,
    top: bool,
    bottom: bool,
    m: Marks,
    b: &mut Builder<'_>,
)
    requires { (m ≡ marks_of (sizes_where side (side_sizes k.n)) k.n top bottom) × Roomy (cylinder_part pairs.now k.r (half k) k.n side top bottom) 0 0 b.old }
    ensures { Written (cylinder_part pairs.now k.r (half k) k.n side top bottom) 0 0 b.old b.new }
{
    put_side_at(pairs, side.then_some(k), b);
    let h = k.height / 2.0;
    let upper = Cap {
        y: h,
        r: k.r,
        slices: k.n,
        top: true,
        first: m.top.vertices,
        pair: m.top.pairs,
    };
    b.put_cap_at(pairs, top.then_some(upper), m.top.indices);
    let lower = Cap {
        y: -h,
        r: k.r,
        slices: k.n,
        top: false,
        first: m.bottom.vertices,
        pair: m.bottom.pairs,
    };
    b.put_cap_at(pairs, bottom.then_some(lower), m.bottom.indices);
}

// The mesh of a cylinder, into the lent slices; or a refusal, and every lent element as it was.
// The slices one by one, as C hands them.
pub fn cylinder(
    radius: f32,
    height: f32,
    side: bool,
    top: bool,
    bottom: bool,
    slices: u32,
    ctx: GeomCtx,
    pairs: &[f32],
    positions: &mut [u32],
    normals: &mut [u32],
    textures: &mut [u32],
    indices: &mut [u32],
) -> Answer
    ensures { Parted ctx pairs.now (cylinder_of radius height side top bottom slices pairs.now)
        (lent_to positions.old normals.old textures.old indices.old)
        (lent_to positions.new normals.new textures.new indices.new) result }
{
    let k = round_of(radius, height, slices);
    let mut b = Builder {
        ctx: finite_ctx(ctx),
        positions,
        normals,
        textures,
        indices,
    };
    let m = marks_of(side.then_some(side_sizes(k.n)), k.n, top, bottom);
    b.refusal(m.all, pairs.len())?;
    put_cylinder(pairs, k, side, top, bottom, m, &mut b);
    Ok(part_report(m.all))
}
