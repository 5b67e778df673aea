// FORMAT 17.7, 17.10: the call of a sphere.
ghost use Rattle.std.specs.Prelude.{◌≡◌, List, Float};
ghost use Rattle.parts.specs.Parted.{Parted, lent_to};
ghost use Rattle.parts.specs.Written.{Sized};
ghost use Rattle.sphere.specs.Sphere.{sphere_part, sphere_of};

use crate::ball::Ball;
use crate::bands::put_bands;
use crate::rows::put_rows;
use lent::Answer;
use parts::{Builder, GeomCtx, PartSizes, dim, finite_ctx, held, part_report};

fn sphere_sizes(o: Ball) -> PartSizes
    ensures { (r : Float) (ps : List Float) → Sized (sphere_part r o.n o.k ps) result }
{
    PartSizes {
        vertices: (o.k + 1) * (o.n + 1),
        indices: 6 * o.n * (o.k - 1),
        pairs: (o.k + 1) * (o.n + 2),
    }
}

// The mesh of a sphere, into the lent slices; or a refusal, and every lent element as it was.
// The slices one by one, as C hands them.
pub fn sphere(
    radius: f32,
    slices: u32,
    stacks: u32,
    ctx: GeomCtx,
    pairs: &[f32],
    positions: &mut [u32],
    normals: &mut [u32],
    textures: &mut [u32],
    indices: &mut [u32],
) -> Answer
    ensures { Parted ctx pairs.now (sphere_of radius slices stacks pairs.now)
        (lent_to positions.old normals.old textures.old indices.old)
        (lent_to positions.new normals.new textures.new indices.new) result }
{
    let o = Ball {
        r: dim(radius, 1.0),
        n: held(slices, 3),
        k: held(stacks, 2),
    };
    let mut b = Builder {
        ctx: finite_ctx(ctx),
        positions,
        normals,
        textures,
        indices,
    };
    let z = sphere_sizes(o);
    b.refusal(z, pairs.len())?;
    put_rows(o, pairs, &mut b);
    put_bands(b.indices, o);
    Ok(part_report(z))
}
