// FORMAT 17.2, 17.6, 17.10: the call of a box.
ghost use Rattle.std.specs.Prelude.{◌≡◌, []};
ghost use Rattle.parts.specs.Parted.{Parted, lent_to};
ghost use Rattle.boxes.specs.Box.{finite_size, half_size, box_of};

use crate::tris::put_box_tris;
use crate::verts::put_faces;
use lent::Answer;
use math::{V3, is_finite};
use parts::{Builder, GeomCtx, PartSizes, dim, finite_ctx, part_report};

// fl::v3: a size with a component that is not finite is the default.
#[tactic(auto, unfolding(crate::specs::Box::finite_size))]
fn finite_size(s: V3) -> V3
    ensures { result ≡ finite_size s }
{
    if is_finite(s.x) && is_finite(s.y) && is_finite(s.z) {
        return s;
    }
    V3 {
        x: 2.0,
        y: 2.0,
        z: 2.0,
    }
}

#[tactic(auto, unfolding(crate::specs::Box::half_size))]
fn half_size(size: V3) -> V3
    ensures { result ≡ half_size size }
{
    let s = finite_size(size);
    V3 {
        x: dim(s.x, 2.0) / 2.0,
        y: dim(s.y, 2.0) / 2.0,
        z: dim(s.z, 2.0) / 2.0,
    }
}

// The mesh of a box, into the lent slices; or a refusal, and every lent element as it was.
// The slices one by one, as C hands them.
pub fn box_prim(
    size: V3,
    ctx: GeomCtx,
    positions: &mut [u32],
    normals: &mut [u32],
    textures: &mut [u32],
    indices: &mut [u32],
) -> Answer
    ensures { Parted ctx [] (box_of size)
        (lent_to positions.old normals.old textures.old indices.old)
        (lent_to positions.new normals.new textures.new indices.new) result }
{
    let h = half_size(size);
    let mut b = Builder {
        ctx: finite_ctx(ctx),
        positions,
        normals,
        textures,
        indices,
    };
    let z = PartSizes {
        vertices: 24,
        indices: 36,
        pairs: 0,
    };
    b.refusal(z, 0)?;
    put_faces(h, &mut b);
    put_box_tris(b.indices);
    Ok(part_report(z))
}
