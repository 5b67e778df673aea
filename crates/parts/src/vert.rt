// FORMAT 17.4, Builder::vert: a vertex of a part, and its texture point as it is written.
ghost use Rattle.std.specs.Prelude.{◌≡◌};
ghost use Rattle.parts.specs.Part.{finite_ctx, uv_of};

use bits::Words2;
use block::{Pair, TexTransform};
use math::V3;

// GeomCtx: whether texture is wanted, and the transform, if there is one.
#[derive(Clone, Copy)]
pub struct GeomCtx {
    pub need_uvs: bool,
    pub transform: Option<TexTransform>,
}

// A position, a normal, and a texture point before FORMAT 7.3.
#[derive(Clone, Copy)]
pub struct Vert {
    pub position: V3,
    pub normal: V3,
    pub st: Pair,
}

// FORMAT 2.3: the pairs of the transform that are not finite replaced.
#[tactic(auto, unfolding(crate::specs::Part::finite_ctx))]
pub fn finite_ctx(c: GeomCtx) -> GeomCtx
    ensures { result ≡ finite_ctx c }
{
    GeomCtx {
        need_uvs: c.need_uvs,
        transform: c.transform.map(block::finite_transform),
    }
}

#[tactic(auto, unfolding(crate::specs::Part::uv_of))]
pub fn uv_of(c: GeomCtx, v: Vert) -> Words2
    ensures { result ≡ uv_of c v }
{
    block::uv(c.transform, v.st.into())
}
