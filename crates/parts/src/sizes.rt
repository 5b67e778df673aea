// FORMAT 17.2, 17.10: sizes with their defaults, slices and stacks within their bounds, and the refusals of a part.
ghost use Rattle.std.specs.Prelude.{◌≡◌, [], ◌∷◌, ◌/◌, ◌≤◌, ◌<◌, ◌^◌, ltb};
ghost use Rattle.block.specs.declared.refusal.Refusal.TheVariants.{Pairs, Buffer};
ghost use Rattle.block.specs.Refusal.{refused_as, row, first_of};
ghost use Rattle.parts.specs.Sizes.{dim_of, held_to, is_short_texture, is_short_by, is_short_part, report_of, sum_of};

use crate::builder::Builder;
use crate::vert::GeomCtx;
use block::Refusal;
use lent::Report;

// How many vertices and indices a part makes, and how many pairs it takes. The bounds that `sum_sizes` asks for are no facts of this type: a sum of two may
// lie past those of each, and the definitions (`sum_of`, `cap_sizes`) make PartSizes of any numbers.
#[derive(Clone, Copy)]
pub struct PartSizes {
    pub vertices: usize,
    pub indices: usize,
    pub pairs: usize,
}

// The lengths of the lent slices, and of the list of pairs in floats.
#[derive(Clone, Copy)]
pub struct PartLengths {
    pub positions: usize,
    pub normals: usize,
    pub textures: usize,
    pub indices: usize,
    pub floats: usize,
}

// Those of no part. A constant and no Default: the name says what three zeros would not, and the definitions have it as `no_sizes`.
pub const NO_PART: PartSizes = PartSizes {
    vertices: 0,
    indices: 0,
    pairs: 0,
};

// dim: positive and finite, or the default.
#[tactic(auto, unfolding(crate::specs::Sizes::dim_of))]
pub fn dim(v: f32, d: f32) -> f32
    ensures { result ≡ dim_of v d }
{
    if math::is_finite(v) && v > 0.0 {
        return v;
    }
    d
}

// u32::clamp to the least number and 1,024. Not clamp itself, which asks that the least is at most 1,024: a public function may not ask for more than it
// did, and this asks nothing. Nor `min`: with `n.min(1024)` for the second test (tried), the compiled sphere had 1 stack where 2 are the least.
#[tactic(auto, unfolding(crate::specs::Sizes::held_to))]
pub fn held(n: u32, least: u32) -> usize
    ensures { result ≡ held_to n least }
{
    if n < least {
        return least as usize;
    }
    if n > 1024 {
        return 1024;
    }
    n as usize
}

// Each length is divided, and no number of vertices multiplied: so nothing is asked of it.
#[tactic(auto, unfolding(crate::specs::Sizes::is_short_texture))]
fn is_short_texture(c: GeomCtx, z: PartSizes, l: PartLengths) -> bool
    ensures { result ≡ is_short_texture c z l }
{
    c.need_uvs && l.textures / 2 < z.vertices
}

#[tactic(auto, unfolding(crate::specs::Sizes::is_short_by))]
fn is_short_by(c: GeomCtx, z: PartSizes, l: PartLengths) -> bool
    ensures { result ≡ is_short_by c z l }
{
    l.positions / 3 < z.vertices
        || l.normals / 3 < z.vertices
        || is_short_texture(c, z, l)
        || l.indices < z.indices
}

// Of a part of these sizes, by the lengths of what is lent, or is to be: 10, and then 8.
#[tactic(auto, unfolding(block::specs::Refusal::first_of))]
pub fn part_refusal(c: GeomCtx, z: PartSizes, l: PartLengths) -> Result<(), Refusal>
    ensures { refused_as result ≡ first_of (row Pairs (ltb (l.floats / 2) z.pairs) ∷ row Buffer (is_short_by c z l) ∷ []) }
{
    if l.floats / 2 < z.pairs {
        return Err(Refusal::Pairs);
    }
    if is_short_by(c, z, l) {
        return Err(Refusal::Buffer);
    }
    Ok(())
}

impl Builder<'_> {
    // Of a part of these sizes, with a list of so many floats as pairs.
    pub fn refusal(&self, z: PartSizes, floats: usize) -> Result<(), Refusal>
        ensures { refused_as result ≡ first_of (row Pairs (ltb (floats / 2) z.pairs) ∷ row Buffer (is_short_part self.now z) ∷ []) }
    {
        let l = PartLengths {
            positions: self.positions.len(),
            normals: self.normals.len(),
            textures: self.textures.len(),
            indices: self.indices.len(),
            floats,
        };
        part_refusal(self.ctx, z, l)
    }
}

// FORMAT 17.11: solid, lit and without colours.
#[tactic(auto, unfolding(crate::specs::Sizes::report_of))]
pub fn part_report(z: PartSizes) -> Report
    ensures { result ≡ report_of z }
{
    Report {
        vertices: z.vertices,
        indices: z.indices,
        solid: true,
        unlit: false,
        has_colors: false,
    }
}

// The sizes of a part and of one that follows it.
pub fn sum_sizes(a: PartSizes, b: PartSizes) -> PartSizes
    requires { (a.vertices < 2 ^ 32) × (a.indices < 2 ^ 32) × (a.pairs < 2 ^ 32) × (b.vertices < 2 ^ 32) × (b.indices < 2 ^ 32) × (b.pairs < 2 ^ 32) }
    ensures { result ≡ sum_of a b }
{
    PartSizes {
        vertices: a.vertices + b.vertices,
        indices: a.indices + b.indices,
        pairs: a.pairs + b.pairs,
    }
}
