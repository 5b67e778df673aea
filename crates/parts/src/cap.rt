// FORMAT 17.4, cap: the flat end of a cylinder or a cone.
ghost use Rattle.std.specs.Prelude.{◌≡◌, [], ◌∷◌, ◌+◌, ◌*◌, ◌≤◌, ◌<◌, ◌^◌, IfSome, MatchOption};
ghost use Rattle.parts.specs.Cap.{cap_normal, cap_texture, cap_centre, cap_vert, cap_tri, cap_sizes, cap_part, Numbered};
ghost use Rattle.parts.specs.Written.{Roomy, Written};

use crate::builder::Builder;
use crate::ring::ring_at;
use crate::sizes::PartSizes;
use crate::turns::put_words;
use crate::vert::Vert;
use block::Pair;
use math::{V3, Y_AXIS};
use tables::narrow;

// Height, radius and slices, top or bottom; the numbers of its first vertex and of its first pair. `top` is a bool, as FORMAT has it:
// three functions choose a value by it, and an enum of two would say no more. Its bounds (`Numbered`) are clauses, not facts of the type:
// the definition `cap_at` makes a Cap of any numbers.
#[derive(Clone, Copy)]
pub struct Cap {
    pub y: f32,
    pub r: f32,
    pub slices: usize,
    pub top: bool,
    pub first: usize,
    pub pair: usize,
}

// Downwards.
pub const MINUS_Y: V3 = V3 {
    x: 0.0,
    y: -1.0,
    z: 0.0,
};

fn cap_normal(top: bool) -> V3
    ensures { result ≡ cap_normal top }
{
    if top {
        return Y_AXIS;
    }
    MINUS_Y
}

// t grows towards -Z on top, towards +Z on the bottom.
#[tactic(auto, unfolding(crate::specs::Cap::cap_texture))]
fn cap_texture(top: bool, x: f32, z: f32) -> Pair
    ensures { result ≡ cap_texture top x z }
{
    if top {
        return Pair {
            s: 0.5 + x / 2.0,
            t: 0.5 - z / 2.0,
        };
    }
    Pair {
        s: 0.5 + x / 2.0,
        t: 0.5 + z / 2.0,
    }
}

#[tactic(auto, unfolding(crate::specs::Cap::cap_centre))]
fn cap_centre(k: Cap) -> Vert
    ensures { result ≡ cap_centre k }
{
    let position = V3 {
        x: 0.0,
        y: k.y,
        z: 0.0,
    };
    let normal = cap_normal(k.top);
    let st = Pair { s: 0.5, t: 0.5 };
    Vert {
        position,
        normal,
        st,
    }
}

// Vertex i of its ring.
#[tactic(auto, unfolding(crate::specs::Cap::cap_vert))]
fn cap_vert(pairs: &[f32], k: Cap, i: usize) -> Vert
    requires { k.pair + i < 2 ^ 32 }
    ensures { result ≡ cap_vert pairs.now k i }
{
    let q = ring_at(pairs, k.pair + i);
    let position = V3 {
        x: q.x * k.r,
        y: k.y,
        z: q.z * k.r,
    };
    let normal = cap_normal(k.top);
    let st = cap_texture(k.top, q.x, q.z);
    Vert {
        position,
        normal,
        st,
    }
}

// The triangle of slice i.
#[tactic(auto, unfolding(crate::specs::Cap::cap_tri))]
fn cap_tri(k: Cap, i: usize) -> [u32; 3]
    requires { (i < k.slices) × (k.first < 2 ^ 24) × (k.slices ≤ 1024) }
    ensures { result ≡ cap_tri k i }
{
    let slices = k.slices;
    let centre = narrow(k.first);
    let a = narrow(k.first + 1 + i);
    let b = narrow(k.first + 1 + (i + 1) % slices);
    if k.top {
        return [centre, a, b];
    }
    [centre, b, a]
}

// The sizes of a cap of n slices.
#[tactic(auto, unfolding(crate::specs::Cap::cap_sizes))]
pub fn cap_sizes(n: usize) -> PartSizes
    requires { n ≤ 1024 }
    ensures { result ≡ cap_sizes n }
{
    PartSizes {
        vertices: n + 1,
        indices: 3 * n,
        pairs: n,
    }
}

impl Builder<'_> {
    // The centre, the ring, and a triangle for each slice, from place `at` of the indices on.
    fn put_cap(&mut self, pairs: &[f32], k: Cap, at: usize)
        requires { Numbered k × Roomy (cap_part pairs.now k) k.first at self.old }
        ensures { Written (cap_part pairs.now k) k.first at self.old self.new }
    {
        self.put_vert(k.first, cap_centre(k));
        self.put_verts(
            k.first + 1,
            k.slices,
            |i|
                requires { k.pair + i < 2 ^ 32 }
                ensures { result ≡ cap_vert pairs.exit.now k i ∷ [] }
            { [cap_vert(pairs, k, i)] },
        );
        put_words(
            self.indices,
            at,
            k.slices,
            |i|
                requires { (i < k.slices) × (k.first < 2 ^ 24) × (k.slices ≤ 1024) }
                ensures { result ≡ cap_tri k i }
            { cap_tri(k, i) },
        );
    }

    // A cap, if there is one.
    pub fn put_cap_at(&mut self, pairs: &[f32], cap: Option<Cap>, at: usize)
        requires { IfSome cap (λ k. Numbered k × Roomy (cap_part pairs.now k) k.first at self.old) }
        ensures { MatchOption cap (self.new ≡ self.old) (λ k. Written (cap_part pairs.now k) k.first at self.old self.new) }
    {
        if let Some(k) = cap {
            self.put_cap(pairs, k, at);
        }
    }
}
