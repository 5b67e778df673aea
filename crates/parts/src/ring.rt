// FORMAT 17.3, ring: points of a unit circle, from the pairs that are lent.
ghost use Rattle.std.specs.Prelude.{◌≡◌, ◌+◌, ◌*◌, ◌<◌, ◌^◌, get_or};
ghost use Rattle.std.specs.Float.{nan};
ghost use Rattle.math.specs.Whole.{Exact};
ghost use Rattle.parts.specs.Ring.{sine_at, cosine_at, ring_at, share_of};

use lists::get_or;

#[derive(Clone, Copy)]
pub struct Ring {
    pub x: f32,
    pub z: f32,
}

// A read past the end is NaN.
pub fn float_at(floats: &[f32], k: usize) -> f32
    ensures { result ≡ get_or floats.now k nan }
{
    get_or(floats, k, f32::NAN)
}

// The sine of pair k.
#[tactic(auto, unfolding(crate::specs::Ring::sine_at))]
pub fn sine_at(pairs: &[f32], k: usize) -> f32
    requires { k < 2 ^ 32 }
    ensures { result ≡ sine_at pairs.now k }
{
    float_at(pairs, 2 * k)
}

// The cosine of pair k.
#[tactic(auto, unfolding(crate::specs::Ring::cosine_at))]
pub fn cosine_at(pairs: &[f32], k: usize) -> f32
    requires { k < 2 ^ 32 }
    ensures { result ≡ cosine_at pairs.now k }
{
    float_at(pairs, 2 * k + 1)
}

#[tactic(auto, unfolding(crate::specs::Ring::ring_at))]
pub fn ring_at(pairs: &[f32], k: usize) -> Ring
    requires { k < 2 ^ 32 }
    ensures { result ≡ ring_at pairs.now k }
{
    Ring {
        x: -sine_at(pairs, k),
        z: -cosine_at(pairs, k),
    }
}

// i of n steps.
#[tactic(auto, unfolding(crate::specs::Ring::share_of))]
pub fn share(i: usize, n: usize) -> f32
    requires { Exact i × Exact n }
    ensures { result ≡ share_of i n }
{
    math::whole_float(i) / math::whole_float(n)
}
