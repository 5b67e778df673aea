// The twelve words after the header, with what is read for those that are not finite (FORMAT 2.3).
ghost use Rattle.std.specs.Prelude.{◌≡◌, ◌<◌};
ghost use Rattle.block.specs.Settings.{float_at, pair_at, finite_or, pair_or, finite_transform, transform_of, settings_of};

use crate::crease::{CreaseRule, crease_of};
use crate::edition::edition_in;
use crate::texture::{Pair, TexTransform};

#[derive(Clone, Copy)]
pub struct Settings {
    pub crease: CreaseRule,
    pub x_spacing: f32,
    pub z_spacing: f32,
    pub transform: TexTransform,
}

// Float `k` of the twelve.
fn float_at(block: &[u8], k: u32) -> f32
    requires { k < 12 }
    ensures { result ≡ float_at block.now k }
{
    let e = edition_in(block);
    math::of_bits(bits::field_at(block, 32 * (e.header_words + k), 32))
}

fn finite_or(x: f32, other: f32) -> f32
    ensures { result ≡ finite_or x other }
{
    if math::is_finite(x) { x } else { other }
}

// The pair, or the other one where a part of it is not finite.
fn pair_or(p: Pair, other: Pair) -> Pair
    ensures { result ≡ pair_or p other }
{
    if math::is_finite(p.s) && math::is_finite(p.t) {
        p
    } else {
        other
    }
}

// The transform with each of its pairs that is not finite replaced.
pub fn finite_transform(x: TexTransform) -> TexTransform
    ensures { result ≡ finite_transform x }
{
    let zero = Pair::default();
    let one = Pair { s: 1.0, t: 1.0 };
    let rotation = pair_or(
        Pair {
            s: x.sine,
            t: x.cosine,
        },
        Pair { s: 0.0, t: 1.0 },
    );
    TexTransform {
        center: pair_or(x.center, zero),
        sine: rotation.s,
        cosine: rotation.t,
        scale: pair_or(x.scale, one),
        translation: pair_or(x.translation, zero),
    }
}

// Floats `k` and `k + 1` of the twelve.
fn pair_at(block: &[u8], k: u32) -> Pair
    requires { k < 11 }
    ensures { result ≡ pair_at block.now k }
{
    Pair {
        s: float_at(block, k),
        t: float_at(block, k + 1),
    }
}

fn read_transform(block: &[u8]) -> TexTransform
    ensures { result ≡ transform_of block.now }
{
    finite_transform(TexTransform {
        center: pair_at(block, 4),
        sine: float_at(block, 6),
        cosine: float_at(block, 7),
        scale: pair_at(block, 8),
        translation: pair_at(block, 10),
    })
}

pub fn read_settings(block: &[u8]) -> Settings
    ensures { result ≡ settings_of block.now }
{
    let angle = finite_or(float_at(block, 0), 0.0);
    let crease = crease_of(angle, float_at(block, 1));
    let x_spacing = finite_or(float_at(block, 2), 1.0);
    let z_spacing = finite_or(float_at(block, 3), 1.0);
    let transform = read_transform(block);
    Settings {
        crease,
        x_spacing,
        z_spacing,
        transform,
    }
}
