// The texture transform, and what is written of a texture point (FORMAT 7.3, TexTransform and GeomCtx::uv).
ghost use Rattle.std.specs.Prelude.{◌≡◌};
ghost use Rattle.block.specs.Texture.{pair_of, words_of, applied, uv_by};

use bits::Words2;

#[derive(Clone, Copy, Default, PartialEq)]
pub struct Pair {
    pub s: f32,
    pub t: f32,
}

impl From<Words2> for Pair {
    ghost from_gives = { λ w p. p ≡ pair_of w };

    fn from(w: Words2) -> Pair {
        Pair {
            s: math::of_bits(w.s),
            t: math::of_bits(w.t),
        }
    }
}

impl From<Pair> for Words2 {
    ghost from_gives = { λ p w. w ≡ words_of p };

    fn from(p: Pair) -> Words2 {
        Words2 {
            s: math::bits_of(p.s),
            t: math::bits_of(p.t),
        }
    }
}

// The rotation is given by its sine and cosine.
#[derive(Clone, Copy)]
pub struct TexTransform {
    pub center: Pair,
    pub sine: f32,
    pub cosine: f32,
    pub scale: Pair,
    pub translation: Pair,
}

impl TexTransform {
    pub fn apply(self, p: Pair) -> Pair
        ensures { result ≡ applied self p }
    {
        let a = p.s + self.translation.s + self.center.s;
        let b = p.t + self.translation.t + self.center.t;
        let c = self.cosine * a - self.sine * b;
        let d = self.sine * a + self.cosine * b;
        Pair {
            s: c * self.scale.s - self.center.s,
            t: d * self.scale.t - self.center.t,
        }
    }
}

// The words that are written of a texture point; without a transform s is copied and keeps the bits of a NaN.
pub fn uv(transform: Option<TexTransform>, w: Words2) -> Words2
    ensures { result ≡ uv_by transform w }
{
    if let Some(x) = transform {
        let q = x.apply(Pair::from(w));
        return Words2::from(Pair {
            s: q.s,
            t: 1.0 - q.t,
        });
    }
    Words2 {
        s: w.s,
        t: math::bits_of(1.0 - math::of_bits(w.t)),
    }
}
