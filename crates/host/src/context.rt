// The flags and the texture transform of a part, as a host gives them (FORMAT 17.12).
ghost use Rattle.std.specs.Prelude.{◌≡◌};
ghost use Rattle.host.specs.Context.{is_on, ctx_of};

use block::{Pair, TexTransform};
use parts::{GeomCtx, float_at};

pub fn is_on(flag: u32) -> bool
    ensures { result ≡ is_on flag }
{
    flag != 0
}

// Whether texture is wanted, and the transform: eight floats or more, of which the first eight count.
pub fn ctx_of(need_uvs: u32, transform: &[f32]) -> GeomCtx
    ensures { result ≡ ctx_of need_uvs transform.now }
{
    let given = TexTransform {
        center: Pair {
            s: float_at(transform, 0),
            t: float_at(transform, 1),
        },
        sine: float_at(transform, 2),
        cosine: float_at(transform, 3),
        scale: Pair {
            s: float_at(transform, 4),
            t: float_at(transform, 5),
        },
        translation: Pair {
            s: float_at(transform, 6),
            t: float_at(transform, 7),
        },
    };
    GeomCtx {
        need_uvs: is_on(need_uvs),
        transform: (8 <= transform.len()).then_some(given),
    }
}
