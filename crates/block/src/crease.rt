// The crease rule (FORMAT 10.2, generate_normals): the face's own normal, that of every face at the point, or of those whose cosine is above a bound.
ghost use Rattle.std.specs.Prelude.{◌≡◌};
ghost use Rattle.block.specs.Crease.{crease_of};

#[derive(Clone, Copy)]
pub enum CreaseRule {
    Own,
    Every,
    Bound(f32),
}

// 3.1415927 is the f32 nearest π.
pub fn crease_of(angle: f32, cosine: f32) -> CreaseRule
    ensures { result ≡ crease_of angle cosine }
{
    if angle <= 0.0 {
        return CreaseRule::Own;
    }
    if 3.1415927 <= angle {
        return CreaseRule::Every;
    }
    CreaseRule::Bound(cosine)
}
