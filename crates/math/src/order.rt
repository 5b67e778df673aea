// FORMAT 9.4: minimum and maximum, which give the other value for a NaN, and the absolute value.
ghost use Rattle.std.specs.Prelude.{◌≡◌};
ghost use Rattle.math.specs.Order.{is_zero, choice, min_of, max_of, magnitude};

fn is_zero(x: f32) -> bool
    ensures { result ≡ is_zero x }
{
    x == 0.0
}

// f32::abs. A name of its own: the contract says it by `magnitude` of specs/Order.
pub fn abs(x: f32) -> f32
    ensures { result ≡ magnitude x }
{
    x.abs()
}

// b where it is past a, or where both are zeros and b is the one that is wanted. Two bools, and no closure: each is a comparison that the one call makes, and
// no step to run.
#[tactic(auto, unfolding(crate::specs::Order::choice))]
fn choose(past: bool, wanted: bool, a: f32, b: f32) -> f32
    ensures { result ≡ choice past wanted a b }
{
    if a.is_nan() {
        return b;
    }
    if b.is_nan() {
        return a;
    }
    if past || is_zero(a) && is_zero(b) && wanted {
        return b;
    }
    a
}

// f32::min. Of two zeros, the negative one; a zero's sign is that of its reciprocal.
pub fn min(a: f32, b: f32) -> f32
    ensures { result ≡ min_of a b }
{
    choose(b < a, 1.0 / b < 0.0, a, b)
}

// f32::max. Of two zeros, the positive one.
pub fn max(a: f32, b: f32) -> f32
    ensures { result ≡ max_of a b }
{
    choose(a < b, 1.0 / b > 0.0, a, b)
}
