// FORMAT 9.2: the square root, as f32::sqrt rounds it: the nearest f32 to the exact root. It is worked out digit by digit, and
// no number here is wider than 32 bits (tests/narrow.sh looks).
ghost use Rattle.std.specs.Prelude.{◌≡◌, true, ◌+◌, ◌*◌, ◌%◌, ◌^◌, ◌≤◌, ◌<◌};
ghost use Rattle.std.specs.Float.{binary32};
ghost use Rattle.std.specs.Float.Ieee.{to_bits};
ghost use Rattle.math.specs.SquareRoot.{isqrt, joined, root_bits};
ghost use Rattle.math.specs.Digit.{Digit, Bit, Plain, tall, plain};
ghost use Rattle.math.specs.Nearest.{Rooted};

// A root so far, and what its square leaves of the number so far.
#[derive(Clone, Copy)]
struct Partial {
    q: u32,
    r: u32,
}

// Whether the trial can be taken off, as a digit: a number, so that taking it off is no branch. A cast and no From: a root calls nothing outside of this file
// (tests/narrow.sh).
fn not_below(rest: u32, trial: u32) -> u32
    ensures { Bit rest trial result }
{
    (trial <= rest) as u32
}

// One binary digit more of a root, from the next two of the number. The remainder is at most twice the root, before and after.
fn next_digit(q: u32, r: u32, two: u32) -> Partial
    requires { (q < 2 ^ 24) × (r ≤ 2 * q) × (two < 4) }
    ensures { Digit q r two result.q result.r }
{
    let rest = r * 4 + two;
    let trial = q * 4 + 1;
    let bit = not_below(rest, trial);
    Partial {
        q: q * 2 + bit,
        r: rest - trial * bit,
    }
}

// The whole part of the square root of s * 2^18, whose 50 digits are those of s, two at a time, and then zeros.
fn int_root(s: u32) -> u32
    ensures { result ≡ isqrt 25 (s * 2 ^ 18) }
{
    let mut q: u32 = 0;
    let mut r: u32 = 0;
    let mut rest = s;
    for done in 0..25u32 {
        let d = next_digit(q, r, rest / 1073741824);
        q = d.q;
        r = d.r;
        rest = rest % 1073741824 * 4;
    }
    q
}

// A significand with the digits that the root is taken of at the top of a word: 25 or 26 places up, less 18. A product, so that four are found together
// without a branch.
fn shifted(g: u32, m: u32) -> u32
    requires { m < 2 ^ 24 }
    ensures { result * 2 ^ 18 ≡ m * 2 ^ (25 + g % 2) }
{
    m * 128 * (1 + g % 2)
}

// The bits of the root, from a significand of 24 digits and its place.
fn join_root(g: u32, m: u32) -> u32
    requires { (g ≤ 277) × (2 ^ 23 ≤ m) × (m < 2 ^ 24) }
    ensures { result ≡ joined g m }
{
    (g / 2 + 51) * 8388608 + (int_root(shifted(g, m)) + 1) / 2
}

// The bits of the root of the positive f32 with the bits b.
fn root_bits(b: u32) -> u32
    requires { (0 < b) × (b < 255 * 2 ^ 23) }
    ensures { result ≡ root_bits b }
{
    if b < 8388608 {
        let mut m = b;
        let mut g: u32 = 24;
        // A while: how often it is doubled is what is counted. Not leading_zeros: a root calls nothing outside of this file (tests/narrow.sh).
        while m < 8388608 {
            m = m * 2;
            g = g - 1;
        }
        join_root(g, m)
    } else {
        join_root(b / 8388608 + 23, b % 8388608 + 8388608)
    }
}

// Zeros, positive infinity and NaN are their own roots; below 0 it is NaN.
pub fn root(x: f32) -> f32
    ensures { Rooted x result }
{
    if x > 0.0 && x < f32::INFINITY {
        return f32::from_bits(root_bits(f32::to_bits(x)));
    }
    if x < 0.0 {
        return f32::NAN;
    }
    x
}

// ---- four at once

// One value for each of four numbers. No `map`: tests/narrow.sh sees no width where a type is a parameter, so that no root could call it, and outside of
// the roots it would serve once, for the normals of a cone.
#[derive(Clone, Copy)]
pub struct Four<T> {
    pub a: T,
    pub b: T,
    pub c: T,
    pub d: T,
}

// The whole parts of four roots, as `int_root` finds one. A digit waits for the one before; those of four numbers do not wait for each other.
// No list of N numbers, of which one is the case of 1: a length and an index are of 64 bits, and nothing here may be (tests/narrow.sh). And no step
// over q, r and rest in one struct, for one root and for each of four: then four took 198 ns in place of 76.
fn int_roots(s: Four<u32>) -> Four<u32>
    ensures { (result.a ≡ isqrt 25 (s.a * 2 ^ 18)) × (result.b ≡ isqrt 25 (s.b * 2 ^ 18)) × (result.c ≡ isqrt 25 (s.c * 2 ^ 18)) × (result.d ≡ isqrt 25 (s.d * 2 ^ 18)) }
{
    let mut q = Four {
        a: 0,
        b: 0,
        c: 0,
        d: 0,
    };
    let mut r = q;
    let mut rest = s;
    for turns in 0..25u32 {
        let a = next_digit(q.a, r.a, rest.a / 1073741824);
        let b = next_digit(q.b, r.b, rest.b / 1073741824);
        let c = next_digit(q.c, r.c, rest.c / 1073741824);
        let d = next_digit(q.d, r.d, rest.d / 1073741824);
        q = Four {
            a: a.q,
            b: b.q,
            c: c.q,
            d: d.q,
        };
        r = Four {
            a: a.r,
            b: b.r,
            c: c.r,
            d: d.r,
        };
        rest = Four {
            a: rest.a % 1073741824 * 4,
            b: rest.b % 1073741824 * 4,
            c: rest.c % 1073741824 * 4,
            d: rest.d % 1073741824 * 4,
        };
    }
    q
}

// The digits that the root of the f32 with the bits b is taken of.
fn digits_of(b: u32) -> u32
    requires { Plain b }
    ensures { result * 2 ^ 18 ≡ tall b }
{
    shifted(b / 8388608 + 23, b % 8388608 + 8388608)
}

// The bits of its root, from the whole root q of those digits. The line of `join_root`, for a root that was found with three others: a function of both would
// be this one line, and promise it of any place and root.
fn with_root(b: u32, q: u32) -> u32
    requires { Plain b × (q ≡ isqrt 25 (tall b)) }
    ensures { result ≡ root_bits b }
{
    ((b / 8388608 + 23) / 2 + 51) * 8388608 + (q + 1) / 2
}

// The bits of the roots of four plain numbers, from theirs.
fn plain_roots(w: Four<u32>) -> Four<u32>
    requires { Plain w.a × Plain w.b × Plain w.c × Plain w.d }
    ensures { (result.a ≡ root_bits w.a) × (result.b ≡ root_bits w.b) × (result.c ≡ root_bits w.c) × (result.d ≡ root_bits w.d) }
{
    let q = int_roots(Four {
        a: digits_of(w.a),
        b: digits_of(w.b),
        c: digits_of(w.c),
        d: digits_of(w.d),
    });
    Four {
        a: with_root(w.a, q.a),
        b: with_root(w.b, q.b),
        c: with_root(w.c, q.c),
        d: with_root(w.d, q.d),
    }
}

// Whether x is positive and finite, and no subnormal.
#[tactic(auto, unfolding(crate::specs::Digit::plain))]
fn is_plain(x: f32) -> bool
    ensures { result ≡ plain x }
{
    x > 0.0 && x < f32::INFINITY && 8388607 < f32::to_bits(x)
}

// f32::to_bits: this contract says once that the bits are plain.
fn bits_in(x: f32) -> u32
    requires { plain x ≡ true }
    ensures { (result ≡ to_bits binary32 x) × Plain result }
{
    f32::to_bits(x)
}

// The root of x, from its bits. f32::from_bits: this contract says once that they make the root.
fn root_of(x: f32, r: u32) -> f32
    requires { (plain x ≡ true) × (r ≡ root_bits (to_bits binary32 x)) }
    ensures { Rooted x result }
{
    f32::from_bits(r)
}

fn roots_of_plain(a: f32, b: f32, c: f32, d: f32) -> Four<f32>
    requires { (plain a ≡ true) × (plain b ≡ true) × (plain c ≡ true) × (plain d ≡ true) }
    ensures { Rooted a result.a × Rooted b result.b × Rooted c result.c × Rooted d result.d }
{
    let r = plain_roots(Four {
        a: bits_in(a),
        b: bits_in(b),
        c: bits_in(c),
        d: bits_in(d),
    });
    Four {
        a: root_of(a, r.a),
        b: root_of(b, r.b),
        c: root_of(c, r.c),
        d: root_of(d, r.d),
    }
}

// The roots of four numbers. Where all are plain, as nearly all are, they are worked out together. Four numbers, here and in `normalize_four`, and no Four:
// each caller has them by names of its own, and would write them into one for the call alone.
pub fn roots(a: f32, b: f32, c: f32, d: f32) -> Four<f32>
    ensures { Rooted a result.a × Rooted b result.b × Rooted c result.c × Rooted d result.d }
{
    if is_plain(a) && is_plain(b) && is_plain(c) && is_plain(d) {
        return roots_of_plain(a, b, c, d);
    }
    Four {
        a: root(a),
        b: root(b),
        c: root(c),
        d: root(d),
    }
}
