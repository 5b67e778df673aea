// Sine and cosine of an angle from the table (FORMAT 16.3).
ghost use Rattle.std.specs.Prelude.{◌≡◌, cond, ◌+◌, ◌-◌, ◌%◌, ◌<◌, ◌≤◌, min};
ghost use Rattle.std.specs.Float.Ieee.{neg};
ghost use Rattle.series.specs.Value.{blend};
ghost use Rattle.sine.specs.SinCos.{fraction_of, half_of, inside_of, sin_cos_of};

use crate::angle::{exponent, parts, significand, step_of};
use crate::table::four_entries;

// Laid out as in C, for hosts.
#[repr(C)]
#[derive(Clone, Copy)]
pub struct SinCos {
    pub sin: f32,
    pub cos: f32,
}

// Which entry is the sine at point j of a half turn.
fn sin_place(j: usize) -> usize
    requires { j ≤ 2048 }
    ensures { (result ≡ min j (2048 - j)) × (result < 1025) }
{
    j.min(2048 - j)
}

// Which is the size of the cosine there.
fn cos_place(j: usize) -> usize
    requires { j ≤ 2048 }
    ensures { (result ≡ 1024 - j + (j - 1024)) × (result < 1025) }
{
    j.abs_diff(1024)
}

// w of 2^24 parts of the way from a to b, to 24 digits.
fn blended(a: u32, b: u32, w: u64) -> u64
    requires { (a ≤ 1073741824) × (b ≤ 1073741824) × (w ≤ 16777216) }
    ensures { result ≡ blend a b w }
{
    ((16777216 - w) * u64::from(a) + w * u64::from(b)) / 1073741824
}

// t / 2^24.
fn fraction(t: u64) -> f32
    requires { t ≤ 16777216 }
    ensures { result ≡ fraction_of t }
{
    (t as f32) * 5.9604644775390625e-8
}

// A bool here and in `half`: whether the value is below 0. It chooses a value and no step, and an enum of two would be made by the same tests.
fn signed(x: f32, minus: bool) -> f32
    ensures { result ≡ cond minus (neg x) x }
{
    if minus {
        return -x;
    }
    x
}

// On a half turn: w of 2^24 parts after point j. The sine is negated where minus says so.
fn half(j: usize, w: u64, minus: bool) -> SinCos
    requires { (j < 2048) × (w ≤ 16777216) }
    ensures { result ≡ half_of j w minus }
{
    let e = four_entries(
        sin_place(j),
        sin_place(j + 1),
        cos_place(j),
        cos_place(j + 1),
    );
    let s = fraction(blended(e.sin, e.next_sin, w));
    let c = fraction(blended(e.cos, e.next_cos, w));
    let sin = signed(s, minus);
    let cos = signed(c, 1024 <= j);
    SinCos { sin, cos }
}

// The angle with the bit pattern b, of size at most 1,024.
fn inside(b: u32) -> SinCos
    requires { b % 2147483648 ≤ 1149239296 }
    ensures { result ≡ inside_of b }
{
    let a = b % 2147483648;
    let q = parts(significand(a), exponent(a));
    let k = step_of(q);
    let w = q % 16777216;
    if k < 2048 {
        return half(k, w, 2147483648 <= b);
    }
    half(4095 - k, 16777216 - w, b < 2147483648)
}

// Sine and cosine of x; of an angle above 1,024 in size, or none, 0 and 1. Two tests, and no ||: to_bits asks for a number.
pub fn sin_cos(x: f32) -> SinCos
    ensures { result ≡ sin_cos_of x }
{
    if x.is_nan() {
        return SinCos { sin: 0.0, cos: 1.0 };
    }
    let b = f32::to_bits(x);
    if 1149239296 < b % 2147483648 {
        return SinCos { sin: 0.0, cos: 1.0 };
    }
    inside(b)
}
