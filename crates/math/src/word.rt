// FORMAT 9.1: f32 and its bits. All NaNs are one: any NaN pattern is read, and 7fc00000 is written.
ghost use Rattle.std.specs.Prelude.{◌≡◌, pos};
ghost use Rattle.std.specs.Float.{binary32};
ghost use Rattle.std.specs.Float.Ieee.{of_bits, of_int, to_bits};
ghost use Rattle.std.specs.Float.Ieee.Scale.{finite};
ghost use Rattle.math.specs.Whole.{Exact};

// f32::from_bits
pub fn of_bits(n: u32) -> f32
    ensures { result ≡ of_bits binary32 n }
{
    if n % 0x8000_0000 > 0x7f80_0000 {
        return f32::NAN;
    }
    f32::from_bits(n)
}

// f32::to_bits
pub fn bits_of(x: f32) -> u32
    ensures { result ≡ to_bits binary32 x }
{
    if x.is_nan() {
        return 0x7fc0_0000;
    }
    f32::to_bits(x)
}

// A number of steps or points as a float.
pub fn whole_float(n: usize) -> f32
    requires { Exact n }
    ensures { result ≡ of_int binary32 (pos n) }
{
    n as u32 as f32
}

// f32::is_finite. A name of its own: the contract says it by `finite`, by which the definitions go, where the library has `float_is_finite`.
pub fn is_finite(x: f32) -> bool
    ensures { result ≡ finite x }
{
    x.is_finite()
}
