// FORMAT 16.2: the bit pattern of an angle, in parts of 2^-24 of a step of the table.
ghost use Rattle.std.specs.Prelude.{◌≡◌, ◌*◌, ◌/◌, ◌%◌, ◌^◌, ◌<◌, ◌≤◌};
ghost use Rattle.series.specs.Series.{half_turn};
ghost use Rattle.series.specs.Value.{fine};
ghost use Rattle.sine.specs.SinCos.{mant, expo};
ghost use Rattle.math.specs.Digit.{Bit};

// Half a turn, p, in 2^-60.
const HALF_TURN: u64 = 3622009729038561421;

// 1 where r is half a turn or more, else 0: the top bit of a sum and not a branch, which would be guessed wrongly at every second digit. Not u64::from
// of the test (tried): the quotient took a fifth longer (measured by itself, as rustc compiles it).
fn digit(r: u64) -> u64
    requires { r < 2 * half_turn }
    ensures { Bit r half_turn result }
{
    (r + (9223372036854775808 - HALF_TURN)) / 9223372036854775808
}

// m * 2^n over p * 2^60, a binary digit at a time; up to 2^61 there is none.
fn quotient(m: u64, n: u64) -> u64
    requires { (m < 16777216) × (n ≤ 82) }
    ensures { result ≡ m * 2 ^ n / half_turn }
{
    if n < 37 {
        return 0;
    }
    let mut q: u64 = 0;
    let mut r: u64 = m * 137438953472;
    for i in 37..n {
        let b = digit(r + r);
        q = q + q + b;
        r = r + r - HALF_TURN * b;
    }
    q
}

// The angle m * 2^e units of 2^-149, in these parts.
pub fn parts(m: u64, e: u64) -> u64
    requires { (m < 16777216) × (e ≤ 136) }
    ensures { result ≡ m * 2 ^ e / fine }
{
    if e < 54 {
        return 0;
    }
    quotient(m, e - 54)
}

// The significand of a pattern without a sign.
pub fn significand(b: u32) -> u64
    requires { b < 2139095040 }
    ensures { result ≡ mant b }
{
    let part = u64::from(b % 8388608);
    if b / 8388608 == 0 {
        part
    } else {
        8388608 + part
    }
}

// Its exponent: what a unit of the significand counts is 2 to this power, in units of 2^-149.
pub fn exponent(b: u32) -> u64
    requires { b < 2139095040 }
    ensures { result ≡ expo b }
{
    u64::from(b / 8388608).saturating_sub(1)
}

// Which of the 4,096 steps of a turn q parts end in.
pub fn step_of(q: u64) -> usize
    ensures { result ≡ q / 16777216 % 4096 }
{
    (q / 16777216 % 4096) as usize
}
