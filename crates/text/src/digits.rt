// The digits of a number (FORMAT 14).
ghost use Rattle.std.specs.Prelude.{◌≡◌, ◌&&◌, ◌+◌, ◌^◌, ◌≤◌, ◌<◌};
ghost use Rattle.text.specs.Wrote.{Writes};
ghost use Rattle.text.specs.Digits.{digit_byte, digits};

use crate::writer::Writer;

// The character of a digit. By hand: of the library's formatting it is known which bytes it writes to a `String` alone, and nothing is allocated here.
fn digit_byte(d: usize) -> u8
    requires { d < 16 }
    ensures { result ≡ digit_byte d }
{
    if d < 10 {
        return b'0' + d as u8;
    }
    b'a' - 10 + d as u8
}

impl Writer<'_> {
    // The last k digits of n, or the fewest that it has where `short` is set: a flag, for the two differ in one test of each turn, and share what is
    // proved of the rest.
    pub fn put_digits(&mut self, short: bool, base: usize, k: usize, n: usize)
        requires { (self.old.at + k ≤ 2 ^ 50) × (0 < base) × (base ≤ 16) }
        ensures { Writes self.old (digits short base k n) k self.new }
    {
        if k == 0 {
            return;
        }
        if !(short && n < base) {
            self.put_digits(short, base, k - 1, n / base);
        }
        self.put_byte(digit_byte(n % base));
    }
}
