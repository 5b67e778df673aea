// Tables filled.
ghost use Rattle.std.specs.Prelude.{◌≡◌, ◌+◌, ◌^◌, ◌≤◌, ◌<◌, length, replicate};
ghost use Rattle.std.specs.Float.{binary32};
ghost use Rattle.std.specs.Float.Ieee.{of_bits};
ghost use Rattle.lists.specs.Parts.{spliced};

// A number as a word: kept, since it carries the bound under which the cast loses nothing.
pub fn narrow(x: usize) -> u32
    requires { x < 2 ^ 32 }
    ensures { result ≡ x }
{
    x as u32
}

// The n words from a are v. Kept beside the library's `fill`, as its contract says once what that leaves of the other words.
pub fn fill(work: &mut [u32], a: usize, n: usize, v: u32)
    requires { a + n ≤ length work.old }
    ensures { work.new ≡ spliced work.old a (replicate n v) }
{
    work[a..a + n].fill(v);
}

// Every word is 0. This and `clear_floats` are two, and not one that takes the value: each says which value an unused place has.
pub fn clear_words(work: &mut [u32])
    ensures { work.new ≡ replicate (length work.old) 0 }
{
    work.fill(0);
}

// Every float is 0.0.
pub fn clear_floats(floats: &mut [f32])
    ensures { floats.new ≡ replicate (length floats.old) (of_bits binary32 0) }
{
    floats.fill(0.0);
}
