// What an attribute's list holds at a number (FORMAT 7.2). Words are the bits of f32, and are copied.
ghost use Rattle.std.specs.Prelude.{◌≡◌, ℕ, ◌<◌, ◌*◌, ◌/◌, List, true, false, length};
ghost use Rattle.block.specs.Value.{words2, words3, rgba, rgb, value_at, value4_at};

use bits::{Words2, Words3, Words4};

// The bits of 1.0.
pub const ONE: u32 = 0x3f80_0000;

// What a list holds at each number: how many words it has, and how they are read.
pub trait Value: Copy {
    ghost width: { ℕ };

    ghost made: { List ℕ → ℕ → Self };

    // The bytes of one value.
    fn bytes() -> usize
        ensures size { result ≡ 4 * width }
        ensures some { 0 < result };

    // Value `k` of the list.
    fn read(values: &[u8], k: usize) -> Self
        requires { k < length values.now / (4 * width) }
        ensures { result ≡ made values.now k };
}

impl Value for Words2 {
    ghost width = { 2 };

    ghost made = { words2 };

    fn bytes() -> usize {
        8
    }

    fn read(values: &[u8], k: usize) -> Words2 {
        Words2 {
            s: bits::word(values, 8 * k),
            t: bits::word(values, 8 * k + 4),
        }
    }
}

impl Value for Words3 {
    ghost width = { 3 };

    ghost made = { words3 };

    fn bytes() -> usize {
        12
    }

    fn read(values: &[u8], k: usize) -> Words3 {
        Words3 {
            x: bits::word(values, 12 * k),
            y: bits::word(values, 12 * k + 4),
            z: bits::word(values, 12 * k + 8),
        }
    }
}

// A colour of 4 words.
#[derive(Clone, Copy)]
pub struct Rgba(pub Words4);

impl Value for Rgba {
    ghost width = { 4 };

    ghost made = { rgba };

    fn bytes() -> usize {
        16
    }

    fn read(values: &[u8], k: usize) -> Rgba {
        Rgba(Words4 {
            r: bits::word(values, 16 * k),
            g: bits::word(values, 16 * k + 4),
            b: bits::word(values, 16 * k + 8),
            a: bits::word(values, 16 * k + 12),
        })
    }
}

// A colour of 3 words, with alpha 1.
#[derive(Clone, Copy)]
pub struct Rgb(pub Words4);

impl Value for Rgb {
    ghost width = { 3 };

    ghost made = { rgb };

    fn bytes() -> usize {
        12
    }

    fn read(values: &[u8], k: usize) -> Rgb {
        let v = Words3::read(values, k);
        Rgb(Words4 {
            r: v.x,
            g: v.y,
            b: v.z,
            a: ONE,
        })
    }
}

// The value at the number found, or the missing one where the list has none there.
pub fn value_or<V: Value>(values: &[u8], found: Option<u32>, missing: V) -> V
    ensures { result ≡ value_at (V.made values.now) V.width values.now found missing }
{
    let Some(n) = found else {
        return missing;
    };
    let k = n as usize;
    if k < values.len() / V::bytes() {
        return V::read(values, k);
    }
    missing
}

// A colour of 4 words, or of 3. `alpha` is a bit of the header and stays one, as `Header` has it.
pub fn value4(values: &[u8], alpha: bool, found: Option<u32>, missing: Words4) -> Words4
    ensures { result ≡ value4_at values.now alpha found missing }
{
    if alpha {
        return value_or(values, found, Rgba(missing)).0;
    }
    value_or(values, found, Rgb(missing)).0
}
