// Fields of bits, words and the entries of index lists in a block's bytes.
#![tactic(auto)]

ghost use Rattle.std.specs.Prelude.{◌≡◌, ℕ, ◌+◌, ◌*◌, ◌/◌, ◌<◌, ◌≤◌, length, get_or, take, drop};
ghost use Rattle.bits.specs.Bits.{field, word_at, entries};

use lists::get_or;

// The bits of two, three and four f32: a texture point, a point or a normal, a colour. Three structs and no list of N words: their fields have
// the names that FORMAT and every contract say them by, where a list would say 0, 1, 2.
#[derive(Clone, Copy)]
pub struct Words2 {
    pub s: u32,
    pub t: u32,
}

#[derive(Clone, Copy, Default)]
pub struct Words3 {
    pub x: u32,
    pub y: u32,
    pub z: u32,
}

#[derive(Clone, Copy, Default)]
pub struct Words4 {
    pub r: u32,
    pub g: u32,
    pub b: u32,
    pub a: u32,
}

// The number that `width` bits from bit `at` on write, most significant first. Bits beyond the block are 0.
pub fn field_at(block: &[u8], at: u32, width: u32) -> u32
    requires { width ≤ 32 }
    ensures { result ≡ field block.now at width }
{
    let start = at as usize;
    let n = width as usize;
    let mut v: u32 = 0;
    for k in 0..n {
        let i = start + k;
        let s = 7 - i % 8;
        v = v * 2 + u32::from((get_or(block, i / 8, 0) >> s) % 2);
    }
    v
}

// The word whose first byte is byte `at`, big-endian.
pub fn word(block: &[u8], at: usize) -> u32
    requires { at + 4 ≤ length block.now }
    ensures { result ≡ word_at block.now at }
{
    u32::from_be_bytes([block[at], block[at + 1], block[at + 2], block[at + 3]])
}

// Entry `k` of an index list.
pub fn entry(list: &[u8], k: usize) -> u32
    requires { k < length list.now / 4 }
    ensures { result ≡ get_or (entries list.now) k 0 }
{
    word(list, 4 * k)
}

// The `n` bytes from byte `at` on, or as many of them as there are.
pub fn part(bytes: &[u8], at: usize, n: usize) -> &[u8]
    ensures { result.now ≡ take n (drop at bytes.now) }
{
    let rest = &bytes[at.min(bytes.len())..];
    &rest[..n.min(rest.len())]
}
