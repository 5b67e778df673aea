// The blocks of the cases: sets of faces or primitives with ccw set and convex off (FORMAT 2). Where their counts and lists stand is the edition's.
ghost use Rattle.std.specs.Prelude.{◌^◌, ◌≤◌, ◌<◌, length, ◌≡◌};

use crate::full::{Seen, convert_full};
use block::{COUNTS_AT, LIMIT, block_bytes, edition_of, list_place, read_header};

// More bytes than any of the cases has.
const ROOM: usize = 16 * LIMIT;

// A word, most significant byte first, if the block has its place.
fn put_word(block: &mut [u8], at: usize, v: u32)
    requires { at ≤ 2 ^ 32 }
{
    if at + 4 <= block.len() {
        block[at..at + 4].copy_from_slice(&v.to_be_bytes());
    }
}

// Sets a bit, where a zero bit stands.
fn put_bit(block: &mut [u8], at: usize) {
    let i = at / 8;
    if i < block.len() {
        let s = 7 - at % 8;
        block[i] |= 1 << s;
    }
}

// A number of so many bits, where only zero bits stand.
fn put_field(block: &mut [u8], at: usize, width: u32, v: u32)
    requires { at ≤ 2 ^ 40 }
{
    let mut left = v;
    for k in (0..width).rev() {
        if left % 2 == 1 {
            put_bit(block, at + (k as usize));
        }
        left /= 2;
    }
}

// The kind and the bits as the first word has them, and the first two counts: the points and the entries of the index list.
fn put_header(block: &mut [u8], first: u32, points: u32, entries: u32) {
    let width = edition_of(1).count_bits;
    let at = COUNTS_AT as usize;
    put_word(block, 0, first);
    put_field(block, at, width, points);
    put_field(block, at + (width as usize), width, entries);
}

// Where a list begins, in a block that has its header; none begins past the end.
fn start_of(block: &[u8], list: usize) -> usize
    ensures { result ≤ length block.now }
{
    list_place(read_header(block), list).at.min(block.len())
}

// n points of a parabola from a byte on, so that the face of all of them is convex.
fn put_points(block: &mut [u8], from: usize, n: u16)
    requires { from ≤ 2 ^ 20 }
{
    for i in 0..n {
        let at = from + 12 * usize::from(i);
        let x = f32::from(i);
        put_word(block, at, math::bits_of(x));
        put_word(block, at + 4, math::bits_of(x * x));
    }
}

// Entry i of 0 1 third fourth, again and again.
fn entry_of(i: u32, third: u32, fourth: u32) -> u32 {
    match i % 4 {
        2 => third,
        3 => fourth,
        k => k,
    }
}

// The n entries that a closure gives for 0, 1, .. from a byte on.
fn put_entries<F: Fn(u32) -> u32>(block: &mut [u8], at: usize, n: u16, entry: F)
    requires room { at ≤ 2 ^ 20 }
    requires callable { F.IsAlwaysCallable entry }
{
    for i in 0..n {
        put_word(block, at + 4 * usize::from(i), entry(u32::from(i)));
    }
}

// What a block that begins so and has its header is converted to.
fn convert_start(block: &[u8]) -> Seen {
    convert_full(bits::part(block, 0, block_bytes(read_header(block))))
}

// The first word of a face set.
const FACES: u32 = 0x1100_0000;

// So many points, and so many entries that a closure gives.
fn convert_set<F: Fn(u32) -> u32>(first: u32, points: u16, entries: u16, entry: F) -> Seen
    requires callable { F.IsAlwaysCallable entry }
{
    let mut block = [0u8; ROOM];
    put_header(&mut block, first, u32::from(points), u32::from(entries));
    let from = start_of(&block, 0);
    put_points(&mut block, from, points);
    let list = start_of(&block, 1);
    put_entries(&mut block, list, entries, entry);
    convert_start(&block)
}

// A face set of triangles 0 1 third, as so many entries over 4 points.
pub(crate) fn triangles(entries: u16, third: u32) -> Seen {
    convert_set(FACES, 4, entries, |i| entry_of(i, third, 0xffff_ffff))
}

// A triangle, fan, strip or quad set: so many entries 0 1 2 3 .. over 4 points.
pub(crate) fn primitives(first: u32, entries: u16) -> Seen {
    convert_set(first, 4, entries, |i| entry_of(i, 2, 3))
}

// One face of all its points.
pub(crate) fn face(corners: u16) -> Seen {
    convert_set(FACES, corners, corners, |i| i)
}
