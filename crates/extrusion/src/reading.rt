// FORMAT 2.4: the lists of an extrusion, read by number from their bytes.
ghost use Rattle.std.specs.Prelude.{◌≡◌, ℕ, List, ◌+◌, ◌-◌, ◌*◌, ◌≤◌, ◌<◌, ◌&&◌, ltb, length, get_or};
ghost use Rattle.std.specs.Iterator.{YieldsFirst, item_count};
ghost use Rattle.std.specs.Float.{binary32};
ghost use Rattle.std.specs.Float.Ieee.{of_bits};
ghost use Rattle.bits.specs.Bits.{word_at};
ghost use Rattle.lists.specs.Loops.{tab};
ghost use Rattle.math.specs.Vector.{v3};
ghost use Rattle.block.specs.Extents.{list_bytes};
ghost use Rattle.block.specs.Value.{words2, words3};
ghost use Rattle.block.specs.Texture.{pair_of};
ghost use Rattle.mesh.specs.Words.{floats};
ghost use Rattle.mesh.specs.Extrusion.{spine_count, section_count, turn_in, entry_or, extrusion_of};
ghost use Rattle.extrusion.specs.Given.{Given};

use crate::frames::Spine;
use bits::Words2;
use block::{Header, Pair, Value};
use math::{Quat, V3};
use std::marker::{Model, PhantomData};
use tables::wide;

// What a list holds: how many bytes an entry has, and how it is read.
// Not block's Value, which gives words: block alone could give it to these types of floats, and how an extrusion is read would stand there.
pub trait Entry: Copy {
    ghost width: { ℕ };

    ghost made: { List ℕ → ℕ → Self };

    // Entry `k` of the list.
    fn read(bytes: &[u8], k: usize) -> Self
        requires { width * k + width ≤ length bytes.now }
        ensures { result ≡ made bytes.now k };
}

impl Entry for V3 {
    ghost width = { 12 };

    ghost made = { λ b k. floats (words3 b k) };

    fn read(bytes: &[u8], k: usize) -> V3 {
        vector_in(bytes, 12 * k)
    }
}

impl Entry for Pair {
    ghost width = { 8 };

    ghost made = { λ b k. pair_of (words2 b k) };

    fn read(bytes: &[u8], k: usize) -> Pair {
        Pair::from(Words2::read(bytes, k))
    }
}

// An orientation, as a quaternion.
impl Entry for Quat {
    ghost width = { 20 };

    ghost made = { turn_in };

    fn read(bytes: &[u8], k: usize) -> Quat {
        math::axis_turn(
            vector_in(bytes, 20 * k),
            float_in(bytes, 20 * k + 12),
            float_in(bytes, 20 * k + 16),
        )
    }
}

// Entries, in the bytes of their list. The count stands beside the bytes, and `Iter` goes by number: the trait gives an entry's width to the clauses alone, so
// that nothing can be divided or cut by it.
#[derive(Drop)]
pub struct Entries<'a, V: Entry> {
    bytes: &'a [u8],
    count: usize,
    of: PhantomData<V>,
}

impl<'a, V: Entry> Model for Entries<'a, V> {
    ghost Value = { List V };

    ghost view = { λ p. tab (V.made p.bytes.now) p.count 0 };

    ghost invariant = { λ p. V.width * p.count ≤ length p.bytes.now };
}

impl<'a, V: Entry> Entries<'a, V> {
    pub fn of(bytes: &'a [u8], count: usize) -> Entries<'a, V>
        requires { V.width * count ≤ length bytes.now }
        ensures { result ≡ tab (V.made bytes.now) count 0 }
    {
        Entries {
            bytes,
            count,
            of: PhantomData,
        }
    }

    pub fn len(&self) -> usize
        ensures { result ≡ length self.now }
    {
        self.count
    }

    pub fn at(&self, i: usize) -> V
        requires { i < length self.now }
        ensures { (d : V) → result ≡ get_or self.now i d }
    {
        V::read(self.bytes, i)
    }

    // The entries, one after another.
    pub fn iter(&self) -> Iter<'a, V>
        ensures { result ≡ self.now }
    {
        Iter {
            bytes: self.bytes,
            next: 0,
            count: self.count,
            of: PhantomData,
        }
    }

    // Entry `i`: the first where there are too few, `missing` where there is none.
    pub fn at_or(&self, i: usize, missing: V) -> V
        ensures { result ≡ entry_or self.now i missing }
    {
        if i < self.len() {
            return self.at(i);
        }
        if 0 < self.len() {
            return self.at(0);
        }
        missing
    }
}

// The entries of a list from number `next` on.
#[derive(Drop)]
pub struct Iter<'a, V: Entry> {
    bytes: &'a [u8],
    next: usize,
    count: usize,
    of: PhantomData<V>,
}

impl<'a, V: Entry> Model for Iter<'a, V> {
    ghost Value = { List V };

    ghost view = { λ p. tab (V.made p.bytes.now) (p.count - p.next) p.next };

    ghost invariant = { λ p. (p.next ≤ p.count) × (V.width * p.count ≤ length p.bytes.now) };
}

impl<'a, V: Entry> Iterator for Iter<'a, V> {
    type Item = V;

    ghost next_gives = { YieldsFirst (λ left. left) };

    ghost remaining = { item_count (λ left. left) };

    fn next(&mut self) -> Option<V> {
        let i = self.next;
        if i < self.count {
            self.next = i + 1;
            return Some(V::read(self.bytes, i));
        }
        None
    }
}

impl<'a, V: Entry + PartialEq> Entries<'a, V> {
    // FORMAT 8.4 (cs_closed, closed): more than two entries, and the last equal to the first.
    pub fn closes(&self) -> bool
        ensures { (d : V) → result ≡ (ltb 2 (length self.now) && V.eq (get_or self.now 0 d) (get_or self.now (length self.now - 1) d)) }
    {
        let m = self.len();
        if 2 < m {
            return self.at(0) == self.at(m - 1);
        }
        false
    }
}

// How many entries list `k` has.
fn count_of(h: Header, k: usize) -> usize
    requires { k < 8 }
    ensures { result ≡ get_or h.counts k 0 }
{
    let n = h.counts;
    wide(n[k])
}

pub fn spine_count(h: Header) -> usize
    ensures { result ≡ spine_count h }
{
    count_of(h, 0)
}

pub fn section_count(h: Header) -> usize
    ensures { result ≡ section_count h }
{
    count_of(h, 1)
}

// The float whose first byte is byte k.
fn float_in(values: &[u8], k: usize) -> f32
    requires { k + 4 ≤ length values.now }
    ensures { result ≡ of_bits binary32 (word_at values.now k) }
{
    math::of_bits(bits::word(values, k))
}

// Three floats, from byte k on.
fn vector_in(values: &[u8], k: usize) -> V3
    requires { k + 12 ≤ length values.now }
    ensures { result ≡ v3 (of_bits binary32 (word_at values.now k)) (of_bits binary32 (word_at values.now (k + 4))) (of_bits binary32 (word_at values.now (k + 8))) }
{
    V3 {
        x: float_in(values, k),
        y: float_in(values, k + 4),
        z: float_in(values, k + 8),
    }
}

// The block of an extrusion that was not refused (FORMAT 3), and its header.
#[derive(Clone, Copy)]
pub struct Extruded<'a> {
    pub block: &'a [u8],
    pub header: Header,
    ghost given: { Given block.now header },
}

impl<'a> Extruded<'a> {
    // List `k` of the block.
    fn list_of<V: Entry>(&self, k: usize) -> Entries<'a, V>
        requires { (k < 8) × (V.width * get_or self.now.header.counts k 0 ≤ length (list_bytes self.now.block.now self.now.header k)) }
        ensures { result ≡ tab (V.made (list_bytes self.now.block.now self.now.header k)) (get_or self.now.header.counts k 0) 0 }
    {
        let h = self.header;
        Entries::of(block::list_part(self.block, h, k), count_of(h, k))
    }

    pub(crate) fn spine(&self) -> Spine<'a>
        ensures { result.points ≡ (extrusion_of self.now.block.now).spine }
    {
        Spine {
            points: self.list_of(0),
        }
    }

    pub(crate) fn section(&self) -> Entries<'a, Pair>
        ensures { result ≡ (extrusion_of self.now.block.now).section }
    {
        self.list_of(1)
    }

    pub(crate) fn scales(&self) -> Entries<'a, Pair>
        ensures { result ≡ (extrusion_of self.now.block.now).scales }
    {
        self.list_of(2)
    }

    pub(crate) fn turns(&self) -> Entries<'a, Quat>
        ensures { result ≡ (extrusion_of self.now.block.now).turns }
    {
        self.list_of(3)
    }
}
