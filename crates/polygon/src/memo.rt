// FORMAT 12.3, ear_clip: whether a corner is an ear. What an earlier search found is kept: a corner is looked at anew only where its neighbours changed.
ghost use Rattle.std.specs.Prelude.{◌≡◌, false, not, ◌&&◌, [], ◌∷◌, ℕ, ◌+◌, ◌-◌, ◌*◌, ◌%◌, ◌^◌, ◌≤◌, ◌<◌, eqb, length, get_or, set};
ghost use Rattle.std.specs.Float.{nan};
ghost use Rattle.std.proofs.lemmas.List.Edits.{sets};
ghost use Rattle.std.specs.Float.Ieee.{le};
ghost use Rattle.lists.specs.Loops.{pick, first};
ghost use Rattle.polygon.specs.Ears.{+0, triple, corner, cross2, point_in_tri, blocks, is_ear, first_ear};
ghost use Rattle.lists.specs.Searches.{found};
ghost use Rattle.polygon.specs.Memo.{xy, dot_of, spot_of, inside, hits, hit, Clear, Tells, ear_of, finding, word, Known, Sound, entry, Searched};

use lists::{get, get_or, put};
use std::simd::prelude::*;

// Where a corner lies in the plane.
#[derive(Clone, Copy)]
pub struct Dot {
    pub x: f32,
    pub y: f32,
}

// Three corners with where they lie.
#[derive(Clone, Copy)]
struct Triangle {
    a: Dot,
    b: Dot,
    c: Dot,
}

// A corner b of the working order, between a and c.
#[derive(Clone, Copy)]
pub struct Corner {
    pub a: u32,
    pub b: u32,
    pub c: u32,
}

pub fn dot_at(p: &[f32], j: u32) -> Dot
    ensures { result ≡ dot_of (xy p.now) j }
{
    let k = j as usize * 2;
    Dot {
        x: get_or(p, k, f32::NAN),
        y: get_or(p, k + 1, f32::NAN),
    }
}

// How many corners the search for one in the way passes at once.
const BLOCK: usize = 16;

// ---- the tests

fn cross(o: Dot, a: Dot, b: Dot) -> f32
    ensures { result ≡ cross2 (spot_of o) (spot_of a) (spot_of b) }
{
    (a.x - o.x) * (b.y - o.y) - (a.y - o.y) * (b.x - o.x)
}

fn in_tri(p: Dot, t: Triangle) -> bool
    ensures { result ≡ point_in_tri (spot_of p) (spot_of t.a) (spot_of t.b) (spot_of t.c) }
{
    cross(t.a, t.b, p) >= 0.0 && cross(t.b, t.c, p) >= 0.0 && cross(t.c, t.a, p) >= 0.0
}

// Whether b is an ear between a and c, where d alone is left beside them.
pub fn is_ear_beside(a: Dot, b: Dot, c: Dot, d: Dot) -> bool
    ensures { result ≡ (not (le (cross2 (spot_of a) (spot_of b) (spot_of c)) +0) && not (point_in_tri (spot_of d) (spot_of a) (spot_of b) (spot_of c))) }
{
    !(cross(a, b, c) <= 0.0) && !in_tri(d, Triangle { a, b, c })
}

fn is_bent(p: &[f32], q: Corner) -> bool
    ensures { result ≡ le (cross2 (xy p.now q.a) (xy p.now q.b) (xy p.now q.c)) +0 }
{
    cross(dot_at(p, q.a), dot_at(p, q.b), dot_at(p, q.c)) <= 0.0
}

// Where sixteen corners lie, from the first of `p` on.
fn dots_in(p: &[f32]) -> (f32x16, f32x16)
    requires { 32 ≤ length p.now }
    ensures { (k : ℕ) → k < 16 → (get_or result.0 k nan, get_or result.1 k nan) ≡ xy p.now k }
{
    f32x16::from_slice(p).deinterleave(f32x16::from_slice(&p[16..]))
}

// `cross` of sixteen corners b. Lanes, and no loop over corners: the compiler puts no comparisons of floats in a loop side by side (docs/BENCHMARKS.md).
fn crosses(o: Dot, a: Dot, x: f32x16, y: f32x16) -> f32x16
    ensures { (k : ℕ) → k < 16 → get_or result k nan ≡ cross2 (spot_of o) (spot_of a) (get_or x k nan, get_or y k nan) }
{
    f32x16::splat(a.x - o.x) * (y - f32x16::splat(o.y))
        - f32x16::splat(a.y - o.y) * (x - f32x16::splat(o.x))
}

// Whether one of sixteen corners is left, its flag being 1.
fn is_any_left(left: u32x16) -> bool
    ensures { result ≡ false → (k : ℕ) → k < 16 → eqb (get_or left k 0) 1 ≡ false }
{
    left.simd_eq(u32x16::splat(1)).any()
}

// Whether one of sixteen corners is near: left, its flag being 1, and not to the right of two sides.
fn is_any_near(left: u32x16, bc: f32x16, ca: f32x16) -> bool
    ensures { result ≡ false → (k : ℕ) → k < 16 → (eqb (get_or left k 0) 1 && (le +0 (get_or bc k nan) && le +0 (get_or ca k nan))) ≡ false }
{
    let zero = f32x16::splat(0.0);
    (left.simd_eq(u32x16::splat(1)) & (zero.simd_le(bc) & zero.simd_le(ca))).any()
}

// The first of sixteen corners that is left, its flag being 1, and not to the right of any side; 16 where there is none.
fn first_inside(left: u32x16, ab: f32x16, bc: f32x16, ca: f32x16) -> usize
    ensures { result ≡ first (λ k. eqb (get_or left k 0) 1 && (le +0 (get_or ab k nan) && (le +0 (get_or bc k nan) && le +0 (get_or ca k nan)))) 16 0 }
{
    let zero = f32x16::splat(0.0);
    let sides = zero.simd_le(ab) & (zero.simd_le(bc) & zero.simd_le(ca));
    let set = (left.simd_eq(u32x16::splat(1)) & sides).to_bitmask();
    if set == 0 {
        return BLOCK;
    }
    set.trailing_zeros() as usize
}

// The triangle q, which is read once for all corners.
fn triangle_at(p: &[f32], q: Corner) -> Triangle
    ensures a { result.a ≡ dot_of (xy p.now) q.a }
    ensures b { result.b ≡ dot_of (xy p.now) q.b }
    ensures c { result.c ≡ dot_of (xy p.now) q.c }
{
    Triangle {
        a: dot_at(p, q.a),
        b: dot_at(p, q.b),
        c: dot_at(p, q.c),
    }
}

// ---- the corners that are left

// Where a corner in the way is looked for: the coordinates of a polygon, two for each corner; a word for each corner, 1 while it is left; and the triangle.
// Words, and no bools: they lie in the words that are lent, as there is no heap.
#[derive(Clone, Copy)]
struct Field<'a> {
    p: &'a [f32],
    left: &'a [u32],
    t: Triangle,
    ghost few: { length left.now ≤ 2 ^ 31 },
    ghost placed: { length left.now * 2 ≤ length p.now },
}

impl<'a> Field<'a> {
    fn is_hit(&self, k: usize) -> bool
        requires { k < 2 ^ 31 }
        ensures { result ≡ hits self.now.left.now (inside (xy self.now.p.now) self.now.t.a self.now.t.b self.now.t.c) k }
    {
        get(self.left, k) == 1 && in_tri(dot_at(self.p, k as u32), self.t)
    }

    // The first of the corners from `from` up to `to` that is left and lies in the triangle, where no corner before `from` does, here and below. Corner by
    // corner, of fewer than sixteen. Not inlined, as `block_hit`.
    #[inline(never)]
    fn scan(&self, from: usize, to: usize) -> Option<usize>
        requires { (to ≤ length self.now.left.now) × (from ≤ to) × ((j : ℕ) → j < from → hits self.now.left.now (inside (xy self.now.p.now) self.now.t.a self.now.t.b self.now.t.c) j ≡ false) }
        ensures { result ≡ found to (first (hits self.now.left.now (inside (xy self.now.p.now) self.now.t.a self.now.t.b self.now.t.c)) to 0) }
    {
        (from..to).find(
            |&k|
                requires { k < 2 ^ 31 }
            { self.is_hit(k) },
        )
    }

    // Whether one of the block of corners from `from` on is near the triangle, by its sides b c and c a. Where none is, none of them lies in it. Ears go
    // one after another, so in many blocks none is left: those are passed before their coordinates are read.
    fn is_block_near(&self, from: usize) -> bool
        requires { from + 16 ≤ length self.now.left.now }
        ensures { result ≡ false → (j : ℕ) → from ≤ j → j < from + 16 → hits self.now.left.now (inside (xy self.now.p.now) self.now.t.a self.now.t.b self.now.t.c) j ≡ false }
    {
        let left = u32x16::from_slice(&self.left[from..]);
        if !is_any_left(left) {
            return false;
        }
        let (x, y) = dots_in(&self.p[from * 2..]);
        let t = self.t;
        is_any_near(left, crosses(t.b, t.c, x, y), crosses(t.c, t.a, x, y))
    }

    // Which of the block of corners from `from` on is the first that is left and lies in the triangle.
    fn place_in_block(&self, from: usize) -> usize
        requires { from + 16 ≤ length self.now.left.now }
        ensures { from + result ≡ first (hits self.now.left.now (inside (xy self.now.p.now) self.now.t.a self.now.t.b self.now.t.c)) 16 from }
    {
        let left = u32x16::from_slice(&self.left[from..]);
        let (x, y) = dots_in(&self.p[from * 2..]);
        let t = self.t;
        let ab = crosses(t.a, t.b, x, y);
        first_inside(left, ab, crosses(t.b, t.c, x, y), crosses(t.c, t.a, x, y))
    }

    // That corner. Not inlined, and what `is_block_near` has is worked out anew: in `scan_blocks` it took the registers of the blocks that are passed
    // (measured).
    #[inline(never)]
    fn block_hit(&self, from: usize) -> Option<usize>
        requires { from + 16 ≤ length self.now.left.now }
        ensures { result ≡ found (from + 16) (first (hits self.now.left.now (inside (xy self.now.p.now) self.now.t.a self.now.t.b self.now.t.c)) 16 from) }
    {
        let k = self.place_in_block(from);
        if k < BLOCK {
            return Some(from + k);
        }
        None
    }

    // As `scan`, of a block of corners: it is passed as a whole where none of them is near. The last block may be short: then some before it are read again.
    fn scan_block(&self, from: usize, to: usize) -> Option<usize>
        requires { (from ≤ to) × (to ≤ from + 16) × (to ≤ length self.now.left.now) × ((j : ℕ) → j < from → hits self.now.left.now (inside (xy self.now.p.now) self.now.t.a self.now.t.b self.now.t.c) j ≡ false) }
        ensures { result ≡ found to (first (hits self.now.left.now (inside (xy self.now.p.now) self.now.t.a self.now.t.b self.now.t.c)) to 0) }
    {
        if to < BLOCK {
            return self.scan(from, to);
        }
        if !self.is_block_near(to - BLOCK) {
            return None;
        }
        self.block_hit(to - BLOCK)
    }

    // As `scan`, of all corners from `from` on, block by block. The loop carries that none lies before `k`: a `find_map` would say it of each block alone.
    fn scan_blocks(&self, from: usize) -> Option<usize>
        requires { (j : ℕ) → j < from → hits self.now.left.now (inside (xy self.now.p.now) self.now.t.a self.now.t.b self.now.t.c) j ≡ false }
        ensures { result ≡ found (length self.now.left.now) (hit self.now.left.now (inside (xy self.now.p.now) self.now.t.a self.now.t.b self.now.t.c)) }
    {
        let n = self.left.len();
        for k in (from..n).step_by(BLOCK) {
            let e = n.min(k + BLOCK);
            if let Some(h) = self.scan_block(k, e) {
                return Some(h);
            }
        }
        None
    }
}

// A word becomes 0. What it was.
fn take_word(s: &mut [u32], k: usize) -> u32
    ensures { (result ≡ get_or s.old k 0) × (s.new ≡ set s.old k 0) }
{
    let x = get(s, k);
    put(s, k, 0);
    x
}

fn place_before(m: usize, i: usize) -> usize
    requires { i < m }
    ensures { result ≡ (i + m - 1) % m }
{
    if i == 0 {
        return m - 1;
    }
    i - 1
}

pub fn place_after(m: usize, i: usize) -> usize
    requires { i < m }
    ensures { result ≡ (i + 1) % m }
{
    if i + 1 == m {
        return 0;
    }
    i + 1
}

// The corner in the place i of a working order.
pub fn corner_at(order: &[u32], i: usize) -> Corner
    requires { i < length order.now }
    ensures { triple result.a result.b result.c ≡ corner order.now i }
{
    let m = order.len();
    Corner {
        a: get(order, place_before(m, i)),
        b: get(order, i),
        c: get(order, place_after(m, i)),
    }
}

// ---- what an earlier search found

// Of a corner between two others: nothing yet; that it is reflex or degenerate; or the first corner that is left and lies in it.
#[derive(Clone, Copy)]
pub enum Finding {
    Unknown,
    Bent,
    Blocked(usize),
}

// What a word that is kept says. No From, here and in `word_of`: that one asks that the word fits, which a From may not, and the two stand together.
#[tactic(auto, using(crate::proofs::Tables::finding_far), unfolding(crate::specs::Memo::finding))]
fn finding_of(word: u32) -> Finding
    ensures { result ≡ finding word }
{
    match word {
        0 => Finding::Unknown,
        1 => Finding::Bent,
        _ => Finding::Blocked(word as usize - 2),
    }
}

// The word that says it.
#[tactic(auto, unfolding(crate::specs::Memo::word))]
fn word_of(f: Finding) -> u32
    requires { word f < 2 ^ 32 }
    ensures { result ≡ word f }
{
    match f {
        Finding::Unknown => 0,
        Finding::Bent => 1,
        Finding::Blocked(k) => k as u32 + 2,
    }
}

// What ears are looked for in: the coordinates of a polygon; a word for each corner, 1 while it is left; and three words for each of what an
// earlier search found: its two neighbours then, and the finding. That what is kept is so (`Sound`) stays a clause: a row is written word by word, so it holds
// between the searches and not within one, and `store` would have to ask that what it writes is so. Each method says that `p` stays: one that takes `&mut self`
// may put another slice there.
#[derive(Drop)]
pub struct Search<'p, 'w> {
    pub p: &'p [f32],
    pub left: &'w mut [u32],
    pub memo: &'w mut [u32],
    ghost few: { length left.now ≤ 2 ^ 31 },
    ghost placed: { length left.now * 2 ≤ length p.now },
}

impl<'p, 'w> Search<'p, 'w> {
    fn look(&self, q: Corner) -> Finding
        ensures { result ≡ entry self.now.memo.now q.a q.b q.c }
    {
        let k = q.b as usize * 3;
        if get(self.memo, k) == q.a && get(self.memo, k + 1) == q.c {
            return finding_of(get(self.memo, k + 2));
        }
        Finding::Unknown
    }

    fn flag_of(&self, k: usize) -> u32
        ensures { result ≡ get_or self.now.left.now k 0 }
    {
        get(self.left, k)
    }

    fn store(&mut self, q: Corner, f: Finding)
        requires { word f < 2 ^ 32 }
        ensures { (self.new.memo.now ≡ sets self.old.memo.now (q.b * 3) (q.a ∷ q.c ∷ word f ∷ [])) × (self.new.left.now ≡ self.old.left.now) × (self.new.p ≡ self.old.p) }
    {
        let k = q.b as usize * 3;
        put(self.memo, k, q.a);
        put(self.memo, k + 1, q.c);
        put(self.memo, k + 2, word_of(f));
    }

    // The first corner that is left and lies in the triangle q, where none before `from` is and does. The flags of its corners are put out meanwhile: so it
    // is none of them, and they do not keep their blocks from being passed.
    fn other_hit(&mut self, from: usize, q: Corner) -> Option<usize>
        requires { Clear (xy self.old.p.now) self.old.left.now q.a q.b q.c from }
        ensures { (result ≡ found (length self.old.left.now) (hit self.old.left.now (blocks (xy self.old.p.now) q.a q.b q.c)))
            × (self.new.left.now ≡ self.old.left.now) × (self.new.memo.now ≡ self.old.memo.now) × (self.new.p ≡ self.old.p) }
    {
        let left = &mut *self.left;
        let x = take_word(left, q.a as usize);
        let y = take_word(left, q.b as usize);
        let z = take_word(left, q.c as usize);
        let k = Field {
            p: self.p,
            left,
            t: triangle_at(self.p, q),
        }
        .scan_blocks(from);
        put(left, q.c as usize, z);
        put(left, q.b as usize, y);
        put(left, q.a as usize, x);
        k
    }

    // Whether q, which is convex, is an ear; no corner before `from` that is left lies in it.
    fn search(&mut self, q: Corner, from: usize) -> bool
        requires { (from ≤ length self.old.left.now) × (le (cross2 (xy self.old.p.now q.a) (xy self.old.p.now q.b) (xy self.old.p.now q.c)) +0 ≡ false)
            × Clear (xy self.old.p.now) self.old.left.now q.a q.b q.c from × Sound (xy self.old.p.now) self.old.left.now self.old.memo.now }
        ensures { (result ≡ ear_of (xy self.old.p.now) self.old.left.now q.a q.b q.c)
            × Searched (xy self.old.p.now) self.old.left.now self.new.left.now self.new.memo.now × (self.new.p ≡ self.old.p) }
    {
        let Some(k) = self.other_hit(from, q) else {
            return true;
        };
        self.store(q, Finding::Blocked(k));
        false
    }

    // Whether q, of which f was found, is an ear.
    fn decide(&mut self, q: Corner, f: Finding) -> bool
        requires { Known (xy self.old.p.now) self.old.left.now q.a q.b q.c f × Sound (xy self.old.p.now) self.old.left.now self.old.memo.now }
        ensures { (result ≡ ear_of (xy self.old.p.now) self.old.left.now q.a q.b q.c)
            × Searched (xy self.old.p.now) self.old.left.now self.new.left.now self.new.memo.now × (self.new.p ≡ self.old.p) }
    {
        match f {
            Finding::Unknown => {
                if is_bent(self.p, q) {
                    self.store(q, Finding::Bent);
                    return false;
                }
                return self.search(q, 0);
            }
            Finding::Bent => return false,
            Finding::Blocked(k) => {
                if self.flag_of(k) == 1 {
                    return false;
                }
                return self.search(q, k + 1);
            }
        }
    }

    fn is_ear(&mut self, order: &[u32], i: usize) -> bool
        requires { (i < length order.now) × Tells self.old.left.now order.now × Sound (xy self.old.p.now) self.old.left.now self.old.memo.now }
        ensures { (result ≡ is_ear (xy self.old.p.now) order.now i)
            × Searched (xy self.old.p.now) self.old.left.now self.new.left.now self.new.memo.now × (self.new.p ≡ self.old.p) }
    {
        let q = corner_at(order, i);
        let f = self.look(q);
        self.decide(q, f)
    }

    // The place of the first ear in a working order. No `find`: a closure over `&mut self` would have to carry all that `is_ear` asks and keeps.
    pub fn first_ear(&mut self, order: &[u32]) -> Option<usize>
        requires { Tells self.old.left.now order.now × Sound (xy self.old.p.now) self.old.left.now self.old.memo.now }
        ensures { (result ≡ found (length order.now) (first_ear (xy self.old.p.now) order.now))
            × Searched (xy self.old.p.now) self.old.left.now self.new.left.now self.new.memo.now × (self.new.p ≡ self.old.p) }
    {
        for i in 0..order.len() {
            if self.is_ear(order, i) {
                return Some(i);
            }
        }
        None
    }

    // The corner b is no longer left.
    pub fn clear_flag(&mut self, b: u32)
        ensures { (self.new.left.now ≡ set self.old.left.now b 0) × (self.new.memo.now ≡ self.old.memo.now) × (self.new.p ≡ self.old.p) }
    {
        put(self.left, b as usize, 0);
    }
}
