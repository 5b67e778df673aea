// FORMAT 12.3, ear_clip: the triangles of a polygon in the plane.
ghost use Rattle.std.specs.Prelude.{◌≡◌, [], ◌∷◌, map, ◌+◌, ◌-◌, ◌*◌, ◌/◌, ◌^◌, ◌≤◌, ◌<◌, length, take};
ghost use Rattle.std.proofs.lemmas.List.Edits.{sets};
ghost use Rattle.lists.specs.Lists.{remove};
ghost use Rattle.polygon.specs.Ears.{triple, corner, fan, clip, area, place, order, turn, ear_clip_by, flat};
ghost use Rattle.polygon.specs.Memo.{xy, Gone, Held};

use crate::four::{place_of_ear, put_both};
use crate::memo::{Search, corner_at, dot_at, place_after};
use lists::{get, put};

// One triangle, at the t'th place of `out`. `out` and `rev` stay side by side, here and below: a struct with a `&mut` in it would have to say in each function
// that it is still the caller's slice.
pub fn put_tri(out: &mut [u32], t: usize, rev: bool, a: u32, b: u32, c: u32)
    requires { t < 2 ^ 31 }
    ensures { out.new ≡ sets out.old (t * 3) (flat (turn rev (triple a b c) ∷ [])) }
{
    put(out, t * 3, a);
    if rev {
        put(out, t * 3 + 1, c);
        put(out, t * 3 + 2, b);
    } else {
        put(out, t * 3 + 1, b);
        put(out, t * 3 + 2, c);
    }
}

// Takes place i out of a whole working order: what is behind it moves down by one.
fn take_out(idx: &mut [u32], i: usize)
    requires { i < length idx.old }
    ensures { take (length idx.old - 1) idx.new ≡ remove i idx.old }
{
    idx.copy_within(i + 1.., i);
}

// `rev` says that the corners go round clockwise; it is found once of each polygon whose ears are clipped, and false of a fan. A flag and not a closure: it
// turns the order here and each triangle in `put_tri`, so it would take two closures that say the same.
pub fn place_of(rev: bool, n: usize, i: usize) -> u32
    requires { (n ≤ 2 ^ 31) × (i < n) }
    ensures { result ≡ place rev n i }
{
    if rev {
        return (n - 1 - i) as u32;
    }
    i as u32
}

// The working order of all corners.
fn set_order(idx: &mut [u32], rev: bool)
    requires { length idx.old ≤ 2 ^ 31 }
    ensures { idx.new ≡ order rev (length idx.old) }
{
    let n = idx.len();
    for (i, x) in idx.iter_mut().enumerate() {
        *x = place_of(rev, n, i);
    }
}

fn area_of(p: &[f32]) -> f32
    requires { length p.now ≤ 2 ^ 32 }
    ensures { result ≡ area (xy p.now) (length p.now / 2) }
{
    let n = p.len() / 2;
    let mut s: f32 = 0.0;
    for i in 0..n {
        let a = dot_at(p, i as u32);
        let b = dot_at(p, place_after(n, i) as u32);
        s += a.x * b.y - b.x * a.y;
    }
    s
}

// A fan over the whole of a working order, from the t'th place of `out` on.
fn put_fan(idx: &[u32], out: &mut [u32], t: usize, rev: bool)
    requires { t + length idx.now ≤ 2 ^ 31 }
    ensures { out.new ≡ sets out.old (t * 3) (flat (map (turn rev) (fan idx.now))) }
{
    let a = get(idx, 0);
    for i in 0..idx.len().saturating_sub(2) {
        put_tri(out, t + i, rev, a, get(idx, i + 1), get(idx, i + 2));
    }
}

// One ear of the m corners in the order: its triangle is written, and it is taken out of the order and is no longer left. The order stands beside the search:
// as one of its tables it would need m beside it, and each method of `Search` would have to say that the order stays.
fn cut(s: &mut Search, order: &mut [u32], m: usize, i: usize, out: &mut [u32], t: usize, rev: bool)
    requires { (i < m) × (m ≤ length order.old) × (t < 2 ^ 31) }
    ensures { Gone m i order.old order.new s.old.left.now s.new.left.now × (s.new.memo.now ≡ s.old.memo.now) × (s.new.p ≡ s.old.p)
        × (out.new ≡ sets out.old (t * 3) (flat (turn rev (corner (take m order.old) i) ∷ []))) }
{
    let q = corner_at(&order[..m], i);
    put_tri(out, t, rev, q.a, q.b, q.c);
    s.clear_flag(q.b);
    take_out(&mut order[..m], i);
}

// Ears are clipped as long as more than three corners are left and there is one. How many corners are left then, in front of the order.
fn clip_ears(s: &mut Search, order: &mut [u32], out: &mut [u32], rev: bool) -> usize
    requires { (length order.old ≤ 2 ^ 31) × Held (xy s.old.p.now) order.old s.old.left.now s.old.memo.now }
    ensures { (result ≤ length order.old)
        × (sets out.new ((length order.old - result) * 3) (flat (map (turn rev) (fan (take result order.new))))
        ≡ sets out.old 0 (flat (map (turn rev) (clip (xy s.old.p.now) (length order.old * length order.old) order.old)))) }
{
    let n = order.len();
    for t in 0..n.saturating_sub(3) {
        let m = n - t;
        let Some(i) = s.first_ear(&order[..m]) else {
            return m;
        };
        cut(s, order, m, i, out, t, rev);
    }
    n.min(3)
}

fn clip_all(s: &mut Search, order: &mut [u32], out: &mut [u32], rev: bool)
    requires { (length order.old ≤ 2 ^ 31) × Held (xy s.old.p.now) order.old s.old.left.now s.old.memo.now }
    ensures { out.new ≡ sets out.old 0 (flat (map (turn rev) (clip (xy s.old.p.now) (length order.old * length order.old) order.old))) }
{
    let n = order.len();
    let m = clip_ears(s, order, out, rev);
    put_fan(&order[..m], out, n - m, rev);
}

// The triangles of the polygon whose coordinates are `p`, two a corner, to the front of `out`. `w` is room to work in, five words a corner: the working
// order, and the two tables of the search. (Fewer would do, and be slower.) Four corners need no room.
pub fn ear_clip(p: &[f32], w: &mut [u32], out: &mut [u32])
    requires { (length p.now ≤ 2 ^ 32) × (length p.now ≤ length w.old) }
    ensures { out.new ≡ sets out.old 0 (flat (ear_clip_by (xy p.now) (length p.now / 2))) }
{
    let n = p.len() / 2;
    let rev = area_of(p) < 0.0;
    if n == 4 {
        put_both(out, rev, place_of_ear(p, rev));
        return;
    }
    let (order, rest) = w.split_at_mut(n);
    let (left, memo) = rest.split_at_mut(n);
    set_order(order, rev);
    left.fill(1);
    memo.fill(0);
    clip_all(&mut Search { p, left, memo }, order, out, rev);
}
