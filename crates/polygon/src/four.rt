// FORMAT 12.3, ear_clip, of four corners: there is but one corner beside the three of a triangle, so no table is needed.
ghost use Rattle.std.specs.Prelude.{◌≡◌, ◌∷◌, map, ◌+◌, ◌<◌, ltb};
ghost use Rattle.std.proofs.lemmas.List.Edits.{sets};
ghost use Rattle.lists.specs.Loops.{pick};
ghost use Rattle.lists.specs.Lists.{remove};
ghost use Rattle.polygon.specs.Ears.{is_ear, corner, fan, clip, order, turn, flat};
ghost use Rattle.polygon.specs.Memo.{xy};

use crate::ears::{place_of, put_tri};
use crate::memo::{dot_at, is_ear_beside};

// Whether corner i of the four is an ear.
fn is_ear_of_four(p: &[f32], rev: bool, i: usize) -> bool
    requires { i < 4 }
    ensures { result ≡ is_ear (xy p.now) (order rev 4) i }
{
    let a = dot_at(p, place_of(rev, 4, (i + 3) % 4));
    let b = dot_at(p, place_of(rev, 4, i));
    let c = dot_at(p, place_of(rev, 4, (i + 1) % 4));
    let d = dot_at(p, place_of(rev, 4, (i + 2) % 4));
    is_ear_beside(a, b, c, d)
}

// The place of the first ear. Where there is none, the fan is as if the corner after the first were one.
pub fn place_of_ear(p: &[f32], rev: bool) -> usize
    ensures { (result < 4) × (clip (xy p.now) 16 (order rev 4) ≡ corner (order rev 4) result ∷ fan (remove result (order rev 4))) }
{
    for i in 0..4 {
        if is_ear_of_four(p, rev, i) {
            return i;
        }
    }
    1
}

// Place k of those that stay where place i goes.
fn place_without(i: usize, k: usize) -> usize
    requires { k < 3 }
    ensures { result ≡ pick (ltb k i) k (k + 1) }
{
    if k < i {
        return k;
    }
    k + 1
}

// The triangle of the corner in the place i, and that of the three others.
pub fn put_both(out: &mut [u32], rev: bool, i: usize)
    requires { i < 4 }
    ensures { out.new ≡ sets out.old 0 (flat (map (turn rev) (corner (order rev 4) i ∷ fan (remove i (order rev 4))))) }
{
    let a = place_of(rev, 4, (i + 3) % 4);
    let b = place_of(rev, 4, i);
    let c = place_of(rev, 4, (i + 1) % 4);
    put_tri(out, 0, rev, a, b, c);
    let x = place_of(rev, 4, place_without(i, 0));
    let y = place_of(rev, 4, place_without(i, 1));
    let z = place_of(rev, 4, place_without(i, 2));
    put_tri(out, 1, rev, x, y, z);
}
