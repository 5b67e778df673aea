// Parts of slices of words, compared and copied.
ghost use Rattle.std.specs.Prelude.{◌≡◌, ◌+◌, ◌*◌, ◌≤◌, length};
ghost use Rattle.lists.specs.Lists.{same_words};
ghost use Rattle.lists.specs.Parts.{seg, spliced};

use lists::put_all;

// Whether the w words of key from j are row i of l (FORMAT 11).
// By index: == of the two slices takes near twice as long (measured), and so does a zip of them.
#[inline(always)]
fn is_row(key: &[u32], j: usize, l: &[u32], w: usize, i: usize) -> bool
    requires { (j + w ≤ length key.now) × (w * i + w ≤ length l.now) }
    ensures { result ≡ same_words (seg key.now j w) (seg l.now (w * i) w) }
{
    let at = w * i;
    for t in 0..w {
        if key[j + t] != l[at + t] {
            return false;
        }
    }
    true
}

// The same, by itself: no header gives such a width, and in the search its loop would take the registers.
#[inline(never)]
fn is_other_row(key: &[u32], j: usize, l: &[u32], w: usize, i: usize) -> bool
    requires { (j + w ≤ length key.now) × (w * i + w ≤ length l.now) }
    ensures { result ≡ same_words (seg key.now j w) (seg l.now (w * i) w) }
{
    is_row(key, j, l, w, i)
}

// The same where rows have n words or, as in a mesh without the attribute, none: n is a number at each call, so that the loop goes.
#[inline(always)]
pub fn same_row(key: &[u32], j: usize, l: &[u32], n: usize, w: usize, i: usize) -> bool
    requires { (j + w ≤ length key.now) × (w * i + w ≤ length l.now) }
    ensures { result ≡ same_words (seg key.now j w) (seg l.now (w * i) w) }
{
    if w == n {
        return is_row(key, j, l, n, i);
    }
    if w == 0 {
        return true;
    }
    is_other_row(key, j, l, w, i)
}

// The n words of src from j, into dst from at. As many as an attribute has go one by one: three of them, as a copy of n words, take near twice as long
// (measured by themselves).
#[inline(always)]
fn put_words(dst: &mut [u32], at: usize, src: &[u32], j: usize, n: usize)
    requires { (at + n ≤ length dst.old) × (j + n ≤ length src.now) }
    ensures { dst.new ≡ spliced dst.old at (seg src.now j n) }
{
    if n == 3 {
        put_all(dst, at, &[src[j], src[j + 1], src[j + 2]]);
        return;
    }
    if n == 4 {
        put_all(dst, at, &[src[j], src[j + 1], src[j + 2], src[j + 3]]);
        return;
    }
    if n == 2 {
        put_all(dst, at, &[src[j], src[j + 1]]);
        return;
    }
    put_all(dst, at, &src[j..j + n]);
}

// Row i of dst, of another width, as with `is_other_row`.
#[inline(never)]
fn put_other_row(dst: &mut [u32], w: usize, i: usize, src: &[u32], j: usize)
    requires { (w * i + w ≤ length dst.old) × (j + w ≤ length src.now) }
    ensures { dst.new ≡ spliced dst.old (w * i) (seg src.now j w) }
{
    put_words(dst, w * i, src, j, w);
}

// Row i of dst, of w words, takes the words of src from j. The n words of an attribute that is made are a number at each call, as with `same_row`.
#[inline(always)]
pub fn put_row(dst: &mut [u32], n: usize, w: usize, i: usize, src: &[u32], j: usize)
    requires { (w * i + w ≤ length dst.old) × (j + w ≤ length src.now) }
    ensures { dst.new ≡ spliced dst.old (w * i) (seg src.now j w) }
{
    if w == n {
        put_words(dst, n * i, src, j, n);
        return;
    }
    if w == 0 {
        return;
    }
    put_other_row(dst, w, i, src, j);
}
