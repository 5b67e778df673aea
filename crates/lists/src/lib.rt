// Elements read and written at any place of a table, and what a word of a table names.
#![tactic(auto)]

ghost use Rattle.std.specs.Prelude.{◌≡◌, [], ◌∷◌, ◌+◌, ◌^◌, ◌≤◌, ◌<◌, length, get_or, set};
ghost use Rattle.lists.specs.Parts.{spliced};
ghost use Rattle.lists.specs.Named.{named_by};

// Element k, or `other` past the end.
#[inline(always)]
pub fn get_or<T: Copy>(table: &[T], k: usize, other: T) -> T
    ensures { result ≡ get_or table.now k other }
{
    *table.get(k).unwrap_or(&other)
}

// A read past the end is 0.
pub fn get(table: &[u32], k: usize) -> u32
    ensures { result ≡ get_or table.now k 0 }
{
    get_or(table, k, 0)
}

// A write past the end does nothing.
#[inline(always)]
pub fn put<T: Copy>(table: &mut [T], k: usize, v: T)
    ensures { table.new ≡ set table.old k v }
{
    if k < table.len() {
        table[k] = v;
    }
}

// The elements of a list, from place a on: one by one, since with copy_from_slice cylinders, cones and spheres together took a sixth longer.
#[inline(always)]
pub fn put_all<T: Copy>(table: &mut [T], a: usize, all: &[T])
    requires { a + length all.now ≤ length table.old }
    ensures { table.new ≡ spliced table.old a all.now }
{
    for (i, x) in all.iter().enumerate() {
        table[a + i] = *x;
    }
}

// The number that a word of a table names: the word is one more than the number, 0 for none.
// By a test: with `checked_sub` (tried) a search along a chain took a third longer, as the number waits for the borrow.
#[inline(always)]
pub fn named_by(word: u32) -> Option<usize>
    ensures { result ≡ named_by word }
{
    if word == 0 {
        return None;
    }
    Some(word as usize - 1)
}

// The word that names number n.
#[inline(always)]
pub fn word_of(n: usize) -> u32
    requires { n + 1 < 2 ^ 32 }
    ensures { result ≡ n + 1 }
{
    (n + 1) as u32
}
