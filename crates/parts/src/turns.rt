// Rows of words and of vertices, one after another: row i is what a closure gives for i.
ghost use Rattle.std.specs.Prelude.{◌≡◌, List, ℕ, ◌+◌, ◌≤◌, length};
ghost use Rattle.lists.specs.Lists.{flat};
ghost use Rattle.lists.specs.Loops.{tab};
ghost use Rattle.lists.specs.Parts.{spliced};
ghost use Rattle.parts.specs.Building.{Room, Pushes};
ghost use Rattle.parts.specs.Turns.{Gives, Callable};

use crate::builder::Builder;
use crate::vert::Vert;
use lists::put_all;
use std::convert::AsSlice;

// n rows of words, from place `at` on.
#[inline]
pub fn put_words<R: AsSlice<u32> + Drop, F: Fn(usize) -> R>(
    words: &mut [u32],
    at: usize,
    n: usize,
    row: F,
)
    requires callable { Callable (F.pre row) n }
    requires given { (f : ℕ → List ℕ) × Gives R.items (F.post row) n at (λ m. m ≤ length words.old) f }
    ensures { (f : ℕ → List ℕ) → Gives R.items (F.post row) n at (λ m. m ≤ length words.old) f → words.new ≡ spliced words.old at (flat (tab f n 0)) }
{
    let mut next = at;
    for i in 0..n {
        let r = row(i);
        let r = r.as_slice();
        put_all(words, next, r);
        next += r.len();
    }
}

impl Builder<'_> {
    // Vertices one after another, from number k on.
    #[inline(always)]
    fn put_run(&mut self, k: usize, verts: &[Vert])
        requires { Room (k + length verts.now) self.old }
        ensures { Pushes k verts.now self.old self.new }
    {
        for (i, v) in verts.iter().enumerate() {
            self.put_vert(k + i, *v);
        }
    }

    // n rows of vertices, from number k on.
    #[inline]
    pub fn put_verts<R: AsSlice<Vert> + Drop, F: Fn(usize) -> R>(
        &mut self,
        k: usize,
        n: usize,
        row: F,
    )
        requires callable { Callable (F.pre row) n }
        requires given { (f : ℕ → List Vert) × Gives R.items (F.post row) n k (λ m. Room m self.old) f }
        ensures { (f : ℕ → List Vert) → Gives R.items (F.post row) n k (λ m. Room m self.old) f
            → Pushes k (flat (tab f n 0)) self.old self.new }
    {
        let mut next = k;
        for i in 0..n {
            let r = row(i);
            let r = r.as_slice();
            self.put_run(next, r);
            next += r.len();
        }
    }
}
