// A table filled by the number of each word.
ghost use Rattle.std.specs.Prelude.{◌≡◌, ℕ, ◌+◌, ◌≤◌, ◌<◌, length};
ghost use Rattle.tables.specs.Each.{PutEach};

// The n words f(0), f(1), .. from place k on (FORMAT 2.4, 8.1).
pub fn put_each<F: Fn(usize) -> u32>(work: &mut [u32], k: usize, n: usize, f: F)
    requires room { k + n ≤ length work.old }
    requires called { (j : ℕ) → j < n → F.pre f j }
    ensures { PutEach (F.post f) k n work.old work.new }
{
    // By number: a loop over the words of the part says less plainly where each goes, and needs a law more for what it leaves of the others.
    for j in 0..n {
        work[k + j] = f(j);
    }
}
