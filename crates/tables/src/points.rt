// The words of the points, copied from their list (FORMAT 2.4, 8.1).
ghost use Rattle.std.specs.Prelude.{◌≡◌, ◌+◌, ◌/◌, ◌≤◌, length, take};
ghost use Rattle.bits.specs.Bits.{entries};
ghost use Rattle.lists.specs.Parts.{spliced};

use crate::each::put_each;

// The first n words of the list, to the words from `at` on. `n` stands beside the list: a line set's clause says that the list has as many words, and not
// that it has no more.
pub fn put_points(list: &[u8], work: &mut [u32], at: usize, n: usize)
    requires { (n ≤ length list.now / 4) × (at + n ≤ length work.old) }
    ensures { work.new ≡ spliced work.old at (take n (entries list.now)) }
{
    put_each(work, at, n, |i| bits::entry(list, i));
}
