// What the kept primitives of an index list have together (FORMAT 6.4).
ghost use Rattle.std.specs.Prelude.{◌≡◌, ◌+◌, ◌/◌, ◌≤◌, length};
ghost use Rattle.bits.specs.Bits.{entries};
ghost use Rattle.block.specs.Runs.{runs, totals};
ghost use Rattle.primitives.specs.Primitives.{primitive_of, face_list};
ghost use Rattle.primitives.specs.Kept.{kept_by, kept_primitives};

use crate::places::{count_in, width_of};
use crate::source::Source;
use crate::stretches::stretches_in;
use block::Totals;

impl<'a> Source<'a> {
    // How many primitives of the stretch are kept.
    fn kept_here(&self) -> usize
        ensures { (result ≡ length (kept_by (primitive_of self.now.g (entries self.now.list.now)) self.now.points self.now.g (entries self.now.list.now)))
            × (result ≤ length self.now.list.now / 4) }
    {
        let n = count_in(self.g, self.list.len() / 4);
        (0..n).filter(|k| self.is_present(*k)).count()
    }

    // How many primitives of the list are kept.
    fn kept_count(&self) -> usize
        ensures { (result ≡ length (kept_primitives self.now.points self.now.g (entries self.now.list.now))) × (result ≤ length self.now.list.now / 4 + 1) }
    {
        let points = self.points;
        let g = self.g;
        // No `sum`: its clause asks that the whole fits, which the loop shows turn by turn.
        let mut kept: usize = 0;
        for (_, part) in stretches_in(self.list, g) {
            let stretch = Source {
                list: part,
                points,
                g,
            };
            kept += stretch.kept_here();
        }
        kept
    }

    // What the faces that list the kept primitives one by one have together. Point numbers end no run.
    pub fn totals(&self) -> Totals
        requires { self.now.points ≤ 0x8000_0000 }
        ensures { result ≡ totals self.now.points (runs (face_list self.now.points self.now.g (entries self.now.list.now))) }
    {
        let n = self.kept_count();
        let w = width_of(self.g);
        Totals {
            faces: n,
            corners: w * n,
            triangles: (w - 2) * n,
        }
    }
}
