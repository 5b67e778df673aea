// FORMAT 8.4: the tables of the faces: points, first corners, places and numbers.
ghost use Rattle.std.specs.Prelude.{◌≡◌, ◌+◌, ◌-◌, ◌*◌, ◌≤◌, length};
ghost use Rattle.mesh.specs.Extrusion.{spine_count, section_count};
ghost use Rattle.block.specs.Edition.{most};
ghost use Rattle.lists.specs.Loops.{tab};
ghost use Rattle.lists.specs.Parts.{spliced};
ghost use Rattle.tables.specs.Listed.{Beside, Listed};
ghost use Rattle.extrusion.specs.Listings.{extrusion_listings, size_at, start_at, Planned};

use crate::faces::Faces;
use crate::reading::{section_count, spine_count};
use block::Header;
use tables::{Plan, narrow, put_each};

fn size_at(sides: usize, cap: usize, j: usize) -> usize
    ensures { result ≡ size_at sides cap j }
{
    if j < sides {
        return 4;
    }
    cap
}

impl Faces {
    // How many corners stand before each of `faces` faces, and before the end.
    fn put_starts(&self, work: &mut [u32], k: usize, faces: usize)
        requires { (faces ≤ most) × (start_at ((self.now.n - 1) * (self.now.m - 1)) self.now.cap faces ≤ most) × (k + (faces + 1) ≤ length work.old) }
        ensures { work.new ≡ spliced work.old k (tab (start_at ((self.now.n - 1) * (self.now.m - 1)) self.now.cap) (faces + 1) 0) }
    {
        let sides = (self.n - 1) * (self.m - 1);
        let mut c = 0;
        for j in 0..faces + 1 {
            work[k + j] = narrow(c);
            c += size_at(sides, self.cap, j);
        }
    }
}

// The faces of the extrusion, whose caps have `cap` corners: a corner's place is its point, and a face's number its place among all faces.
pub fn list_faces(h: Header, cap: usize, work: &mut [u32], t: Plan)
    requires { Planned h cap (length work.old) t }
    ensures { Beside t work.old work.new
        × Listed work.new t (extrusion_listings (spine_count h) (section_count h) cap h.begin_cap h.end_cap) }
{
    let f = Faces {
        n: spine_count(h),
        m: section_count(h),
        cap,
        begin: h.begin_cap,
        end: h.end_cap,
    };
    f.put_uses(work, t.corners);
    f.put_starts(work, t.starts, t.faces);
    f.put_uses(work, t.places);
    put_each(work, t.numbers, t.faces, |j| narrow(j));
}
