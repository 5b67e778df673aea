// FORMAT 8.4, extrusion (pm.faces): the points of the corners, face by face: sides, then caps.
ghost use Rattle.std.specs.Prelude.{◌≡◌, ℕ, ◌+◌, ◌-◌, ◌*◌, ◌≤◌, ◌<◌, cond, [], length};
ghost use Rattle.lists.specs.Loops.{tab};
ghost use Rattle.lists.specs.Lists.{flat};
ghost use Rattle.mesh.specs.Quads.{quad};
ghost use Rattle.mesh.specs.Extrusion.{point_number, has_cap};
ghost use Rattle.mesh.specs.Sizes.{cap_count};
ghost use Rattle.block.specs.Edition.{most};
ghost use Rattle.lists.specs.Parts.{spliced};
ghost use Rattle.extrusion.specs.Listings.{side_points, face_points};

use block::Header;
use lists::put_all;
use mesh::point_at;
use tables::{narrow, put_each};

// A cap is there by its bit, where it has 3 corners or more. The bit is one that the header holds, so it stays a bool here and below: no caller chooses by it.
fn has_cap(wanted: bool, cap: usize) -> bool
    ensures { result ≡ has_cap wanted cap }
{
    wanted && 3 <= cap
}

// How many caps of `cap` corners there are.
pub fn cap_count(h: Header, cap: usize) -> usize
    ensures { (result ≡ cap_count h cap) × (result ≤ 2) }
{
    usize::from(has_cap(h.begin_cap, cap)) + usize::from(has_cap(h.end_cap, cap))
}

// The faces of an extrusion: a side between each two points of each two rows, in n rows of m points; and two caps of `cap` corners, where they are wanted.
#[derive(Clone, Copy)]
pub struct Faces {
    pub n: usize,
    pub m: usize,
    pub cap: usize,
    pub begin: bool,
    pub end: bool,
    ghost rows: { 2 ≤ n },
    ghost columns: { 2 ≤ m },
    ghost fewer: { cap ≤ m },
    ghost few: { n * m ≤ most },
}

impl Faces {
    // The points of the side in row i, column j.
    fn put_quad(&self, work: &mut [u32], k: usize, i: usize, j: usize)
        requires { (i + 1 < self.now.n) × (j + 1 < self.now.m) × (k + 4 ≤ length work.old) }
        ensures { work.new ≡ spliced work.old k (quad (point_number self.now.m) i j) }
    {
        let m = self.m;
        let a = point_at(m, i, j);
        let b = point_at(m, i, j + 1);
        let c = point_at(m, i + 1, j + 1);
        let d = point_at(m, i + 1, j);
        put_all(
            work,
            k,
            &[narrow(a.0), narrow(b.0), narrow(c.0), narrow(d.0)],
        );
    }

    // The sides of row i.
    fn put_quad_row(&self, work: &mut [u32], k: usize, i: usize)
        requires { (i + 1 < self.now.n) × (k + (self.now.m - 1) * 4 ≤ length work.old) }
        ensures { work.new ≡ spliced work.old k (flat (tab (quad (point_number self.now.m) i) (self.now.m - 1) 0)) }
    {
        for j in 0..self.m - 1 {
            self.put_quad(work, k + j * 4, i, j);
        }
    }

    // All sides.
    fn put_sides(&self, work: &mut [u32], k: usize)
        requires { k + (self.now.n - 1) * ((self.now.m - 1) * 4) ≤ length work.old }
        ensures { work.new ≡ spliced work.old k (flat (side_points self.now.n self.now.m)) }
    {
        let w = (self.m - 1) * 4;
        for i in 0..self.n - 1 {
            self.put_quad_row(work, k + i * w, i);
        }
    }

    // The cap of the points point(0), point(1), .., where there is one; the place behind it.
    fn put_cap<F: Fn(usize) -> u32>(
        &self,
        work: &mut [u32],
        k: usize,
        wanted: bool,
        point: F,
    ) -> usize
        requires room { k + cond (has_cap wanted self.now.cap) self.now.cap 0 ≤ length work.old }
        requires called { (j : ℕ) → j < self.now.cap → F.pre point j }
        ensures put { (value : ℕ → ℕ) → ((j : ℕ) (r : ℕ) → j < self.now.cap → F.post point j r → r ≡ value j)
            → work.new ≡ spliced work.old k (cond (has_cap wanted self.now.cap) (tab value self.now.cap 0) []) }
        ensures behind { result ≡ k + cond (has_cap wanted self.now.cap) self.now.cap 0 }
    {
        if has_cap(wanted, self.cap) {
            put_each(work, k, self.cap, point);
            return k + self.cap;
        }
        k
    }

    // The points of all corners, face by face; as a corner's place is its point (FORMAT 7.1), the places too.
    pub fn put_uses(&self, work: &mut [u32], k: usize)
        requires { k + length (flat (face_points self.now.n self.now.m self.now.cap self.now.begin self.now.end)) ≤ length work.old }
        ensures { work.new ≡ spliced work.old k (flat (face_points self.now.n self.now.m self.now.cap self.now.begin self.now.end)) }
    {
        self.put_sides(work, k);
        let cap = self.cap;
        let last = point_at(self.m, self.n - 1, 0);
        let ends = k + (self.n - 1) * ((self.m - 1) * 4);
        let next = self.put_cap(work, ends, self.begin, |j| narrow(cap - 1 - j));
        self.put_cap(work, next, self.end, |j| narrow(last.0 + j));
    }
}
