// FORMAT 12.1, PolyMesh::build (indices): the triangles of each kept face, by the vertex numbers of its corners.
ghost use Rattle.std.specs.Prelude.{◌≡◌, suc, ◌+◌, ◌-◌, ◌*◌, ◌≤◌, ◌<◌, length, drop};
ghost use Rattle.std.proofs.lemmas.List.Edits.{sets};
ghost use Rattle.polygon.specs.Ears.{flat};
ghost use Rattle.lists.specs.Parts.{seg, spliced, Kept};
ghost use Rattle.tables.specs.Soups.{start_in, Sound};
ghost use Rattle.faces.specs.Naming.{threes, numbered};
ghost use Rattle.faces.specs.Indices.{triangles_in, one_face, all_faces, plane_in, corners_floats, one_floats, all_floats, Ready, Put, Made};

use crate::naming::rename;
use block::CornerNumber;
use tables::{Plan, Tables};

// A face: its n corners from a on, whether they are counterclockwise, and whether it is known to be convex.
#[derive(Clone, Copy)]
struct Face {
    a: CornerNumber,
    n: usize,
    ccw: bool,
    convex: bool,
}

// A face in the tables that hold it. `put_corners` and `one_face` have the two apart, as they write the words.
#[derive(Clone, Copy)]
struct Outline<'a> {
    tables: Tables<'a>,
    face: Face,
    ghost within: { face.a.0 + face.n ≤ tables.plan.now.count },
}

impl<'a> Outline<'a> {
    // Its points in the plane, to the front of `floats`.
    fn put_plane(&self, floats: &mut [f32])
        ensures { floats.new ≡ sets floats.old 0 (plane_in self.now.tables.work.now self.now.tables.plan.now self.now.face.ccw self.now.face.a.0 self.now.face.n) }
    {
        let f = self.face;
        let points = self.tables.points();
        let names = self.tables.corners_of(f.a, f.n);
        let sum = polygon::newell(points, names);
        let normal = polygon::handed_of(f.ccw, sum);
        polygon::project(points, names, normal, f.ccw, floats);
    }

    // The same where ears are clipped; of a fan there is no plane.
    #[tactic(auto, unfolding(crate::specs::Indices::corners_floats))]
    fn put_plane_where(&self, floats: &mut [f32])
        ensures { floats.new ≡ corners_floats self.now.tables.work.now self.now.tables.plan.now self.now.face.ccw self.now.face.convex self.now.face.a.0 self.now.face.n floats.old }
    {
        if polygon::is_fan(self.face.n, self.face.convex) {
            return;
        }
        self.put_plane(floats);
    }

    // Its triangles become triangles of vertices.
    fn name_corners(&self, indices: &mut [u32], at: usize)
        requires { (2 ≤ self.now.face.n) × (at + (self.now.face.n - 2) * 3 ≤ length indices.old) }
        ensures { indices.new ≡ spliced indices.old at (numbered self.now.face.ccw (seg self.now.tables.work.now (self.now.tables.plan.now.named + self.now.face.a.0) self.now.face.n)
            (threes (self.now.face.n - 2) (drop at indices.old))) }
    {
        let f = self.face;
        let named = self.tables.names_of(f.a, f.n);
        rename(indices, at, f.n - 2, named, f.ccw);
    }
}

// Its triangles by its own corners, from place `at` of `indices` on. The tables from the places on are read no more: room to work in.
fn put_corners(
    work: &mut [u32],
    t: Plan,
    f: Face,
    floats: &mut [f32],
    indices: &mut [u32],
    at: usize,
)
    requires { Ready work.old t (length floats.old) × (f.a.0 + f.n ≤ t.count) × (at + (f.n - 2) * 3 ≤ length indices.old) }
    ensures { Kept t.places work.old work.new
        × (indices.new ≡ spliced indices.old at (flat (triangles_in work.old t f.ccw f.convex f.a.0 f.n)))
        × (floats.new ≡ corners_floats work.old t f.ccw f.convex f.a.0 f.n floats.old) }
{
    let outline = Outline {
        tables: Tables { work, plan: &t },
        face: f,
    };
    outline.put_plane_where(floats);
    let lo = t.places;
    let hi = lo + f.n * 5;
    polygon::triangulate(floats, f.n, f.convex, &mut work[lo..hi], indices, at);
}

// The indices of one kept face, from place `at` on; the next place.
fn one_face(
    work: &mut [u32],
    t: Plan,
    face: usize,
    ccw: bool,
    convex: bool,
    floats: &mut [f32],
    indices: &mut [u32],
    at: usize,
) -> usize
    requires { Ready work.old t (length floats.old) × (face < t.faces) × (at + (start_in work.old t (suc face) - start_in work.old t face - 2) * 3 ≤ length indices.old) }
    ensures { Put t (one_face work.old t ccw convex face) (one_floats work.old t ccw convex face floats.old) at result
        indices.old indices.new work.old work.new floats.new }
{
    let x = Tables { work, plan: &t };
    let r = x.stretch_of(face);
    let a = r.from;
    let n = r.to.0 - a.0;
    if n < 3 {
        return at;
    }
    let next = at + (n - 2) * 3;
    let f = Face { a, n, ccw, convex };
    put_corners(work, t, f, floats, indices, at);
    let outline = Outline {
        tables: Tables { work, plan: &t },
        face: f,
    };
    outline.name_corners(indices, at);
    next
}

// The indices of all kept faces, to the front of `indices`, and how many they are. A face whose ears are clipped is put in the plane in `floats`.
pub fn all_faces(
    work: &mut [u32],
    t: Plan,
    ccw: bool,
    convex: bool,
    floats: &mut [f32],
    indices: &mut [u32],
) -> usize
    requires { Ready work.old t (length floats.old) × (length (all_faces work.old t ccw convex) ≤ length indices.old) }
    ensures { Made t (all_faces work.old t ccw convex) (all_floats work.old t ccw convex floats.old) result
        indices.old indices.new work.old work.new floats.new }
{
    let mut at = 0;
    for g in 0..t.faces {
        at = one_face(work, t, g, ccw, convex, floats, indices, at);
    }
    at
}
