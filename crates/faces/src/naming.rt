// FORMAT 12.1, PolyMesh::build (local): triangles of a face's own corners become triangles of vertices, where they stand.
ghost use Rattle.std.specs.Prelude.{◌≡◌, [], ◌∷◌, ◌+◌, ◌*◌, ◌^◌, ◌≤◌, ◌<◌, length, get_or, drop};
ghost use Rattle.lists.specs.Parts.{spliced};
ghost use Rattle.polygon.specs.Ears.{triple};
ghost use Rattle.faces.specs.Naming.{threes, numbered};

use block::{CornerNumber, VertexNumber};
use lists::get;
use tables::{narrow, wide};

// The vertex of a corner, which a word of a triangle names, counted from the face's first corner, where `named` starts. Kept as a function: it is called
// three times, and its contract says that the number fits a word.
fn vertex_of(named: &[u32], word: u32) -> VertexNumber
    ensures { (result.0 ≡ get_or named.now word 0) × (result.0 < 2 ^ 32) }
{
    let c = CornerNumber(wide(word));
    VertexNumber(wide(get(named, c.0)))
}

// One triangle. Its three words by hand, and no `put_all`: the whole of it is written, and no place is asked for.
#[tactic(auto, using(lists::proofs::Stores::three_set))]
fn put_three(tri: &mut [u32], a: VertexNumber, b: VertexNumber, c: VertexNumber)
    requires { (length tri.old ≡ 3) × (a.0 < 2 ^ 32) × (b.0 < 2 ^ 32) × (c.0 < 2 ^ 32) }
    ensures { tri.new ≡ a.0 ∷ b.0 ∷ c.0 ∷ [] }
{
    tri[0] = narrow(a.0);
    tri[1] = narrow(b.0);
    tri[2] = narrow(c.0);
}

// One triangle; b and c are exchanged where ccw is off, the bit of the header: nobody chooses the order by it.
#[tactic(auto, unfolding(crate::specs::Naming::numbered, mesh::specs::Vertices::wound))]
fn name_tri(tri: &mut [u32], named: &[u32], ccw: bool)
    requires { length tri.old ≡ 3 }
    ensures { tri.new ≡ numbered ccw named.now (triple (get_or tri.old 0 0) (get_or tri.old 1 0) (get_or tri.old 2 0) ∷ []) }
{
    let a = vertex_of(named, tri[0]);
    let b = vertex_of(named, tri[1]);
    let c = vertex_of(named, tri[2]);
    if ccw {
        put_three(tri, a, b, c);
    } else {
        put_three(tri, a, c, b);
    }
}

// The n triangles from `at` on. `named` has the vertex numbers of the face's corners.
pub fn rename(indices: &mut [u32], at: usize, n: usize, named: &[u32], ccw: bool)
    requires { at + n * 3 ≤ length indices.old }
    ensures { indices.new ≡ spliced indices.old at (numbered ccw named.now (threes n (drop at indices.old))) }
{
    // By number: once the chunks of a `chunks_exact_mut` are gone (tried), a proof knows no word of what they leave.
    for i in 0..n {
        let k = at + i * 3;
        name_tri(&mut indices[k..k + 3], named, ccw);
    }
}
