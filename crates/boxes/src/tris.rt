// FORMAT 17.6, box_prim (tri): the triangles, two a face.
ghost use Rattle.std.specs.Prelude.{◌≡◌, ◌+◌, ◌*◌, ◌≤◌, ◌<◌, length};
ghost use Rattle.lists.specs.Lists.{flat};
ghost use Rattle.lists.specs.Loops.{tab};
ghost use Rattle.lists.specs.Parts.{spliced};
ghost use Rattle.boxes.specs.Box.{box_tris};

use parts::put_words;
use tables::narrow;

// Those of face k.
#[tactic(auto, unfolding(crate::specs::Box::box_tris))]
fn box_tris(k: usize) -> [u32; 6]
    requires { k < 6 }
    ensures { result ≡ box_tris k }
{
    let a = k * 4;
    let p = narrow(a);
    let q = narrow(a + 1);
    let r = narrow(a + 2);
    let s = narrow(a + 3);
    [p, q, r, p, r, s]
}

// Those of all faces.
pub fn put_box_tris(indices: &mut [u32])
    requires { 6 * 6 ≤ length indices.old }
    ensures { indices.new ≡ spliced indices.old 0 (flat (tab box_tris 6 0)) }
{
    put_words(indices, 0, 6, box_tris);
}
