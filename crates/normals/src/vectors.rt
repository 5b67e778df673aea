// FORMAT 9.1: vectors as words, and as floats in the f32 slice.
ghost use Rattle.std.specs.Prelude.{◌≡◌, ◌+◌, ◌≤◌, length};
ghost use Rattle.lists.specs.Parts.{Kept, spliced};
ghost use Rattle.normals.specs.Rows.{at3, unit_at, vector};
ghost use Rattle.normals.specs.Written.{three};

use lists::put_all;
use math::V3;

// Not one with `get3`: words hold the bits of a float, so one for both would take a trait, or a closure and what it computes, for three lines.
// Nor with `point_at` of paths, which reads by a point's number: a function under both would be as long as either, and one more to promise.
#[tactic(auto, unfolding(crate::specs::Rows::at3))]
pub fn load(work: &[u32], a: usize) -> V3
    requires { a + 3 ≤ length work.now }
    ensures { result ≡ at3 work.now a }
{
    V3 {
        x: math::of_bits(work[a]),
        y: math::of_bits(work[a + 1]),
        z: math::of_bits(work[a + 2]),
    }
}

// A flag word, since every pattern is a float.
#[tactic(auto, unfolding(crate::specs::Rows::unit_at))]
pub fn load_unit(work: &[u32], a: usize) -> Option<V3>
    requires { a + 4 ≤ length work.now }
    ensures { result ≡ unit_at work.now a }
{
    if work[a] == 0 {
        return None;
    }
    Some(load(work, a + 1))
}

// Not one with `put3`: this puts the bits of the floats, by `put_vector` of mesh; each is one line.
pub fn store3(work: &mut [u32], a: usize, v: V3)
    requires { a + 3 ≤ length work.old }
    ensures { Kept a work.old work.new × (at3 work.new a ≡ v) }
{
    mesh::put_vector(work, a, v);
}

// As `load_unit` reads it.
pub fn store_unit(work: &mut [u32], a: usize, k: Option<V3>)
    requires { a + 4 ≤ length work.old }
    ensures { Kept a work.old work.new × (unit_at work.new a ≡ k) }
{
    match k {
        Some(u) => {
            work[a] = 1;
            store3(work, a + 1, u);
            return;
        }
        None => {
            work[a] = 0;
            return;
        }
    }
}

pub fn put3(part: &mut [f32], a: usize, v: V3)
    requires { a + 3 ≤ length part.old }
    ensures { part.new ≡ spliced part.old a (three v) }
{
    put_all(part, a, &[v.x, v.y, v.z]);
}

#[tactic(auto, unfolding(crate::specs::Rows::vector))]
pub fn get3(part: &[f32], a: usize) -> V3
    requires { a + 3 ≤ length part.now }
    ensures { result ≡ vector part.now a }
{
    V3 {
        x: part[a],
        y: part[a + 1],
        z: part[a + 2],
    }
}
