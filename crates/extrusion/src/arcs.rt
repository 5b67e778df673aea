// FORMAT 8.4, arc_params: how far along the cross-section, and along the spine, each of its points is.
ghost use Rattle.std.specs.Prelude.{◌≡◌, ℕ, Float, ◌++◌, ◌+◌, ◌-◌, ◌^◌, ◌≤◌, ◌<◌, length};
ghost use Rattle.math.specs.Whole.{Exact};
ghost use Rattle.mesh.specs.Arcs as spec;
ghost use Rattle.mesh.specs.Arcs.{step2, step3, length_to, arcs, arcs2, arcs3};
ghost use Rattle.mesh.specs.Extrusion.{spine_count, section_count, extrusion_of};
ghost use Rattle.lists.specs.Parts.{spliced};

use crate::frames::Spine;
use crate::reading::{Entries, Extruded};
use block::Pair;

fn spine_step(spine: &Spine<'_>, i: usize) -> f32
    requires { (i + 1 < length spine.now.points) × (length spine.now.points < 2 ^ 64) }
    ensures { result ≡ step3 spine.now.points i }
{
    math::len(spine.step(i, i + 1))
}

fn section_step(section: &Entries<Pair>, i: usize) -> f32
    requires { (i + 1 < length section.now) × (length section.now < 2 ^ 64) }
    ensures { result ≡ step2 section.now i }
{
    let p = section.at(i + 1);
    let q = section.at(i);
    let x = p.s - q.s;
    let y = p.t - q.t;
    math::root(x * x + y * y)
}

// A step that is not finite counts for nothing. One test, as block's private `finite_or`: sharing it would be one public function more to promise.
fn counted(d: f32) -> f32
    ensures { result ≡ spec.counted d }
{
    if math::is_finite(d) {
        return d;
    }
    0.0
}

// The whole length of n points, by the step from each to the next.
fn arc_total<F: Fn(usize) -> f32>(n: usize, step: F) -> f32
    requires some { 2 ≤ n }
    requires called { (i : ℕ) → i + 1 < n → F.pre step i }
    ensures { (value : ℕ → Float) → ((i : ℕ) (d : Float) → i + 1 < n → F.post step i d → d ≡ value i) → result ≡ length_to value (n - 1) }
{
    let mut x = 0.0;
    for j in 0..n - 1 {
        x = x + counted(step(j));
    }
    x
}

// The length x up to point i, of the whole length t; or, where that is not above 0, i of the last number m.
fn share(t: f32, m: usize, i: usize, x: f32) -> f32
    requires { Exact m × Exact i }
    ensures { result ≡ spec.share t m i x }
{
    if t > 0.0 {
        return x / t;
    }
    math::whole_float(i) / math::whole_float(m)
}

// The parameters of n points, by the step from each to the next, into floats from place k.
fn put_params<F: Fn(usize) -> f32>(n: usize, step: F, floats: &mut [f32], k: usize)
    requires some { 2 ≤ n }
    requires few { Exact n }
    requires room { k + n ≤ length floats.old }
    requires called { (i : ℕ) → i + 1 < n → F.pre step i }
    ensures { (value : ℕ → Float) → ((i : ℕ) (d : Float) → i + 1 < n → F.post step i d → d ≡ value i) → floats.new ≡ spliced floats.old k (arcs value n) }
{
    let t = arc_total(n, &step);
    let mut x = 0.0;
    let last = n - 1;
    for j in 0..last {
        floats[k + j] = share(t, last, j, x);
        x = x + counted(step(j));
    }
    floats[k + last] = share(t, last, last, x);
}

impl<'a> Extruded<'a> {
    // The cross-section's parameters, then the spine's, into floats from place `at`.
    pub fn put_arcs(&self, floats: &mut [f32], at: usize)
        requires { (at + (section_count self.now.header + spine_count self.now.header) ≤ length floats.old) }
        ensures { floats.new ≡ spliced floats.old at
            (arcs2 (extrusion_of self.now.block.now).section ++ arcs3 (extrusion_of self.now.block.now).spine) }
    {
        let spine = self.spine();
        let section = self.section();
        let m = section.len();
        put_params(m, |i| section_step(&section, i), floats, at);
        put_params(
            spine.points.len(),
            |i| spine_step(&spine, i),
            floats,
            at + m,
        );
    }
}
