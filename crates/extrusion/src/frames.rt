// FORMAT 8.4, extrusion_frames (ys, zs): the Y and the Z axis that each spine point has of itself, and the first of all.
ghost use Rattle.std.specs.Prelude.{◌≡◌, ◌≤◌, ◌<◌, length};
ghost use Rattle.mesh.specs.Frames as spec;
ghost use Rattle.mesh.specs.Frames.{is_end, along_end, y_own, first_y, bend, z_end, z_own, first_z};

use crate::reading::Entries;
use math::V3;

fn is_end(n: usize, i: usize) -> bool
    requires { i < n }
    ensures { result ≡ is_end n i }
{
    i == 0 || i == n - 1
}

// The points of a spine: an extrusion that has fewer than two is refused (FORMAT 3).
#[derive(Drop)]
pub struct Spine<'a> {
    pub points: Entries<'a, V3>,
    ghost long: { 2 ≤ length points },
}

impl<'a> Spine<'a> {
    // From point a to point b.
    pub fn step(&self, a: usize, b: usize) -> V3
        requires { (a < length self.now.points) × (b < length self.now.points) }
        ensures { result ≡ spec.step self.now.points a b }
    {
        math::sub(self.points.at(b), self.points.at(a))
    }

    fn along_end(&self, i: usize) -> V3
        ensures { result ≡ along_end self.now.points (length self.now.points) i }
    {
        let n = self.points.len();
        if self.points.closes() {
            return self.step(n - 2, 1);
        }
        if i == 0 {
            return self.step(0, 1);
        }
        self.step(n - 2, n - 1)
    }

    pub fn y_own(&self, i: usize) -> Option<V3>
        requires { i < length self.now.points }
        ensures { result ≡ y_own self.now.points i }
    {
        if is_end(self.points.len(), i) {
            return math::normalize(self.along_end(i));
        }
        math::normalize(self.step(i - 1, i + 1))
    }

    pub fn first_y(&self) -> Option<V3>
        ensures { result ≡ first_y self.now.points }
    {
        (0..self.points.len()).find_map(|i| self.y_own(i))
    }

    // The normal of the plane of point i and its neighbours a and b.
    fn plane(&self, a: usize, i: usize, b: usize) -> Option<V3>
        requires { (a < length self.now.points) × (i < length self.now.points) × (b < length self.now.points) }
        ensures { result ≡ bend self.now.points a i b }
    {
        math::normalize(math::cross(self.step(i, b), self.step(i, a)))
    }

    fn z_end(&self, i: usize) -> Option<V3>
        ensures { result ≡ z_end self.now.points (length self.now.points) i }
    {
        let n = self.points.len();
        if self.points.closes() {
            return self.plane(n - 2, 0, 1);
        }
        if 2 < n {
            if i == 0 {
                return self.plane(0, 1, 2);
            }
            return self.plane(n - 3, n - 2, n - 1);
        }
        None
    }

    pub fn z_own(&self, i: usize) -> Option<V3>
        requires { i < length self.now.points }
        ensures { result ≡ z_own self.now.points i }
    {
        if is_end(self.points.len(), i) {
            return self.z_end(i);
        }
        self.plane(i - 1, i, i + 1)
    }

    pub fn first_z(&self) -> Option<V3>
        ensures { result ≡ first_z self.now.points }
    {
        (0..self.points.len()).find_map(|i| self.z_own(i))
    }
}
