// FORMAT 19.1: the rays of the paths, made once for all triangles. They stand coordinate by
// coordinate, 64 places each, and not as 64 of `Ray`, so that the compiler tests four paths at a time.
ghost use Rattle.std.specs.Prelude.{◌≡◌, ◌+◌, ◌/◌, ◌≤◌, ◌<◌, length};
ghost use Rattle.paths.specs.Pass.{spot_at, ray_at, stored, Loaded};

use crate::intersect::Ray;
use crate::triangles::point_at;
use math::{V3, sub};

// Six coordinates of each of 64.
pub type Rays = [f32; 384];

fn spot(rays: &Rays, k: usize) -> V3
    requires { k < 256 }
    ensures { result ≡ spot_at rays.now k }
{
    V3 {
        x: rays[k],
        y: rays[k + 64],
        z: rays[k + 128],
    }
}

fn put_spot(rays: &mut Rays, k: usize, v: V3)
    requires { k < 256 }
    ensures { rays.new ≡ stored rays.old k v }
{
    rays[k] = v.x;
    rays[k + 64] = v.y;
    rays[k + 128] = v.z;
}

// The ray of path j.
pub fn ray_at(rays: &Rays, j: usize) -> Ray
    requires { j < 64 }
    ensures { result ≡ ray_at rays.now j }
{
    let orig = spot(rays, j);
    let dir = spot(rays, j + 192);
    Ray { orig, dir }
}

// The rays of all paths.
pub fn load(paths: &[u32], rays: &mut Rays)
    requires { length paths.now / 6 ≤ 64 }
    ensures { Loaded paths.now rays.new
        (length paths.now / 6) }
{
    for (j, path) in paths.chunks_exact(6).enumerate() {
        let from = point_at(path, 0);
        let to = point_at(path, 1);
        put_spot(rays, j, from);
        put_spot(rays, j + 192, sub(to, from));
    }
}
