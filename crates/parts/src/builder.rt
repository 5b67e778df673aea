// FORMAT 17.4, Builder: what a part is written with.
ghost use Rattle.std.specs.Prelude.{◌+◌, [], ◌∷◌};
ghost use Rattle.parts.specs.Building.{Room, Pushes};

use crate::vert::{GeomCtx, Vert, uv_of};
use lists::put_all;

// The slices that it is written to, of the caller. A call takes them one by one, as C hands them, and makes this of them.
// By hand, with no constructor (tried): each of the four slices is then the caller's by one ghost name more, and the proof of a sphere's call did not find it.
// The pairs of sines and cosines (FORMAT 17.3) go beside it: a box takes none, and they are read only.
#[derive(Drop)]
pub struct Builder<'a> {
    pub ctx: GeomCtx,
    pub positions: &'a mut [u32],
    pub normals: &'a mut [u32],
    pub textures: &'a mut [u32],
    pub indices: &'a mut [u32],
}

impl Builder<'_> {
    // Vertex k.
    pub fn put_vert(&mut self, k: usize, v: Vert)
        requires { Room (k + 1) self.old }
        ensures { Pushes k (v ∷ []) self.old self.new }
    {
        mesh::put_vector(self.positions, 3 * k, v.position);
        mesh::put_vector(self.normals, 3 * k, v.normal);
        if self.ctx.need_uvs {
            let w = uv_of(self.ctx, v);
            put_all(self.textures, 2 * k, &[w.s, w.t]);
        }
    }
}
