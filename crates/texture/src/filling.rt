// FORMAT 7.3, 7.4: the table of the corners' textures, two words a corner.
ghost use Rattle.std.specs.Prelude.{◌≡◌, ◌+◌, ◌*◌, ◌≤◌, ◌<◌, length};
ghost use Rattle.mesh.specs.Texture.{default_at};
ghost use Rattle.mesh.specs.Words.{words2};
ghost use Rattle.lists.specs.Parts.{spliced};
ghost use Rattle.tables.specs.Soups.{points_in};
ghost use Rattle.texture.specs.Corner.{texture_in};
ghost use Rattle.texture.specs.Textured.{texture_words, set_texture, Fitted};

use crate::corner::{NO_TEXTURE, Source};
use crate::extents::default_at;
use bits::Words2;
use block::PointNumber;
use lists::put_all;
use mesh::Fit;
use tables::{Plan, points_of, wide};

pub fn put2(work: &mut [u32], a: usize, w: Words2)
    requires { a + 2 ≤ length work.old }
    ensures { work.new ≡ spliced work.old a (words2 w) }
{
    put_all(work, a, &[w.s, w.t]);
}

impl<'a> Source<'a> {
    // The texture at a place, of a point whose words are in `work`. Where texture points are listed no default is made: what is handed on for it goes unread,
    // since a closure for it would need a clause here, in corner_texture and in grid.
    fn texture_at(&self, fit: Fit, work: &[u32], t: Plan, p: PointNumber, place: usize) -> Words2
        requires { (p.0 < t.spots) × (t.points + 3 * t.spots ≤ length work.now) }
        ensures { result ≡ texture_in self.now.block.now self.now.coord.now self.now.header self.now.settings place (default_at (points_in work.now t) fit p.0) }
    {
        if self.header.texture_points {
            return self.corner_texture(place, NO_TEXTURE);
        }
        self.corner_texture(place, default_at(points_of(work, &t), fit, p))
    }

    // The textures of all corners of a face set, from place `textures` on: the plan says where their points and places, and the words of all points, stand.
    pub fn put_textures(&self, fit: Fit, work: &mut [u32], t: Plan, textures: usize)
        requires { Fitted work.old t textures }
        ensures { work.new ≡ spliced work.old textures
            (texture_words (set_texture self.now.block.now self.now.coord.now self.now.header self.now.settings fit work.old t) t.count) }
    {
        // A loop of its own, as in extrusion: each reads other tables of `work`, and a shared one would take this body back as a closure. Grid's reads none.
        for c in 0..t.count {
            let p = PointNumber(wide(work[t.corners + c]));
            let place = wide(work[t.places + c]);
            let w = self.texture_at(fit, work, t, p, place);
            put2(work, textures + 2 * c, w);
        }
    }
}
