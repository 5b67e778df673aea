// The point of a corner and the words of its key (FORMAT 7, 11): those of the normal, the colour and the texture.
ghost use Rattle.std.specs.Prelude.{◌≡◌, ◌+◌, ◌*◌, ◌≤◌, ◌<◌, length, take};
ghost use Rattle.corners.specs.Laid.{Laid};
ghost use Rattle.corners.specs.Corner.{point_at, place_at, number_at, texture_at, generated_at, normal_at, colour_at, key_in};
ghost use Rattle.mesh.specs.Words.{words2, words3, words4};
ghost use Rattle.vertices.specs.Places.{normal_words, colour_words, texture_words};
ghost use Rattle.vertices.specs.Search.{corner_key};
ghost use Rattle.corners.specs.Given.{lent_in};

use crate::attributed::Attributed;
use crate::laid::CornerTables;
use bits::{Words2, Words3, Words4};
use block::{CornerNumber, PointNumber};
use tables::wide;
use vertices::{KEY_WORDS, Widths};

// A corner, with the tables that say what it is.
#[derive(Clone, Copy)]
pub struct Corner<'a> {
    pub work: &'a [u32],
    pub tables: &'a CornerTables,
    pub c: CornerNumber,
    ghost laid: { Laid tables.now (length work.now) },
    ghost there: { c.0 < tables.now.count },
}

impl<'a> Corner<'a> {
    #[tactic(auto, unfolding(crate::specs::Corner::point_at))]
    pub fn point(&self) -> PointNumber
        ensures { result.0 ≡ point_at self.now.work.now self.now.tables.now self.now.c.0 }
    {
        PointNumber(wide(self.work[self.tables.corners + self.c.0]))
    }

    // Its place in coordIndex. Not one with `number`: each says in its contract what its table holds.
    #[tactic(auto, unfolding(crate::specs::Corner::place_at))]
    fn place(&self) -> usize
        ensures { result ≡ place_at self.now.work.now self.now.tables.now self.now.c.0 }
    {
        wide(self.work[self.tables.places + self.c.0])
    }

    // The number of its face.
    #[tactic(auto, unfolding(crate::specs::Corner::number_at))]
    fn number(&self) -> usize
        ensures { result ≡ number_at self.now.work.now self.now.tables.now self.now.c.0 }
    {
        wide(self.work[self.tables.numbers + self.c.0])
    }

    #[tactic(auto, unfolding(crate::specs::Corner::texture_at))]
    fn texture(&self) -> Words2
        ensures { result ≡ texture_at self.now.work.now self.now.tables.now self.now.c.0 }
    {
        let at = self.tables.textures + 2 * self.c.0;
        Words2 {
            s: self.work[at],
            t: self.work[at + 1],
        }
    }

    // Its normal as it goes into the key: supplied, or generated.
    #[tactic(auto, unfolding(crate::specs::Corner::normal_at))]
    fn normal(&self, g: &Attributed<'_>) -> Words3
        requires { 3 * self.now.tables.now.count ≤ length g.now.given.now.floats.now }
        ensures { result ≡ normal_at (lent_in g.now.given.now) g.now.given.now.attributes self.now.work.now self.now.tables.now self.now.c.0 }
    {
        if g.given.attributes.normals.is_some() {
            let none = Words3::default();
            return g.normals.get(self.place(), self.number(), none);
        }
        generated_of(g.given.floats, self.c)
    }

    #[tactic(auto, unfolding(crate::specs::Corner::colour_at))]
    fn colour(&self, g: &Attributed<'_>) -> Words4
        ensures { result ≡ colour_at (lent_in g.now.given.now) g.now.given.now.attributes self.now.work.now self.now.tables.now self.now.c.0 }
    {
        let a = g.given.attributes;
        g.colours
            .get4(a.alpha, self.place(), self.number(), a.missing)
    }

    // The three that follow: an attribute of which no word is made is not looked up.
    #[tactic(auto, using(crate::proofs::Mades::same_none))]
    fn made_normal(&self, g: &Attributed<'_>, w: usize) -> Words3
        requires { 3 * self.now.tables.now.count ≤ length g.now.given.now.floats.now }
        ensures { take w (words3 result) ≡ take w (words3 (normal_at (lent_in g.now.given.now) g.now.given.now.attributes self.now.work.now self.now.tables.now self.now.c.0)) }
    {
        if w == 0 {
            return Words3::default();
        }
        self.normal(g)
    }

    #[tactic(auto, using(crate::proofs::Mades::same_none))]
    fn made_colour(&self, g: &Attributed<'_>, w: usize) -> Words4
        ensures { take w (words4 result) ≡ take w (words4 (colour_at (lent_in g.now.given.now) g.now.given.now.attributes self.now.work.now self.now.tables.now self.now.c.0)) }
    {
        if w == 0 {
            return Words4::default();
        }
        self.colour(g)
    }

    #[tactic(auto, using(crate::proofs::Mades::same_none))]
    fn made_texture(&self, w: usize) -> Words2
        ensures { take w (words2 result) ≡ take w (words2 (texture_at self.now.work.now self.now.tables.now self.now.c.0)) }
    {
        if w == 0 {
            return Words2 { s: 0, t: 0 };
        }
        self.texture()
    }

    // The words of its key, of which those that are not made are any.
    pub fn key(&self, g: &Attributed<'_>, w: Widths) -> [u32; KEY_WORDS]
        requires { (3 * self.now.tables.now.count ≤ length g.now.given.now.floats.now)
            × ((w.normal ≤ normal_words) × (w.colour ≤ colour_words) × (w.texture ≤ texture_words)) }
        ensures { corner_key w (point_at self.now.work.now self.now.tables.now self.now.c.0) result
            ≡ key_in (lent_in g.now.given.now) g.now.given.now.attributes w self.now.work.now self.now.tables.now self.now.c.0 }
    {
        let n = self.made_normal(g, w.normal);
        let k = self.made_colour(g, w.colour);
        let x = self.made_texture(w.texture);
        [n.x, n.y, n.z, k.r, k.g, k.b, k.a, x.s, x.t]
    }
}

// Not `words_of` of mesh: the vector for it would take the same three lines.
fn generated_of(floats: &[f32], c: CornerNumber) -> Words3
    requires { 3 * c.0 + 3 ≤ length floats.now }
    ensures { result ≡ generated_at floats.now c.0 }
{
    let at = 3 * c.0;
    Words3 {
        x: math::bits_of(floats[at]),
        y: math::bits_of(floats[at + 1]),
        z: math::bits_of(floats[at + 2]),
    }
}
