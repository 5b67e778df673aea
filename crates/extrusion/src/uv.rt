// FORMAT 8.4, extrusion (t_out, cap_st), and 7.3: the texture words of each corner.
ghost use Rattle.std.specs.Prelude.{◌≡◌, ◌+◌, ◌*◌, ◌<◌, length, get_or};
ghost use Rattle.std.specs.Float.{nan, binary32};
ghost use Rattle.std.specs.Float.Ieee.{to_bits};
ghost use Rattle.block.specs.Settings.{settings_of};
ghost use Rattle.mesh.specs.Extrusion as spec;
ghost use Rattle.mesh.specs.Extrusion.{spine_count, section_count, extrusion_of};
ghost use Rattle.extrusion.specs.Listings.{use_of};
ghost use Rattle.lists.specs.Parts.{spliced};
ghost use Rattle.texture.specs.Textured.{texture_words};
ghost use Rattle.extrusion.specs.Corners.{texture_of, extrusion_corner, extrusion_texture, Measured, Cornered};

use crate::reading::{Extruded, section_count, spine_count};
use bits::Words2;
use block::{Pair, PointNumber, Settings};
use mesh::Fit;
use tables::{Plan, wide};
use texture::{NO_TEXTURE, put2};

// How far along the cross-section, and how far along the spine: floats j and i.
fn side_texture(floats: &[f32], j: usize, i: usize) -> Words2
    requires { (j < length floats.now) × (i < length floats.now) }
    ensures { (result.s ≡ to_bits binary32 (get_or floats.now j nan)) × (result.t ≡ to_bits binary32 (get_or floats.now i nan)) }
{
    Words2::from(Pair {
        s: floats[j],
        t: floats[i],
    })
}

#[tactic(auto, unfolding(mesh::specs::Extrusion::cap_texture))]
fn cap_texture(fit: Fit, p: Pair) -> Words2
    ensures { result ≡ spec.cap_texture fit p }
{
    fit.texture_of(p.s, p.t)
}

// An extrusion, its settings, what `put_arcs` left in floats from place `at` on, and how its cross-section fits the texture of a cap.
// The settings stand here and not in `Extruded`: sizes counts the corners of a cap without them, and would read them for nothing. `at` stands beside the floats,
// and no slice from there on: `put_arcs` says of all floats what it leaves, by the same place.
#[derive(Clone, Copy)]
pub struct Textured<'a> {
    pub source: Extruded<'a>,
    pub settings: Settings,
    pub floats: &'a [f32],
    pub at: usize,
    pub fit: Fit,
    ghost read: { settings ≡ settings_of source.block.now },
    ghost measured: { Measured source.block.now source.header floats.now at fit },
}

impl<'a> Textured<'a> {
    // Before the transform.
    fn plain_texture(&self, number: usize, point: PointNumber) -> Words2
        requires { point.0 < spine_count self.now.source.header * section_count self.now.source.header }
        ensures { result ≡ texture_of (extrusion_of self.now.source.block.now) number point.0 }
    {
        let at = self.at;
        let n = spine_count(self.source.header);
        let m = section_count(self.source.header);
        let col = point.0 % m;
        if number < (n - 1) * (m - 1) {
            return side_texture(self.floats, at + col, at + (m + point.0 / m));
        }
        cap_texture(self.fit, self.source.section().at(col))
    }

    // The texture words of a corner, by its face's number and its point.
    pub fn corner_texture(&self, number: usize, point: PointNumber) -> Words2
        requires { point.0 < spine_count self.now.source.header * section_count self.now.source.header }
        ensures { result ≡ (extrusion_corner (extrusion_of self.now.source.block.now) number (use_of point.0)).texture }
    {
        let h = self.source.header;
        if h.need_uvs {
            let w = self.plain_texture(number, point);
            // As in texture: the flag is the header's and the transform the settings', so that a function of both would be no shorter to call.
            return block::uv(h.transformed.then_some(self.settings.transform), w);
        }
        NO_TEXTURE
    }

    // The texture words of each corner, two words a corner from place `textures` on: the plan says where their points and the numbers of their faces stand.
    pub fn put_textures(&self, work: &mut [u32], t: Plan, textures: usize)
        requires { Cornered self.now.source.header t textures work.old }
        ensures { work.new ≡ spliced work.old textures (texture_words (extrusion_texture (extrusion_of self.now.source.block.now) work.old t) t.count) }
    {
        // A loop of its own, as in texture: each reads other tables of `work`, and a shared one would take this body back as a closure. Grid's reads none.
        for c in 0..t.count {
            let p = PointNumber(wide(work[t.corners + c]));
            let f = wide(work[t.owners + c]);
            let w = self.corner_texture(f, p);
            put2(work, textures + 2 * c, w);
        }
    }
}
