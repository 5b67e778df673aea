// FORMAT 7.1 to 7.4, indexed_face_set and elevation_grid (t_out): the texture of a corner.
ghost use Rattle.std.specs.Prelude.{◌≡◌, true};
ghost use Rattle.std.specs.Bool.{then_some};
ghost use Rattle.block.specs.Stream.{stream_of};
ghost use Rattle.texture.specs.Corner.{texture_in};

use bits::Words2;
use block::{Attribute, Header, Settings, TexTransform, texture_stream, uv};

// The words of a corner without texture. By hand: this is a const, and default is a call.
pub const NO_TEXTURE: Words2 = Words2 { s: 0, t: 0 };

// What the texture of a corner is read from: the block, its coordIndex, its header and its settings. What no corner changes is found once, by `of`: where the
// texture points lie, and the transform, where there is one.
#[derive(Clone, Copy)]
pub struct Source<'a> {
    pub block: &'a [u8],
    pub coord: &'a [u8],
    pub header: Header,
    pub settings: Settings,
    points: Attribute<'a>,
    transform: Option<TexTransform>,
    ghost block_is: { points.block.now ≡ block.now },
    ghost coord_is: { points.coord.now ≡ coord.now },
    ghost stream_is: { points.stream ≡ stream_of header true 6 },
    ghost transform_is: { transform ≡ then_some header.transformed settings.transform },
}

impl<'a> Source<'a> {
    pub fn of(block: &'a [u8], coord: &'a [u8], header: Header, settings: Settings) -> Source<'a>
        ensures { (result.block.now ≡ block.now) × (result.coord.now ≡ coord.now) × (result.header ≡ header) × (result.settings ≡ settings) }
    {
        Source {
            block,
            coord,
            header,
            settings,
            points: Attribute::of(block, coord, texture_stream(header)),
            // As in extrusion: the flag is the header's and the transform the settings', so that a function of both would be no shorter to call.
            transform: header.transformed.then_some(settings.transform),
        }
    }

    // The listed texture point or, where no list is there, the default one; then the transform and 1 - t.
    pub fn corner_texture(&self, place: usize, default: Words2) -> Words2
        ensures { result ≡ texture_in self.now.block.now self.now.coord.now self.now.header self.now.settings place default }
    {
        if self.header.texture_points {
            let listed = self.points.get(place, 0, NO_TEXTURE);
            return uv(self.transform, listed);
        }
        if self.header.need_uvs {
            return uv(self.transform, default);
        }
        NO_TEXTURE
    }
}
