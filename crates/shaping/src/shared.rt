// What the faces of a shape share (FORMAT 8, PolyMesh).
ghost use Rattle.std.specs.Prelude.{◌≡◌, cond};
ghost use Rattle.vertices.specs.Places.{texture_words};
ghost use Rattle.shaping.specs.Shared.{plain_attributes, listed_shared, plain_shared};

use bits::Words4;
use block::{Header, color_stream};
use build::Shared;
use corners::Attributes;
use soups::{attributes_of, face_widths};
use vertices::{NORMAL_WORDS, TEXTURE_WORDS, Widths};

// Colours, normals and texture are listed in the block.
pub fn listed_shared(h: Header, missing: Words4, convex: bool) -> Shared
    ensures { result ≡ listed_shared missing convex h }
{
    let widths = face_widths(h);
    let attributes = attributes_of(h, missing);
    Shared {
        ccw: h.ccw,
        convex,
        widths,
        attributes,
    }
}

// Normals are always generated, and there is no colour.
fn plain_attributes(h: Header) -> Attributes
    ensures { result ≡ plain_attributes h }
{
    let colours = color_stream(h);
    Attributes {
        normals: None,
        colours,
        alpha: h.alpha,
        missing: Words4::default(),
    }
}

fn texture_width(h: Header) -> usize
    ensures { result ≡ cond h.need_uvs texture_words 0 }
{
    if h.need_uvs {
        return TEXTURE_WORDS;
    }
    0
}

// The block lists no colour, normal or texture.
pub fn plain_shared(h: Header, convex: bool) -> Shared
    ensures { result ≡ plain_shared convex h }
{
    let attributes = plain_attributes(h);
    let widths = Widths {
        normal: NORMAL_WORDS,
        colour: 0,
        texture: texture_width(h),
    };
    Shared {
        ccw: h.ccw,
        convex,
        widths,
        attributes,
    }
}
