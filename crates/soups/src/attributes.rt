// Where the corners of a face set or a grid get their attributes (FORMAT 5, 7).
ghost use Rattle.std.specs.Prelude.{◌≡◌};
ghost use Rattle.soups.specs.Attributes.{attributes_of, face_widths};

use bits::Words4;
use block::{Header, color_stream, normal_stream};
use corners::Attributes;
use vertices::{COLOUR_WORDS, NORMAL_WORDS, TEXTURE_WORDS, Widths};

pub fn attributes_of(h: Header, missing: Words4) -> Attributes
    ensures { result ≡ attributes_of missing h }
{
    let normals = normal_stream(h);
    let colours = color_stream(h);
    Attributes {
        normals: h.normals.then_some(normals),
        colours,
        alpha: h.alpha,
        missing,
    }
}

// Normals are always made, and texture where it is wanted, or listed.
pub fn face_widths(h: Header) -> Widths
    ensures { result ≡ face_widths h }
{
    Widths {
        normal: NORMAL_WORDS,
        colour: if h.colors { COLOUR_WORDS } else { 0 },
        texture: if h.need_uvs || h.texture_points {
            TEXTURE_WORDS
        } else {
            0
        },
    }
}
