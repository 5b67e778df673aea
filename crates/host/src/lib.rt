// The conversion for hosts in other languages (FORMAT 15), and the parts (FORMAT 17.12).
#![tactic(auto)]

ghost use Rattle.std.specs.Prelude.{◌≡◌};
ghost use Rattle.geometry.specs.Converted.{Converted};
ghost use Rattle.sine.specs.SinCos.{sin_cos_of};
ghost use Rattle.host.specs.Hosted.{call_of, Hosted};

use answers::answered;
use bits::Words4;
use geometry::Call;
use lent::Buffers;
use sine::SinCos;

mod answers;
mod context;
mod points;
mod solids;

// A colour as a host has it: the bits of four f32, laid out as in C. Not `Words4` of bits, whose layout is not C's.
#[repr(C)]
#[derive(Clone, Copy)]
pub struct Colour {
    pub r: u32,
    pub g: u32,
    pub b: u32,
    pub a: u32,
}

// What a host chooses.
#[repr(C)]
#[derive(Clone, Copy)]
pub struct Choice {
    pub colour: Colour,
}

impl From<Choice> for Call {
    ghost from_gives = { λ choice call. call ≡ call_of choice };

    fn from(choice: Choice) -> Call {
        let c = choice.colour;
        Call {
            colour: Words4 {
                r: c.r,
                g: c.g,
                b: c.b,
                a: c.a,
            },
        }
    }
}

// The mesh of a block, into the lent slices, and 0; or the number of the refusal, and every lent element as it was.
// The slices come one by one: the C interface has them so.
#[unsafe(no_mangle)]
pub extern "C" fn sitemesh_convert(
    choice: Choice,
    block: &[u8],
    positions: &mut [u32],
    normals: &mut [u32],
    colours: &mut [u32],
    textures: &mut [u32],
    sources: &mut [u32],
    indices: &mut [u32],
    words: &mut [u32],
    floats: &mut [f32],
    res: &mut [usize],
) -> u32
    ensures { Hosted (Converted (call_of choice) block.now
        (record { slices = record { positions = positions.old; normals = normals.old; colours = colours.old; textures = textures.old; sources = sources.old; indices = indices.old }; words = words.old; floats = floats.old })
        (record { slices = record { positions = positions.new; normals = normals.new; colours = colours.new; textures = textures.new; sources = sources.new; indices = indices.new }; words = words.new; floats = floats.new }))
        res.old res.new result }
{
    let mut b = Buffers {
        sources,
        positions,
        normals,
        colours,
        textures,
        indices,
        words,
        floats,
    };
    let a = geometry::convert(Call::from(choice), block, &mut b);
    answered(a, res)
}

// Sine and cosine of an angle (FORMAT 16), for whoever fills a block.
#[unsafe(no_mangle)]
pub extern "C" fn sitemesh_sin_cos(angle: f32) -> SinCos
    ensures { result ≡ sin_cos_of angle }
{
    sine::sin_cos(angle)
}
