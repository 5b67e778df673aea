// Which attributes are made (FORMAT 5), and so stand on a vertex line.
ghost use Rattle.std.specs.Prelude.{◌≡◌};
ghost use Rattle.block.specs.Header.{header_of};
ghost use Rattle.mesh.specs.Result.{makes_textures};
ghost use Rattle.answer.specs.Text.{parts_of};

use block::{Header, Kind, read_header};
use sizes::flags_of;
use text::Parts;

// Where wanted or, in all but extrusions, where texture points are present; never for a line set.
fn makes_texture(h: Header) -> bool
    ensures { result ≡ makes_textures h }
{
    let kind = h.kind;
    match kind {
        Kind::LineSet => false,
        Kind::Extrusion => h.need_uvs,
        Kind::FaceSet | Kind::Grid | Kind::Primitives(_) => h.need_uvs || h.texture_points,
    }
}

// A line set has no normals, and its indices are lines.
pub fn parts_of(h: Header) -> Parts
    ensures { result ≡ parts_of h }
{
    let flags = flags_of(h);
    Parts {
        normals: !flags.unlit,
        colours: flags.has_colors,
        texture: makes_texture(h),
        lines: flags.unlit,
    }
}

// Of a block.
pub fn parts_in(block: &[u8]) -> Parts
    ensures { result ≡ parts_of (header_of block.now) }
{
    parts_of(read_header(block))
}
