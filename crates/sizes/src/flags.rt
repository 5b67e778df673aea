// FORMAT 5: the bits of the result, by the header alone.
ghost use Rattle.std.specs.Prelude.{◌≡◌, false};
ghost use Rattle.block.specs.Kind.{by_kind};
ghost use Rattle.sizes.specs.Flagged.{Flagged};

use block::{Header, Kind, is_lines};

#[derive(Clone, Copy)]
pub struct Flags {
    pub solid: bool,
    pub unlit: bool,
    pub has_colors: bool,
}

// Colours are made where they are present, but never for an extrusion.
fn makes_colours(kind: Kind, colors: bool) -> bool
    ensures { result ≡ by_kind kind colors colors colors false (λ g. colors) }
{
    match kind {
        Kind::FaceSet | Kind::LineSet | Kind::Grid | Kind::Primitives(_) => colors,
        Kind::Extrusion => false,
    }
}

// A line set is always solid and unlit.
pub fn flags_of(h: Header) -> Flags
    ensures { Flagged h result }
{
    let kind = h.kind;
    let lines = is_lines(kind);
    Flags {
        solid: lines || h.solid,
        unlit: lines,
        has_colors: makes_colours(kind, h.colors),
    }
}
