// The kinds of a block (FORMAT 2.2).
ghost use Rattle.std.specs.Prelude.{◌≡◌};
ghost use Rattle.block.specs.Kind.{kind_of, is_primitives, is_indexed, is_lines};

use crate::topology::Topology;

// The number of a kind has three bits (FORMAT 2.2), and each of those eight numbers is a kind's.
#[derive(Clone, Copy)]
pub enum Kind {
    FaceSet,
    LineSet,
    Grid,
    Extrusion,
    Primitives(Topology),
}

// No TryFrom: a block has no number of more than three bits, and an error for one would be answered by nobody. Nor From: such a number is no kind's.
pub fn kind_of(number: u32) -> Kind
    ensures { result ≡ kind_of number }
{
    match number {
        0 => Kind::FaceSet,
        1 => Kind::LineSet,
        2 => Kind::Grid,
        3 => Kind::Extrusion,
        4 => Kind::Primitives(Topology::Triangles),
        5 => Kind::Primitives(Topology::Fans),
        6 => Kind::Primitives(Topology::Strips),
        _ => Kind::Primitives(Topology::Quads),
    }
}

pub fn is_primitives(kind: Kind) -> bool
    ensures { result ≡ is_primitives kind }
{
    match kind {
        Kind::FaceSet | Kind::LineSet | Kind::Grid | Kind::Extrusion => false,
        Kind::Primitives(_) => true,
    }
}

// Whether a kind has index lists. Here and beside it every kind is named, not by `matches!`: a new one has to be said.
pub fn is_indexed(kind: Kind) -> bool
    ensures { result ≡ is_indexed kind }
{
    match kind {
        Kind::FaceSet | Kind::LineSet | Kind::Primitives(_) => true,
        Kind::Grid | Kind::Extrusion => false,
    }
}

// Whether indices go in pairs, as lines.
pub fn is_lines(kind: Kind) -> bool
    ensures { result ≡ is_lines kind }
{
    match kind {
        Kind::LineSet => true,
        Kind::FaceSet | Kind::Grid | Kind::Extrusion | Kind::Primitives(_) => false,
    }
}
