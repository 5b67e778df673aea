// FORMAT 8.2, indexed_line_set: all of it.
ghost use Rattle.block.specs.declared.kind.Kind.TheVariants.{LineSet};
ghost use Rattle.std.specs.Prelude.{◌≡◌, length};
ghost use Rattle.block.specs.Settings.{settings_of};
ghost use Rattle.mesh.specs.Lines.{line_set_mesh};
ghost use Rattle.mesh.specs.Sizes.{sizes_of};
ghost use Rattle.lent.specs.Lent.{Asked, Shaped, Cleared};
ghost use Rattle.lent.specs.Buffers.{slices_in, Same};
ghost use Rattle.lineshape.specs.Shape.{line_widths};

use crate::filling::{line_tables, put_tables};
use bits::Words4;
use block::{Header, list_part};
use lent::{Buffers, Counts};
use lines::make_lines;
use soups::{attributes_of, face_widths};
use vertices::Widths;

// A line set has no normals and no texture.
fn line_widths(h: Header) -> Widths
    ensures { result ≡ line_widths h }
{
    let w = face_widths(h);
    Widths {
        normal: 0,
        colour: w.colour,
        texture: 0,
    }
}

// The mesh of an accepted line set, of which `count` entries name a point, into the six slices; the working slices are left with zeros. It reads no settings,
// so it takes no `AcceptedBlock`.
pub fn make_line_set(
    block: &[u8],
    h: Header,
    count: usize,
    missing: Words4,
    b: &mut Buffers<'_>,
) -> Counts
    requires { Asked LineSet block.now h (settings_of block.now) (slices_in b.old) (length b.old.words.now) (length b.old.floats.now)
        × (count ≡ (sizes_of block.now h).corners) }
    ensures same { Same b.old b.new }
    ensures made { Shaped h (line_set_mesh missing block.now) (slices_in b.old) (slices_in b.new) result
        × Cleared b.old.words.now b.new.words.now b.old.floats.now b.new.floats.now }
{
    let counts = h.counts;
    let points = counts[0];
    let list = list_part(block, h, 0);
    let coord = list_part(block, h, 1);
    let t = line_tables(points, count);
    put_tables(list, coord, points, b.words, t);
    let attributes = attributes_of(h, missing);
    let widths = line_widths(h);
    make_lines(block, coord, attributes, widths, t, points, b)
}
