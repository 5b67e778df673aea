// FORMAT 8.4, extrusion: all of it.
ghost use Rattle.block.specs.declared.kind.Kind.TheVariants.{Extrusion};
ghost use Rattle.mesh.specs.Extrusion.{extrusion_mesh};
ghost use Rattle.lent.specs.Lent.{Shaped, Cleared};
ghost use Rattle.lent.specs.Buffers.{slices_in, Same};
ghost use Rattle.sizes.specs.Called.{Called};

use crate::filling::{put_tables, texture_where};
use build::build;
use extrusion::{Extruded, cap_count};
use lent::{Buffers, Counts};
use shaping::plain_shared;
use sizes::{AcceptedBlock, Net, extrusion_sizes};
use tables::plan_of;

// The mesh of an accepted extrusion, into the six slices; the working slices are left with zeros. An extrusion has no coordIndex: an
// empty slice goes for it, as at `block::Attribute`.
pub fn make_extrusion(a: &AcceptedBlock<'_>, b: &mut Buffers<'_>) -> Counts
    requires { Called Extrusion a.now b.old }
    ensures same { Same b.old b.new }
    ensures made { Shaped a.now.header (extrusion_mesh a.now.block.now) (slices_in b.old) (slices_in b.new) result
        × Cleared b.old.words.now b.new.words.now b.old.floats.now b.new.floats.now }
{
    let block = a.block;
    let header = a.header;
    let s = a.settings;
    let x = Extruded { block, header };
    let cap = x.cap_length();
    let ring = x.ring_width();
    let net = Net { header };
    let z = extrusion_sizes(block, &net);
    let sides = net.quads();
    let caps = cap_count(header, cap);
    let t = plan_of(z.points, z.corners, sides + caps, ring);
    let shared = plain_shared(header, header.convex);
    let coord = &block[0..0];
    put_tables(&x, s, cap, shared, t, b.words, b.floats);
    let floats = &mut *b.floats;
    texture_where(&x, s, shared, t, floats, b.words);
    build(block, coord, shared, t, b)
}
