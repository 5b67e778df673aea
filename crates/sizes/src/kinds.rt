// FORMAT 4: P, C and N of each kind.
ghost use Rattle.std.specs.Prelude.{◌≡◌, ◌-◌, ◌*◌, ◌≤◌, ◌<◌, ◌^◌, get_or};
ghost use Rattle.extrusion.specs.Given.{Given};
ghost use Rattle.mesh.specs.Sizes as spec;
ghost use Rattle.tables.specs.Layout.{most};
ghost use Rattle.sizes.specs.Known.{Known, set_faces, primitive_faces, Are, Counted};

use crate::net::Net;
use block::{Header, Kind, Topology, Totals};
use extrusion::Extruded;
use primitives::Source;
use tables::wide;

// Of what a list names, P, C and N are counted once a call, and handed on; and with them the faces, by which the tables of listed faces are planned: 0 where
// none are listed, and no Option, as face sets and primitives alone read it, and there 0 is a number too.
#[derive(Clone, Copy)]
pub struct Sizes {
    pub points: usize,
    pub corners: usize,
    pub indices: usize,
    pub faces: usize,
}

// Of listed faces, by what their runs have together.
fn run_sizes(points: usize, t: Totals) -> Sizes
    requires { 3 * t.triangles < 2 ^ 64 }
    ensures { (result.points ≡ points) × (result.corners ≡ t.corners) × (result.indices ≡ 3 * t.triangles) × (result.faces ≡ t.faces) }
{
    Sizes {
        points,
        corners: t.corners,
        indices: 3 * t.triangles,
        faces: t.faces,
    }
}

fn face_set_sizes(block: &[u8], h: Header) -> Sizes
    ensures { Are (spec.face_set_sizes block.now h) (set_faces block.now h) result }
{
    let n = h.counts;
    run_sizes(
        wide(n[0]),
        block::face_totals(block::list_part(block, h, 1), n[0]),
    )
}

fn primitive_sizes(block: &[u8], h: Header, g: Topology) -> Sizes
    requires { get_or h.counts 0 0 ≤ most }
    ensures { Are (spec.primitive_sizes g block.now h) (primitive_faces g block.now h) result }
{
    let n = h.counts;
    let list = block::list_part(block, h, 1);
    let x = Source {
        list,
        points: n[0],
        g,
    };
    run_sizes(wide(n[0]), x.totals())
}

fn line_set_sizes(block: &[u8], h: Header) -> Sizes
    ensures { Are (spec.line_set_sizes block.now h) 0 result }
{
    let n = h.counts;
    let t = lines::line_totals(block::list_part(block, h, 1), n[0]);
    Sizes {
        points: wide(n[0]),
        corners: t.corners,
        indices: 2 * t.lines,
        faces: 0,
    }
}

pub fn grid_sizes(net: &Net) -> Sizes
    ensures { Are (spec.grid_sizes net.now.header) 0 result }
{
    let quads = net.quads();
    Sizes {
        points: net.points(),
        corners: 4 * quads,
        indices: 6 * quads,
        faces: 0,
    }
}

// The indices of a cap of k corners.
fn cap_indices(k: usize) -> usize
    requires { k ≤ most }
    ensures { (result ≡ 3 * (k - 2)) × (result ≤ 3 * most) }
{
    3 * k.saturating_sub(2)
}

pub fn extrusion_sizes(block: &[u8], net: &Net) -> Sizes
    requires { Given block.now net.now.header }
    ensures { Are (spec.extrusion_sizes block.now net.now.header) 0 result }
{
    let header = net.header;
    let k = Extruded { block, header }.cap_length();
    let n = extrusion::cap_count(header, k);
    let quads = net.quads();
    Sizes {
        points: net.points(),
        corners: 4 * quads + n * k,
        indices: 6 * quads + n * cap_indices(k),
        faces: 0,
    }
}

// FORMAT 2.2: by kind.
pub fn sizes_of(block: &[u8], h: Header) -> Sizes
    requires { Known block.now h }
    ensures { Counted block.now h result }
{
    let kind = h.kind;
    match kind {
        Kind::FaceSet => face_set_sizes(block, h),
        Kind::LineSet => line_set_sizes(block, h),
        Kind::Grid => {
            let grid = Net { header: h };
            grid_sizes(&grid)
        }
        Kind::Extrusion => {
            let sides = Net { header: h };
            extrusion_sizes(block, &sides)
        }
        Kind::Primitives(g) => primitive_sizes(block, h, g),
    }
}
