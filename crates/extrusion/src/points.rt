// FORMAT 8.4, extrusion (coords): the cross-section, scaled and turned, in the plane at each spine point.
ghost use Rattle.std.specs.Prelude.{◌≡◌, ◌+◌, ◌*◌, ◌≤◌, length};
ghost use Rattle.mesh.specs.Extrusion as spec;
ghost use Rattle.mesh.specs.Extrusion.{spine_count, section_count, scale_at, turn_at, row_words, extrusion_of, extrusion_points};
ghost use Rattle.lists.specs.Parts.{spliced};
ghost use Rattle.extrusion.specs.Rows.{axes_of, rows_by};

use crate::axes::{PlaneAxes, axes_by, pick_z};
use crate::frames::Spine;
use crate::reading::{Entries, Extruded};
use block::Pair;
use math::{NO_TURN, Quat, V3};

fn scale_at(scales: &Entries<Pair>, i: usize) -> Pair
    ensures { result ≡ scale_at scales.now i }
{
    scales.at_or(i, Pair { s: 1.0, t: 1.0 })
}

fn turn_at(turns: &Entries<Quat>, i: usize) -> Quat
    ensures { result ≡ turn_at turns.now i }
{
    turns.at_or(i, NO_TURN)
}

// A cross-section point, scaled and turned.
fn local(q: Quat, sc: Pair, p: Pair) -> V3
    ensures { result ≡ spec.local q sc p }
{
    math::quat_rotate(
        q,
        V3 {
            x: p.s * sc.s,
            y: 0.0,
            z: p.t * sc.t,
        },
    )
}

// The point with the coordinates l along axes at o.
fn placed(o: V3, f: PlaneAxes, l: V3) -> V3
    ensures { result ≡ spec.placed o (axes_of f) l }
{
    let x = f.x;
    let y = f.y;
    let z = f.z;
    math::add(
        o,
        math::add(
            math::add(math::scale(x, l.x), math::scale(y, l.y)),
            math::scale(z, l.z),
        ),
    )
}

// The points of one spine point o.
fn put_row(
    section: &Entries<Pair>,
    o: V3,
    f: PlaneAxes,
    q: Quat,
    sc: Pair,
    work: &mut [u32],
    k: usize,
)
    requires { k + 3 * length section.now ≤ length work.old }
    ensures { work.new ≡ spliced work.old k (row_words o (axes_of f) q sc section.now) }
{
    for (j, p) in section.iter().enumerate() {
        mesh::put_vector(work, k + j * 3, placed(o, f, local(q, sc, p)));
    }
}

// The points of all spine points, into work from place k. The Y axis is the last one seen, and begins with the first of all.
fn put_rows(
    spine: &Spine<'_>,
    section: &Entries<Pair>,
    scales: &Entries<Pair>,
    turns: &Entries<Quat>,
    work: &mut [u32],
    k: usize,
)
    requires { k + length spine.now.points * (3 * length section.now) ≤ length work.old }
    ensures { work.new ≡ spliced work.old k (rows_by spine.now.points section.now scales.now turns.now (length spine.now.points)) }
{
    let w = 3 * section.len();
    let first = spine.first_z();
    let y0 = spine.first_y();
    let mut y = y0;
    let mut prev = None;
    // By number: a point's axes are found from its neighbours too, and its turn and its scale stand in lists of their own, which may be shorter.
    for i in 0..spine.points.len() {
        y = spine.y_own(i).or(y);
        let z = pick_z(first, prev, spine.z_own(i));
        prev = Some(z);
        let f = axes_by(first, y0, y, z);
        put_row(
            section,
            spine.points.at(i),
            f,
            turn_at(turns, i),
            scale_at(scales, i),
            work,
            k + i * w,
        );
    }
}

impl<'a> Extruded<'a> {
    // The words of all points, into work from place `at`.
    pub fn put_points(&self, work: &mut [u32], at: usize)
        requires { (at + 3 * (spine_count self.now.header * section_count self.now.header) ≤ length work.old) }
        ensures { work.new ≡ spliced work.old at (extrusion_points (extrusion_of self.now.block.now)) }
    {
        put_rows(
            &self.spine(),
            &self.section(),
            &self.scales(),
            &self.turns(),
            work,
            at,
        );
    }
}
