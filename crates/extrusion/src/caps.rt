// FORMAT 8.4, extrusion (cap_len, lo, span): the corners of a cap, and how the cross-section fits its texture.
ghost use Rattle.std.specs.Prelude.{◌≡◌};
ghost use Rattle.mesh.specs.Extrusion.{section_of, extrusion_of, ring_of, cap_length, cap_fit};

use crate::reading::{Entries, Extruded};
use block::Pair;
use mesh::{AxisName, Fit, NOWHERE};
use texture::{divisor_of, widen};

fn section_fit(section: &Entries<Pair>) -> Fit
    ensures { result ≡ cap_fit section.now }
{
    let mut a = NOWHERE;
    let mut b = NOWHERE;
    for p in section.iter() {
        a = widen(a, p.s);
        b = widen(b, p.t);
    }
    Fit {
        s_axis: AxisName::X,
        t_axis: AxisName::Y,
        s_low: a.low,
        t_low: b.low,
        by: divisor_of(math::max(a.high - a.low, b.high - b.low)),
    }
}

impl<'a> Extruded<'a> {
    // How many corners a cap has: a closing point is left out.
    pub fn cap_length(&self) -> usize
        ensures { result ≡ cap_length (section_of self.now.block.now self.now.header) }
    {
        let section = self.section();
        let m = section.len();
        if section.closes() {
            return m - 1;
        }
        m
    }

    // How many points make a ring, whose last counts as its first when faces are gathered; 0 where the cross-section is open (`tables::Plan`).
    pub fn ring_width(&self) -> usize
        ensures { result ≡ ring_of (section_of self.now.block.now self.now.header) }
    {
        let section = self.section();
        if section.closes() {
            return section.len();
        }
        0
    }

    // How the whole cross-section fits the texture of a cap.
    pub fn cap_fit(&self) -> Fit
        ensures { result ≡ cap_fit (extrusion_of self.now.block.now).section }
    {
        section_fit(&self.section())
    }
}
