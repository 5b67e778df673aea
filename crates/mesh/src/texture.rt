// How points become texture: the default of a face set (FORMAT 7.4, default_ifs_st), and the caps of an extrusion (8.4).
ghost use Rattle.std.specs.Prelude.{◌≡◌, ◌<◌};
ghost use Rattle.mesh.specs.Texture.{place_of, fitted_at};

use bits::Words2;

// The least and the greatest coordinate along an axis.
#[derive(Clone, Copy)]
pub struct Span {
    pub low: f32,
    pub high: f32,
}

// Before the first coordinate.
pub const NOWHERE: Span = Span {
    low: f32::INFINITY,
    high: f32::NEG_INFINITY,
};

// Which of the three coordinates of a point.
#[derive(Clone, Copy)]
pub enum AxisName {
    X,
    Y,
    Z,
}

impl AxisName {
    // Where it stands among the three.
    pub fn place(self) -> usize
        ensures { (result ≡ place_of self) × (result < 3) }
    {
        match self {
            AxisName::X => 0,
            AxisName::Y => 1,
            AxisName::Z => 2,
        }
    }
}

// An axis, its lowest coordinate and its extent.
#[derive(Clone, Copy)]
pub struct Axis {
    pub name: AxisName,
    pub low: f32,
    pub size: f32,
}

// How a point becomes texture: an axis for s and one for t, less its lowest coordinate, divided.
#[derive(Clone, Copy)]
pub struct Fit {
    pub s_axis: AxisName,
    pub t_axis: AxisName,
    pub s_low: f32,
    pub t_low: f32,
    pub by: f32,
}

impl Fit {
    // The texture of a point with the coordinates s and t along the two axes.
    pub fn texture_of(self, s: f32, t: f32) -> Words2
        ensures { result ≡ fitted_at self s t }
    {
        Words2 {
            s: math::bits_of((s - self.s_low) / self.by),
            t: math::bits_of((t - self.t_low) / self.by),
        }
    }
}
