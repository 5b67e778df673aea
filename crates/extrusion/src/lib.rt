// The extrusion (FORMAT 8.4; extrusion, extrusion_frames, arc_params). Its lists stay in the block's bytes.
#![tactic(auto)]

mod arcs;
mod axes;
mod caps;
mod faces;
mod frames;
mod listing;
mod points;
mod reading;
mod uv;

pub use faces::cap_count;
pub use listing::list_faces;
pub use reading::{Extruded, section_count, spine_count};
pub use uv::Textured;
