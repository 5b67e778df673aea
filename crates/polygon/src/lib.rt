// The triangles of one face: its facing normal, its points in a plane, and its triangles.
#![tactic(auto)]

mod ears;
mod face;
mod facing;
mod four;
mod memo;
mod plane;
mod points;

pub use face::{is_fan, triangulate};
pub use facing::newell;
pub use plane::{handed_of, project};
