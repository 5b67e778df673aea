// From listed faces to what the vertices are made of: generated normals, and the face number of each corner (FORMAT 7.1, 10.2).
#![tactic(auto)]

mod attributes;
mod ready;

pub use attributes::{attributes_of, face_widths};
pub use ready::prepare;
