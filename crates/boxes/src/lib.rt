// FORMAT 17.6, box_prim.
#![tactic(auto)]

mod faces;
mod tris;
mod verts;
mod whole;

pub use whole::box_prim;
