// FORMAT 8.4, extrusion: an accepted extrusion, from its block to the mesh in the lent slices.
#![tactic(auto)]

mod filling;
mod whole;

pub use whole::make_extrusion;
