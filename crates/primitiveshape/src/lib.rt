// FORMAT 8.5: an accepted triangle, fan, strip or quad set, from its block to the mesh in the lent slices.
#![tactic(auto)]

mod filling;
mod whole;

pub use whole::make_primitives;
