// FORMAT 8.2, indexed_line_set: an accepted line set, from its block to the mesh in the lent slices.
#![tactic(auto)]

mod filling;
mod whole;

pub use whole::make_line_set;
