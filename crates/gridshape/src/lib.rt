// FORMAT 8.3, elevation_grid: an accepted grid, from its block to the mesh in the lent slices.
#![tactic(auto)]

mod filling;
mod whole;

pub use whole::make_grid;
