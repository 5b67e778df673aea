// The normals of the corners of a soup, from its tables (FORMAT 10.1, 10.2; generate_normals).
#![tactic(auto)]

mod facing;
mod groups;
mod mirror;
mod outputs;
mod points;
mod source;
mod sums;
mod vectors;
mod whole;

pub use whole::generate;
