// FORMAT 17.7, sphere.
#![tactic(auto)]

mod ball;
mod bands;
mod rows;
mod whole;

pub use whole::sphere;
