// FORMAT 17.5, point_set.
#![tactic(auto)]

mod copies;
mod refusals;
mod whole;

pub use whole::point_set;
