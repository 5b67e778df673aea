// FORMAT 17.8, cylinder.
#![tactic(auto)]

mod side;
mod whole;

pub use whole::cylinder;
