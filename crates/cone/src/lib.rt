// FORMAT 17.9, cone.
#![tactic(auto)]

mod lengths;
mod side;
mod whole;

pub use whole::cone;
