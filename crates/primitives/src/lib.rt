// The primitives of a triangle, fan, strip or quad set, as they lie in its index list (FORMAT 6.4).
#![tactic(auto)]

mod places;
mod source;
mod stretches;
mod totals;

pub use places::{count_in, place_of, width_of};
pub use source::Source;
pub use stretches::{Stretches, stretch_at, stretches_in};
