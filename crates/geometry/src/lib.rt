// The conversion of a block (FORMAT 3, 4, 5).
#![tactic(auto)]

mod answer;
mod kinds;
mod refusals;
mod whole;

pub use answer::{Call, GREY, Lengths, WHITE};
pub use whole::convert;
