// Sine and cosine of f32 angles from a table of a quarter turn (FORMAT 16), for terminals that have no maths library.
#![tactic(auto)]

mod angle;
pub mod table;
mod whole;

pub use table::entry;
pub use whole::{SinCos, sin_cos};
