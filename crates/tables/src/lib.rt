// Where the tables of a soup lie in the one working slice of words (FORMAT 4), and how they are read and filled.
#![tactic(auto)]

pub mod each;
pub mod layout;
mod points;
pub mod reading;
pub mod writing;

pub use each::put_each;
pub use layout::{Plan, plan_of};
pub use points::put_points;
pub use reading::{Stretch, Tables, points_of, wide};
pub use writing::{clear_floats, clear_words, fill, narrow};
