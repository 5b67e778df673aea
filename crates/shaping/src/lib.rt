// What shapes of listed faces have in common, from their tables to the slices of their mesh (FORMAT 5, 7, 8).
#![tactic(auto)]

mod shared;

pub use shared::{listed_shared, plain_shared};
