// The tables of a triangle, fan, strip or quad set (FORMAT 6.4): its kept primitives, each a face.
#![tactic(auto)]

mod listing;

pub use listing::list_primitives;
