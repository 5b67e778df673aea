// The vertices made so far, in the output slices, and the search among them (FORMAT 11; PolyMesh::build, dedup).
#![tactic(auto)]

mod adding;
mod hash;
mod parts;
mod places;
mod search;

pub use adding::{count_after, vertex};
pub use places::{
    COLOUR_WORDS, Chains, KEY_WORDS, NORMAL_WORDS, TEXTURE_WORDS, VertexSlices, Widths,
};
