// What is made in the lent slices, and what a call answers (FORMAT 3, 4, 5).
#![tactic(auto)]

mod answer;
mod buffers;

pub use answer::{Answer, Report};
pub use buffers::Buffers;

// How many vertices and how many indices.
#[derive(Clone, Copy)]
pub struct Counts {
    pub vertices: usize,
    pub indices: usize,
}
