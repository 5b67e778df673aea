// FORMAT 19: up to 64 paths against the triangles of a mesh, each triangle read once.
#![tactic(auto)]

mod answer;
mod intersect;
mod pass;
mod rays;
mod refusal;
mod triangles;
mod whole;

pub use answer::{PathsAnswer, PathsRefusal, number_of};
pub use whole::test_paths;
