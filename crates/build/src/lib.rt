// The mesh from the tables of a soup (FORMAT 5, 10.3, 11, 12; PolyMesh::build and then fix_zero_normals).
#![tactic(auto)]

mod shared;
mod whole;

pub use shared::Shared;
pub use whole::build;
