// The indices of all kept faces, face by face, from the tables of a soup (FORMAT 12.1; PolyMesh::build).
#![tactic(auto)]

mod indices;
mod naming;

pub use indices::all_faces;
