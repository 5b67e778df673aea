// FORMAT 8.1, indexed_face_set: an accepted face set, from its block to the mesh in the lent slices.
#![tactic(auto)]

mod filling;
mod listed;
mod whole;

pub use filling::texture_where;
pub use listed::SetBlock;
pub use whole::make_face_set;
