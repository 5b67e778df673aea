// The vertices of all corners, one corner after another (FORMAT 11): the key of a corner from the block and the tables, and its vertex number.
#![tactic(auto)]

mod attributed;
mod attributes;
mod key;
mod laid;
mod whole;

pub use attributes::{Attributes, Given};
pub use laid::CornerTables;
pub use whole::all_vertices;
