// The mesh of a soup (FORMAT 10 to 12; PolyMesh::build, fix_zero_normals), and the kinds of shape (FORMAT 8).
#![tactic(auto)]

pub mod points;
pub mod texture;
pub mod words;

pub use points::point_at;
pub use texture::{Axis, AxisName, Fit, NOWHERE, Span};
pub use words::{floats_of, put_vector, put_words3, words_of};
