// The text of an answer (FORMAT 14), into a lent buffer. What the buffer has no room for is not written, and the number returned is the length of the
// whole text.
#![tactic(auto)]

mod answer;
mod digits;
mod fields;
mod lines;
mod writer;

pub use answer::{put_long, put_mesh, put_refusal};
pub use lines::Parts;
pub use writer::Writer;
