// The whole answer of the program to an input, as a text (FORMAT 14).
#![tactic(auto)]

mod lending;
mod parts;
mod texts;

pub use lending::{Conversion, lend_and_convert};
pub use parts::parts_of;
pub use texts::{LONGEST, TEXT_ROOM, answer_text, block_text};
