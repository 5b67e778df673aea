// What a call answers (FORMAT 3, 5).
use block::Refusal;

// What a mesh has.
#[derive(Clone, Copy)]
pub struct Report {
    pub vertices: usize,
    pub indices: usize,
    pub solid: bool,
    pub unlit: bool,
    pub has_colors: bool,
}

// What is made, or why nothing is.
pub type Answer = Result<Report, Refusal>;
