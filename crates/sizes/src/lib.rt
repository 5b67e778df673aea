// FORMAT 3, 4: P, C and N of a block, and the refusals that they and the shape decide.
#![tactic(auto)]

mod accepted;
mod flags;
mod kinds;
mod net;
mod refusals;

pub use accepted::AcceptedBlock;
pub use flags::{Flags, flags_of};
pub use kinds::{Sizes, extrusion_sizes, grid_sizes, sizes_of};
pub use net::Net;
pub use refusals::{is_no_shape, verdict_to_7};
