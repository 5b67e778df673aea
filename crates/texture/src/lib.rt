// FORMAT 7.3, 7.4: the default texture of a face set, the texture of a corner, and the table of the corners' textures.
#![tactic(auto)]

mod corner;
mod extents;
mod filling;

pub use corner::{NO_TEXTURE, Source};
pub use extents::{default_at, divisor_of, fit_of, widen};
pub use filling::put2;
