// What the parts have in common (FORMAT 17; Builder, ring, cap and dim of geometry.rs): vertices and triangles as they are built, sizes, caps and refusals.
#![tactic(auto)]

mod builder;
mod cap;
mod marks;
mod ring;
mod round;
mod sizes;
mod turns;
mod vert;

pub use builder::Builder;
pub use cap::{Cap, MINUS_Y, cap_sizes};
pub use marks::{Marks, marks_of};
pub use ring::{Ring, cosine_at, float_at, ring_at, share, sine_at};
pub use round::{Round, round_of};
pub use sizes::{NO_PART, PartLengths, PartSizes, dim, held, part_refusal, part_report, sum_sizes};
pub use turns::put_words;
pub use vert::{GeomCtx, Vert, finite_ctx};
