// The block of a shape (FORMAT 2, 3, 6 and 7): its header, lists and twelve words, what is refused of it, its runs, and what an attribute gives at a corner.
#![tactic(auto)]

pub mod crease;
pub mod edition;
pub mod extents;
pub mod header;
pub mod kind;
pub mod number;
pub mod refusal;
pub mod runs;
pub mod settings;
pub mod stream;
pub mod texture;
pub mod topology;
pub mod value;

pub use crease::{CreaseRule, crease_of};
pub use edition::{Edition, LIMIT, edition_in, edition_of, limit_of};
pub use extents::{Place, block_bytes, list_part, list_place};
pub use header::{COUNTS_AT, Header, read_header};
pub use kind::{Kind, is_indexed, is_lines};
pub use number::{CornerNumber, PointNumber, VertexNumber};
pub use refusal::{Refusal, refusal_of};
pub use runs::{
    Runs, Totals, ends_run, face_totals, is_kept, next_start, point_at, run_at, runs_in,
};
pub use settings::{Settings, finite_transform, read_settings};
pub use stream::{
    Attribute, Stream, chosen_list, color_stream, normal_stream, number_at, texture_stream,
};
pub use texture::{Pair, TexTransform, uv};
pub use topology::Topology;
pub use value::{ONE, Rgb, Rgba, Value, value_or, value4};
