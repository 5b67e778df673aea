// The arithmetic of the conversion (FORMAT 9; src/convert/math.rs): vectors, square root, quaternions, minimum and maximum.
// Every operation is f32, in the order of the Rust source. Bits are read and written by `word`.
#![tactic(auto)]

pub mod order;
pub mod quaternion;
pub mod square_root;
pub mod vector;
pub mod word;

pub use order::{abs, max, min};
pub use quaternion::{NO_TURN, Quat, axis_turn, quat_between, quat_rotate};
pub use square_root::{Four, root};
pub use vector::{
    V3, X_AXIS, Y_AXIS, Z_AXIS, add, cross, dot, len, normalize, normalize_four, scale, sub,
    unit_by,
};
pub use word::{bits_of, is_finite, of_bits, whole_float};
