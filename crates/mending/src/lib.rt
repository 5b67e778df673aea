// Normals that cannot be scaled are mended, and others scaled where they are visibly off length 1 (FORMAT 10.3; geometry.rs, fix_zero_normals).
#![tactic(auto)]

mod mend;

pub use mend::fix_zero_normals;
