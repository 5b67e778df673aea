// What primitives are taken from (FORMAT 6.4).
use block::Topology;

// An index list of a set of so many points, or a stretch of it.
#[derive(Clone, Copy)]
pub struct Source<'a> {
    pub list: &'a [u8],
    pub points: u32,
    pub g: Topology,
}
