// What is refused of a block (FORMAT 3): the table's answers, and its rows 1 to 5 and 9.
ghost use Rattle.std.specs.Prelude.{◌≡◌, not, suc};
ghost use Rattle.lists.specs.Lists.{all_below};
ghost use Rattle.block.specs.Refusal.{is_by_point, is_other_attributes, block_rows, first_of, number_of, refused_as};

use crate::edition::{HEADER_WORDS, is_known, limit_of};
use crate::extents::block_bytes;
use crate::header::Header;
use crate::kind::is_primitives;

#[derive(Clone, Copy)]
pub enum Refusal {
    Stub,
    Edition,
    ZeroBits,
    ListLimit,
    Length,
    NoShape,
    Corners,
    Buffer,
    Attributes,
    Pairs,
}

// The table's number of a refusal.
impl From<Refusal> for u32 {
    ghost from_gives = { λ refusal n. n ≡ number_of refusal };

    fn from(refusal: Refusal) -> u32 {
        match refusal {
            Refusal::Stub => 1,
            Refusal::Edition => 2,
            Refusal::ZeroBits => 3,
            Refusal::ListLimit => 4,
            Refusal::Length => 5,
            Refusal::NoShape => 6,
            Refusal::Corners => 7,
            Refusal::Buffer => 8,
            Refusal::Attributes => 9,
            Refusal::Pairs => 10,
        }
    }
}

// The bytes of the header of edition 1: no block is shorter.
const HEADER_BYTES: usize = 4 * HEADER_WORDS as usize;

fn over_limit(n: [u32; 8], limit: u32) -> bool
    ensures { result ≡ not (all_below (suc limit) n) }
{
    n.iter().any(|count| limit < *count)
}

// Whether each attribute is read at the point's own number: per vertex, and without an index list of its own.
fn is_by_point(h: Header) -> bool
    ensures { result ≡ is_by_point h }
{
    let n = h.counts;
    h.color_per_vertex && h.normal_per_vertex && n[3] == 0 && n[5] == 0 && n[7] == 0
}

// Row 9.
fn is_other_attributes(h: Header) -> bool
    ensures { result ≡ is_other_attributes h }
{
    is_primitives(h.kind) && !is_by_point(h)
}

// The first of the rows 1 to 5 and 9 that holds.
pub fn refusal_of(block: &[u8], h: Header) -> Result<(), Refusal>
    ensures { refused_as result ≡ first_of (block_rows block.now h) }
{
    if block.len() < HEADER_BYTES {
        return Err(Refusal::Stub);
    }
    if !is_known(h.edition) {
        return Err(Refusal::Edition);
    }
    if h.zeros != 0 {
        return Err(Refusal::ZeroBits);
    }
    let n = h.counts;
    if over_limit(n, limit_of(h.edition)) {
        return Err(Refusal::ListLimit);
    }
    if block.len() != block_bytes(h) {
        return Err(Refusal::Length);
    }
    if is_other_attributes(h) {
        return Err(Refusal::Attributes);
    }
    Ok(())
}
