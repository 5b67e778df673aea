// The eight lists of a block: how wide their entries are, where they lie and how long the block is (FORMAT 2.4, 2.5).
ghost use Rattle.std.specs.Prelude.{◌≡◌, ◌*◌, ◌^◌, ◌≤◌, ◌<◌, take, drop};
ghost use Rattle.block.specs.Extents.{color_width, widths_by, ahead, words_in, word_count, place_of, list_bytes};

use crate::edition::edition_of;
use crate::header::Header;
use crate::kind::Kind;

// Where a list lies, in bytes.
#[derive(Clone, Copy)]
pub struct Place {
    pub at: usize,
    pub len: usize,
}

impl Place {
    // The bytes that lie there.
    pub(crate) fn part(self, block: &[u8]) -> &[u8]
        ensures { result.now ≡ take self.len (drop self.at block.now) }
    {
        bits::part(block, self.at, self.len)
    }
}

fn color_width(alpha: bool) -> u8
    ensures { result ≡ color_width alpha }
{
    if alpha { 4 } else { 3 }
}

// The words of an entry of each list. Lists go by their numbers, and by no enum: FORMAT 2.4 numbers them, and a number is another list in another kind.
fn list_widths(kind: Kind, alpha: bool) -> [u8; 8]
    ensures { result ≡ widths_by kind alpha }
{
    let c = color_width(alpha);
    match kind {
        Kind::FaceSet | Kind::LineSet | Kind::Primitives(_) => [3, 1, c, 1, 3, 1, 2, 1],
        Kind::Grid => [0, 0, c, 1, 3, 0, 2, 0],
        Kind::Extrusion => [3, 2, 2, 5, 0, 0, 0, 0],
    }
}

// The words before the lists: those of the header, and twelve.
fn words_ahead(h: Header) -> usize
    ensures { (result ≡ ahead h) × (result < 2 ^ 40) }
{
    let e = edition_of(h.edition);
    e.header_words as usize + 12
}

fn list_words(width: u8, count: u32) -> usize
    ensures { (result ≡ width * count) × (result < 2 ^ 40) }
{
    (width as usize) * (count as usize)
}

// No `sum`: its clause asks that the whole fits, which the loop shows turn by turn.
// The words of the lists before list `k`. Two arrays, and no array of pairs: the widths are the kind's and the counts the block's, and `zip` pairs them here.
fn words_before(w: [u8; 8], n: [u32; 8], k: usize) -> usize
    requires { k ≤ 8 }
    ensures { (result ≡ words_in (take k w) n) × (result < 2 ^ 44) }
{
    let mut t: usize = 0;
    for (width, count) in w[..k].iter().zip(&n) {
        t += list_words(*width, *count);
    }
    t
}

// How many bytes a block with this header has.
pub fn block_bytes(h: Header) -> usize
    ensures { result ≡ 4 * word_count h }
{
    let n = h.counts;
    let kind = h.kind;
    let w = list_widths(kind, h.alpha);
    4 * (words_ahead(h) + words_before(w, n, 8))
}

// Where list `k` lies. There is none from 8 on: no bytes, at the block's end.
pub fn list_place(h: Header, k: usize) -> Place
    ensures { result ≡ place_of h k }
{
    let n = h.counts;
    let kind = h.kind;
    let w = list_widths(kind, h.alpha);
    if k < 8 {
        return Place {
            at: 4 * (words_ahead(h) + words_before(w, n, k)),
            len: 4 * list_words(w[k], n[k]),
        };
    }
    Place {
        at: 4 * (words_ahead(h) + words_before(w, n, 8)),
        len: 0,
    }
}

// The bytes of list `k`.
pub fn list_part(block: &[u8], h: Header, k: usize) -> &[u8]
    ensures { result.now ≡ list_bytes block.now h k }
{
    list_place(h, k).part(block)
}
