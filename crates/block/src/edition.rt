// What an edition fixes of a block (FORMAT 2.2, 2.5, 3).
ghost use Rattle.std.specs.Prelude.{◌≡◌};
ghost use Rattle.block.specs.Edition.{edition_of, edition_in, is_known, limit_of};

// The words of the header, its counts, the bits of each, the zero bits after them, and the limit of the refusals 4 and 7.
#[derive(Clone, Copy)]
pub struct Edition {
    pub header_words: u32,
    pub counts: u32,
    pub count_bits: u32,
    pub zero_bits: u32,
    pub limit: u32,
}

// The limit of edition 1, for whoever lends slices for its largest block.
pub const LIMIT: usize = 8192;

// The words of the header of edition 1.
pub(crate) const HEADER_WORDS: u32 = 5;

// A block of an edition that is not known is read as one of edition 1, and refused.
pub fn edition_of(_number: u32) -> Edition
    ensures { result ≡ edition_of _number }
{
    Edition {
        header_words: HEADER_WORDS,
        counts: 8,
        count_bits: 14,
        zero_bits: 28,
        limit: LIMIT as u32,
    }
}

// The limit of the refusals 4 and 7.
pub fn limit_of(number: u32) -> u32
    ensures { result ≡ limit_of number }
{
    edition_of(number).limit
}

pub fn is_known(number: u32) -> bool
    ensures { result ≡ is_known number }
{
    number == 1
}

// The edition of a block.
pub fn edition_in(block: &[u8]) -> Edition
    ensures { result ≡ edition_in block.now }
{
    edition_of(bits::field_at(block, 0, 4))
}
