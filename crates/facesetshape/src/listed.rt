// FORMAT 2.4: the block of whatever has the lists of a face set.
ghost use Rattle.facesetshape.specs.Shape.{Lists};

use block::{Header, Settings};

// The block with its coordIndex, header and settings, of the block's own lists.
#[derive(Clone, Copy)]
pub struct SetBlock<'a> {
    pub block: &'a [u8],
    pub coord: &'a [u8],
    pub header: Header,
    pub settings: Settings,
    ghost lists: { Lists block.now coord.now header },
}
