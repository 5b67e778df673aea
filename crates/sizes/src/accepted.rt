// FORMAT 3: a block that the rows of the table up to 7 let pass, with its header and its settings.
ghost use Rattle.lent.specs.Lent.{Accepted};

use block::{Header, Settings};

// Sizes and colour stand beside it: a grid and an extrusion take no sizes, and an extrusion no colour; a struct over this one would serve three functions and
// be taken apart for the others. Grid's `GridBlock` has the same three fields and asks for the sides alone.
#[derive(Clone, Copy)]
pub struct AcceptedBlock<'a> {
    pub block: &'a [u8],
    pub header: Header,
    pub settings: Settings,
    ghost accepted: { Accepted block.now header settings },
}
