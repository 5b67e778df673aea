// FORMAT 3: the rows 6 and 7 of the table of refusals, and all rows up to 7.
ghost use Rattle.std.specs.Prelude.{◌≡◌, ◌++◌};
ghost use Rattle.block.specs.Header.{header_of};
ghost use Rattle.block.specs.Refusal.{Taken, block_rows, first_of};
ghost use Rattle.mesh.specs.Sizes.{is_no_grid, is_no_extrusion, is_no_shape, shape_rows};
ghost use Rattle.sizes.specs.Judged.{Judged};

use crate::kinds::{Sizes, sizes_of};
use crate::net::product;
use block::{Header, Kind, Refusal, limit_of};
use tables::wide;

// The two tests of the sides stand here and in `is_no_extrusion`: a function of them would be one line for two, and its name a third for what the definitions
// have two of.
fn is_no_grid(h: Header) -> bool
    ensures { result ≡ is_no_grid h }
{
    let n = h.counts;
    n[0] < 2 || n[1] < 2 || wide(n[3]) < product(n[0], n[1])
}

fn is_no_extrusion(h: Header) -> bool
    ensures { result ≡ is_no_extrusion h }
{
    let n = h.counts;
    n[0] < 2 || n[1] < 2
}

// Row 6.
pub fn is_no_shape(h: Header) -> bool
    ensures { result ≡ is_no_shape h }
{
    let kind = h.kind;
    match kind {
        Kind::Grid => is_no_grid(h),
        Kind::Extrusion => is_no_extrusion(h),
        Kind::FaceSet | Kind::LineSet | Kind::Primitives(_) => false,
    }
}

// The rows 6 and 7, of a block that the rows 1 to 5 and 9 let pass: the first that holds, or the sizes, which are counted for them.
fn shape_verdict(block: &[u8], h: Header) -> Result<Sizes, Refusal>
    requires { (h ≡ header_of block.now) × Taken block.now h }
    ensures { Judged block.now h (first_of (shape_rows block.now h)) result }
{
    if is_no_shape(h) {
        return Err(Refusal::NoShape);
    }
    let s = sizes_of(block, h);
    let limit = wide(limit_of(h.edition));
    if limit < s.points || limit < s.corners {
        return Err(Refusal::Corners);
    }
    Ok(s)
}

// All rows up to 7. Block and header are two arguments, and no struct with the fact that the header is the block's: it would spare a clause here, at
// `shape_verdict` and at geometry's `verdict_for` and `make`, and all but `verdict_for` would take it apart again for functions that ask nothing of the
// two, or more than that (`Known`, or what `AcceptedBlock` says).
pub fn verdict_to_7(block: &[u8], h: Header) -> Result<Sizes, Refusal>
    requires { h ≡ header_of block.now }
    ensures { Judged block.now h (first_of (block_rows block.now h ++ shape_rows block.now h)) result }
{
    block::refusal_of(block, h)?;
    shape_verdict(block, h)
}
