// FORMAT 3: row 8 of the table of refusals, and the whole table.
ghost use Rattle.std.specs.Prelude.{◌≡◌, ◌≤◌};
ghost use Rattle.block.specs.Edition.{most};
ghost use Rattle.block.specs.Header.{header_of};
ghost use Rattle.sizes.specs.Judged.{Judged};
ghost use Rattle.geometry.specs.Answer.{is_short, refusal};

use crate::answer::Lengths;
use block::{Header, Refusal};
use sizes::Sizes;

// Row 8. One slice after another: in one chain of || (tried) each goal of the proof holds every way to come to it.
#[tactic(auto, unfolding(crate::specs::Answer::is_short))]
fn is_short(z: Sizes, l: Lengths) -> bool
    requires { (z.points ≤ most) × (z.corners ≤ most) }
    ensures { result ≡ is_short (record { points = z.points; corners = z.corners; indices = z.indices }) l }
{
    let c = z.corners;
    let working = 8 * (c + z.points) + 8;
    if l.positions < 3 * c {
        return true;
    }
    if l.normals < 3 * c {
        return true;
    }
    if l.colours < 4 * c {
        return true;
    }
    if l.textures < 2 * c {
        return true;
    }
    if l.sources < c {
        return true;
    }
    if l.indices < z.indices {
        return true;
    }
    if l.words < working {
        return true;
    }
    l.floats < working
}

// All rows. The sizes are counted once, where the rows 1 to 6 and 9 let the block pass, and handed on. A match and not `?` (tried): what is answered in
// place of an earlier row's refusal is then held against `Judged` (edit buffer_before_corners), where with `?` a change that means the same is refused too.
pub fn verdict_for(block: &[u8], h: Header, l: Lengths) -> Result<Sizes, Refusal>
    requires { h ≡ header_of block.now }
    ensures { Judged block.now h (refusal block.now l) result }
{
    match sizes::verdict_to_7(block, h) {
        Err(no) => {
            return Err(no);
        }
        Ok(z) => {
            if is_short(z, l) {
                return Err(Refusal::Buffer);
            }
            return Ok(z);
        }
    }
}
