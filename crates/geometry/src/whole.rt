// One call: what the caller chose, a block and eight lent slices (FORMAT 3, 4, 5).
ghost use Rattle.std.specs.Prelude.{◌≡◌};
ghost use Rattle.block.specs.Header.{header_of};
ghost use Rattle.lent.specs.Buffers.{Same};
ghost use Rattle.sizes.specs.Known.{Counted};
ghost use Rattle.geometry.specs.Converted.{held, number_for, Converted};

use crate::answer::{Call, Lengths};
use crate::kinds::make_kind;
use crate::refusals::verdict_for;
use block::Header;
use lent::{Answer, Buffers, Report};
use sizes::{AcceptedBlock, Sizes};

// A call that nothing refuses, by the block's header and sizes.
fn make(call: Call, block: &[u8], h: Header, z: Sizes, b: &mut Buffers<'_>) -> Report
    requires { (h ≡ header_of block.now) × Counted block.now h z × (number_for block.now (held b.old) ≡ 0) }
    ensures same { Same b.old b.new }
    ensures converted { Converted call block.now (held b.old) (held b.new) (Ok result) }
{
    let settings = block::read_settings(block);
    let a = AcceptedBlock {
        block,
        header: h,
        settings,
    };
    let n = make_kind(&a, z, call.colour, b);
    let f = sizes::flags_of(h);
    // FORMAT 5's result has the five side by side: two are counted of what was made, three go by the header alone.
    Report {
        vertices: n.vertices,
        indices: n.indices,
        solid: f.solid,
        unlit: f.unlit,
        has_colors: f.has_colors,
    }
}

// The mesh of a block, into the lent slices; or a refusal, and every lent element as it was.
pub fn convert(call: Call, block: &[u8], b: &mut Buffers<'_>) -> Answer
    ensures same { Same b.old b.new }
    ensures converted { Converted call block.now (held b.old) (held b.new) result }
{
    let h = block::read_header(block);
    // By hand: this is the one place, and a From would be these lines and a clause.
    let l = Lengths {
        positions: b.positions.len(),
        normals: b.normals.len(),
        colours: b.colours.len(),
        textures: b.textures.len(),
        sources: b.sources.len(),
        indices: b.indices.len(),
        words: b.words.len(),
        floats: b.floats.len(),
    };
    let z = verdict_for(block, h, l)?;
    Ok(make(call, block, h, z, b))
}
