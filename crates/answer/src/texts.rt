// The text of the answer to an input, from the start of the buffer (FORMAT 14). The number returned is the length of the text.
ghost use Rattle.text.specs.Wrote.{Printed};
ghost use Rattle.answer.specs.Text.{block_text, answer_text};

use crate::lending::lend_and_convert;
use crate::parts::parts_in;
use text::{put_long, put_mesh, put_refusal};

// The longest input that is looked at.
pub const LONGEST: usize = 8192;

// Room for the text of every answer.
pub const TEXT_ROOM: usize = 41747;

// A block's: a refusal or a mesh.
pub fn block_text(block: &[u8], out: &mut [u8]) -> usize
    ensures { Printed out.old (block_text block.now) out.new result }
{
    let left = lend_and_convert(block);
    let answer = left.answer;
    match answer {
        Err(refusal) => put_refusal(refusal, out),
        Ok(report) => {
            let parts = parts_in(block);
            put_mesh(
                report,
                parts,
                &left.positions,
                &left.normals,
                &left.colours,
                &left.textures,
                &left.sources,
                &left.indices,
                out,
            )
        }
    }
}

// A longer input is told before anything is looked at.
pub fn answer_text(input: &[u8], out: &mut [u8]) -> usize
    ensures { Printed out.old (answer_text input.now) out.new result }
{
    if input.len() > LONGEST {
        return put_long(out);
    }
    block_text(input, out)
}
