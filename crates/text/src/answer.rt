// The whole text of an answer (FORMAT 14), from the start of the buffer.
ghost use Rattle.std.specs.Prelude.{ℕ, ◌+◌, ◌^◌, ◌≤◌, ◌<◌, ◌≡◌};
ghost use Rattle.text.specs.Wrote.{Writes, Printed};
ghost use Rattle.text.specs.Answer.{counts_text, flags_text, head_line, mesh_text, refusal_text, long_text};

use crate::lines::{Parts, VertexSlices};
use crate::writer::Writer;
use lent::Report;

impl Writer<'_> {
    fn put_counts(&mut self, head: Report)
        requires { self.old.at + 26 ≤ 2 ^ 50 }
        ensures { Writes self.old (counts_text head) 26 self.new }
    {
        self.put_bytes(b"mesh");
        self.put_field(false, head.vertices);
        self.put_field(false, head.indices);
    }

    fn put_flags(&mut self, head: Report)
        requires { self.old.at + 34 ≤ 2 ^ 50 }
        ensures { Writes self.old (flags_text head) 34 self.new }
    {
        self.put_field(false, usize::from(head.solid));
        self.put_field(false, usize::from(head.unlit));
        self.put_field(false, usize::from(head.has_colors));
        self.put_byte(b'\n');
    }

    fn put_head(&mut self, head: Report)
        requires { self.old.at + 60 ≤ 2 ^ 50 }
        ensures { Writes self.old (head_line head) 60 self.new }
    {
        self.put_counts(head);
        self.put_flags(head);
    }
}

// The text of a mesh. The slices one by one: each of the two callers holds them as arrays of its own, and would make a struct for this call alone. That a
// count fits a word stays a clause, here and in lines: a struct for it would hold the one number.
pub fn put_mesh(
    head: Report,
    parts: Parts,
    positions: &[u32],
    normals: &[u32],
    colours: &[u32],
    textures: &[u32],
    sources: &[u32],
    indices: &[u32],
    out: &mut [u8],
) -> usize
    requires { (head.vertices < 2 ^ 32) × (head.indices < 2 ^ 32) }
    ensures { Printed out.old
        (mesh_text head parts (record { sources = sources.now; positions = positions.now; normals = normals.now; colours = colours.now; textures = textures.now; indices = indices.now }))
        out.new result }
{
    let s = VertexSlices {
        sources,
        positions,
        normals,
        colours,
        textures,
    };
    let mut w = Writer { out, at: 0 };
    w.put_head(head);
    w.put_vertices(parts, head.vertices, s);
    w.put_indices(parts.lines, head.indices, indices);
    w.at
}

// The text of a refusal: of any that has a number, or of a number itself.
pub fn put_refusal<R: Into<u32>>(refusal: R, out: &mut [u8]) -> usize
    ensures { (n : ℕ) × R.converts refusal n × Printed out.old (refusal_text n) out.new result }
{
    let number: u32 = refusal.into();
    let mut w = Writer { out, at: 0 };
    w.put_bytes(b"no");
    w.put_field(false, number as usize);
    w.put_byte(b'\n');
    w.at
}

// The text for an input that is too long.
pub fn put_long(out: &mut [u8]) -> usize
    ensures { Printed out.old long_text out.new result }
{
    let mut w = Writer { out, at: 0 };
    w.put_bytes(b"long\n");
    w.at
}
