// The lines of vertices, triangles and lines (FORMAT 14).
ghost use Rattle.std.specs.Prelude.{◌+◌, ◌*◌, ◌^◌, ◌≤◌, ◌<◌};
ghost use Rattle.lists.specs.Loops.{tab};
ghost use Rattle.lists.specs.Lists.{flat};
ghost use Rattle.text.specs.Wrote.{Writes};
ghost use Rattle.text.specs.Lines.{place_text, made_text, vertex_line, element_line, element_lines};

use crate::writer::Writer;
use block::VertexNumber;
use lists::get;

// Which attributes stand on a vertex line, and whether the indices are lines in twos or triangles in threes.
#[derive(Clone, Copy)]
pub struct Parts {
    pub normals: bool,
    pub colours: bool,
    pub texture: bool,
    pub lines: bool,
}

// What the vertex lines are read from.
#[derive(Clone, Copy)]
pub(crate) struct VertexSlices<'a> {
    pub sources: &'a [u32],
    pub positions: &'a [u32],
    pub normals: &'a [u32],
    pub colours: &'a [u32],
    pub textures: &'a [u32],
}

// A vertex, and what its line is read from.
#[derive(Clone, Copy)]
struct VertexLine<'a> {
    parts: Parts,
    number: VertexNumber,
    slices: VertexSlices<'a>,
    ghost low: { number.0 < 2 ^ 32 },
}

impl Writer<'_> {
    // The start of a vertex line: the source and the position.
    fn put_place(&mut self, v: &VertexLine<'_>)
        requires { self.old.at + 45 ≤ 2 ^ 50 }
        ensures { Writes self.old (place_text v.now.slices.sources.now v.now.slices.positions.now v.now.number.0) 45 self.new }
    {
        let k = v.number.0;
        self.put_byte(b'v');
        self.put_field(false, get(v.slices.sources, k) as usize);
        self.put_fields(true, v.slices.positions, 3 * k, 3);
    }

    // What was made for a vertex.
    fn put_made(&mut self, v: &VertexLine<'_>)
        requires { self.old.at + 105 ≤ 2 ^ 50 }
        ensures { Writes self.old (made_text v.now.parts v.now.slices.normals.now v.now.slices.colours.now v.now.slices.textures.now v.now.number.0) 105 self.new }
    {
        let k = v.number.0;
        self.put_attribute(v.parts.normals, b'n', v.slices.normals, 3 * k, 3);
        self.put_attribute(v.parts.colours, b'c', v.slices.colours, 4 * k, 4);
        self.put_attribute(v.parts.texture, b'u', v.slices.textures, 2 * k, 2);
    }

    fn put_vertex(&mut self, v: &VertexLine<'_>)
        requires { self.old.at + 151 ≤ 2 ^ 50 }
        ensures { Writes self.old (vertex_line v.now.parts v.now.slices.sources.now v.now.slices.positions.now v.now.slices.normals.now v.now.slices.colours.now v.now.slices.textures.now v.now.number.0) 151 self.new }
    {
        self.put_place(v);
        self.put_made(v);
        self.put_byte(b'\n');
    }

    // The lines of n vertices.
    pub(crate) fn put_vertices(&mut self, parts: Parts, n: usize, slices: VertexSlices<'_>)
        requires { (self.old.at + 151 * n ≤ 2 ^ 50) × (n < 2 ^ 32) }
        ensures { Writes self.old (flat (tab (vertex_line parts slices.entry.sources.now slices.entry.positions.now slices.entry.normals.now slices.entry.colours.now slices.entry.textures.now) n 0)) (151 * n) self.new }
    {
        for i in 0..n {
            let v = VertexLine {
                parts,
                number: VertexNumber(i),
                slices,
            };
            self.put_vertex(&v);
        }
    }

    // The line of triangle or line i: a letter and m vertex numbers.
    fn put_element(&mut self, letter: u8, m: usize, indices: &[u32], i: usize)
        requires { (self.old.at + 35 ≤ 2 ^ 50) × (m ≤ 3) × (i < 2 ^ 32) }
        ensures { Writes self.old (element_line letter m indices.now i) 35 self.new }
    {
        self.put_byte(letter);
        self.put_fields(false, indices, m * i, m);
        self.put_byte(b'\n');
    }

    // The lines of n triangles or lines.
    fn put_elements(&mut self, letter: u8, m: usize, indices: &[u32], n: usize)
        requires { (self.old.at + 35 * n ≤ 2 ^ 50) × (m ≤ 3) × (n < 2 ^ 32) }
        ensures { Writes self.old (flat (tab (element_line letter m indices.now) n 0)) (35 * n) self.new }
    {
        for i in 0..n {
            self.put_element(letter, m, indices, i);
        }
    }

    // The lines of n indices. `lines` is a value of `Parts`, which the definition takes too; letter and width are chosen by it here alone.
    pub(crate) fn put_indices(&mut self, lines: bool, n: usize, indices: &[u32])
        requires { (self.old.at + 35 * n ≤ 2 ^ 50) × (n < 2 ^ 32) }
        ensures { Writes self.old (element_lines lines n indices.now) (35 * n) self.new }
    {
        if lines {
            self.put_elements(b'l', 2, indices, n / 2);
        } else {
            self.put_elements(b't', 3, indices, n / 3);
        }
    }
}
