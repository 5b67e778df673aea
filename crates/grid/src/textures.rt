// FORMAT 7.3, 7.4, elevation_grid (st, t_out): the textures of a grid's corners.
ghost use Rattle.std.specs.Prelude.{◌≡◌, ℕ, [], ◌+◌, ◌-◌, ◌*◌, ◌≤◌, ◌<◌, length};
ghost use Rattle.math.specs.Whole.{Exact};
ghost use Rattle.mesh.specs.Grid.{x_dimension, z_dimension, part_word};
ghost use Rattle.mesh.specs.Sizes.{quad_count};
ghost use Rattle.mesh.specs.Words.{words2};
ghost use Rattle.lists.specs.Parts.{spliced};
ghost use Rattle.texture.specs.Textured.{texture_words};
ghost use Rattle.grid.specs.Sides.{Sides};
ghost use Rattle.grid.specs.Listings.{corner_point, quad_row};
ghost use Rattle.grid.specs.Textures.{grid_texture, texture_at};

use crate::sided::GridBlock;
use bits::Words2;
use lists::put_all;
use texture::Source;

// The bits of i of n - 1 steps. Not the share of parts: grid does not stand on parts, and the quotient is one line.
fn part_word(i: usize, n: usize) -> u32
    requires { Exact i × (2 ≤ n) × Exact (n - 1) }
    ensures { result ≡ part_word i n }
{
    math::bits_of(math::whole_float(i) / math::whole_float(n - 1))
}

// The textures of the two points of a column: in a row of points, and in the next.
#[derive(Clone, Copy)]
struct Edge {
    near: Words2,
    far: Words2,
}

// The quads of row j: what their texture is read from, how many points a row has, and the default t of the row of points before the quads and of the one
// behind.
#[derive(Clone, Copy)]
struct Row<'a> {
    source: Source<'a>,
    xd: usize,
    j: usize,
    near_t: u32,
    far_t: u32,
    ghost sides: { Sides source.header },
    ghost plain: { source.coord.now ≡ [] },
    ghost within: { j + 1 < z_dimension source.header },
    ghost width: { xd ≡ x_dimension source.header },
    ghost before: { near_t ≡ part_word j (z_dimension source.header) },
    ghost behind: { far_t ≡ part_word (j + 1) (z_dimension source.header) },
}

impl<'a> Row<'a> {
    // At the two points of column i. A point's number serves as its place.
    fn edge(&self, i: usize) -> Edge
        requires { i < x_dimension self.now.source.header }
        ensures near { result.near ≡ texture_at self.now.source.block.now self.now.source.header self.now.source.settings i self.now.j }
        ensures far { result.far ≡ texture_at self.now.source.block.now self.now.source.header self.now.source.settings i (self.now.j + 1) }
    {
        let xd = self.xd;
        let s = part_word(i, xd);
        let p = self.j * xd + i;
        let near = Words2 { s, t: self.near_t };
        let far = Words2 { s, t: self.far_t };
        Edge {
            near: self.source.corner_texture(p, near),
            far: self.source.corner_texture(p + xd, far),
        }
    }

    // Of all its corners, from place k on. Two quads beside each other share an edge, which is made once.
    fn put(&self, work: &mut [u32], k: usize)
        requires { k + (x_dimension self.now.source.header - 1) * 8 ≤ length work.old }
        ensures { work.new ≡ spliced work.old k
            (quad_row (λ (p : ℕ). words2 (grid_texture self.now.source.block.now self.now.source.header self.now.source.settings p)) (x_dimension self.now.source.header) self.now.j) }
    {
        let mut left = self.edge(0);
        for i in 0..self.xd - 1 {
            let right = self.edge(i + 1);
            let a = left.near;
            let b = left.far;
            let c = right.far;
            let d = right.near;
            put_all(work, k + i * 8, &[a.s, a.t, b.s, b.t, c.s, c.t, d.s, d.t]);
            left = right;
        }
    }
}

impl<'a> GridBlock<'a> {
    // The textures of all corners, from place `textures` on. There is no coordIndex, and the corners' points are known without their table.
    pub fn put_textures(&self, work: &mut [u32], textures: usize)
        requires { textures + 2 * (4 * quad_count self.now.header) ≤ length work.old }
        ensures { work.new ≡ spliced work.old textures
            (texture_words (λ (c : ℕ). grid_texture self.now.block.now self.now.header self.now.settings (corner_point (x_dimension self.now.header) c)) (4 * quad_count self.now.header)) }
    {
        let xd = self.x_dimension();
        let zd = self.z_dimension();
        // Made here, and not held by GridBlock: points and faces ask for no coordIndex, and each clause of theirs would name the block through it.
        let source = Source::of(self.block, &self.block[0..0], self.header, self.settings);
        let w = (xd - 1) * 8;
        for j in 0..zd - 1 {
            let row = Row {
                source,
                xd,
                j,
                near_t: part_word(j, zd),
                far_t: part_word(j + 1, zd),
            };
            row.put(work, textures + j * w);
        }
    }
}
