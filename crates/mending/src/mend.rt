// FORMAT 10.3, fix_zero_normals: a pass over the vertices; at the first normal that cannot be scaled, a pass over the triangles notes the first usable one of
// each vertex.
ghost use Rattle.std.specs.Prelude.{◌≡◌, true, [], ◌++◌, ◌+◌, ◌-◌, ◌*◌, ◌/◌, ◌^◌, ◌≤◌, ◌<◌, length, get_or, drop};
ghost use Rattle.std.specs.Float.{binary32};
ghost use Rattle.std.specs.Float.Ieee.{sub, lt, to_bits};
ghost use Rattle.lists.specs.Parts.{spliced};
ghost use Rattle.lists.specs.Named.{named_by};
ghost use Rattle.block.specs.Edition.{most};
ghost use Rattle.math.specs.Vector.{one_f, y_axis, vdot, vlen};
ghost use Rattle.math.specs.Order.{magnitude};
ghost use Rattle.mesh.specs.Words.{words3, floats, point_words};
ghost use Rattle.mesh.specs.Mend.{visible, vertex_spot, tri_normal, first_normal};
ghost use Rattle.mending.specs.Mend.{lent_frame, lent_keys, mended_words, triangle_normal, found, marked, marked_all, noted, Firsts, Served, Roomy, Mends, near_one};

use bits::Words3;
use block::VertexNumber;
use lists::{get, named_by, put, word_of};
use math::square_root::roots;
use math::{V3, Y_AXIS};
use mesh::{floats_of, put_words3, words_of};

// ---- the words of a vertex

// A read past the end is 0: so no three words need be there, as a pattern or a slice would ask. Not `polygon`'s `spot`, which is private there and gives
// a vector: `fix_zero_normals` wants the words of a normal, as it may keep them.
fn words_at(l: &[u32], v: VertexNumber) -> Words3
    requires { v.0 < 2 ^ 32 }
    ensures { result ≡ point_words l.now v.0 }
{
    let k = v.0 * 3;
    Words3 {
        x: get(l, k),
        y: get(l, k + 1),
        z: get(l, k + 2),
    }
}

fn put_words(out: &mut [u32], v: VertexNumber, w: Words3)
    requires { v.0 * 3 + 3 ≤ length out.old }
    ensures { out.new ≡ spliced out.old (v.0 * 3) (words3 w) }
{
    put_words3(out, v.0 * 3, w);
}

// ---- what is lent

// Where the vertices lie, `count` of them, and the triangles in threes. `count` stands beside the slices: they are lent, and may be longer than their vertices.
#[derive(Clone, Copy)]
struct Lent<'a> {
    positions: &'a [u32],
    indices: &'a [u32],
    count: usize,
    ghost few_vertices: { count ≤ most },
    ghost few_indices: { length indices.now ≤ 3 * most },
}

fn tri_normal(a: V3, b: V3, c: V3) -> Option<V3>
    ensures { result ≡ tri_normal a b c }
{
    math::normalize(math::cross(math::sub(b, a), math::sub(c, a)))
}

// ---- the first usable triangle of each vertex

// Triangle n is noted where none is. Its bound stays a clause down to `word_of` of lists: `n + 1 < 2^32` is of `n` alone.
fn mark(table: &mut [u32], v: VertexNumber, n: usize)
    requires { n + 1 < 2 ^ 32 }
    ensures { table.new ≡ marked table.old v.0 n }
{
    if named_by(get(table, v.0)).is_none() {
        put(table, v.0, word_of(n));
    }
}

impl<'a> Lent<'a> {
    // Where vertex `v` lies; a number beyond the last reads as vertex 0.
    fn spot_of(&self, v: VertexNumber) -> V3
        ensures { result ≡ vertex_spot (lent_frame self.now.positions.now) (lent_keys [] self.now.count) v.0 }
    {
        if v.0 < self.count {
            return floats_of(words_at(self.positions, v));
        }
        floats_of(words_at(self.positions, VertexNumber(0)))
    }

    // Corner `j` of triangle `n`.
    fn corner(&self, n: usize, j: usize) -> VertexNumber
        requires { (n < 2 ^ 32) × (j < 3) }
        ensures { result.0 ≡ get_or self.now.indices.now (n * 3 + j) 0 }
    {
        VertexNumber(get(self.indices, n * 3 + j) as usize)
    }

    fn triangle_normal(&self, n: usize) -> Option<V3>
        requires { n < 2 ^ 32 }
        ensures { result ≡ triangle_normal (lent_frame self.now.positions.now) (lent_keys [] self.now.count) self.now.indices.now n }
    {
        let a = self.spot_of(self.corner(n, 0));
        let b = self.spot_of(self.corner(n, 1));
        let c = self.spot_of(self.corner(n, 2));
        tri_normal(a, b, c)
    }

    fn mark_all(&self, n: usize, table: &mut [u32])
        requires { n + 1 < 2 ^ 32 }
        ensures { table.new ≡ marked_all self.now.indices.now table.old n }
    {
        mark(table, self.corner(n, 0), n);
        mark(table, self.corner(n, 1), n);
        mark(table, self.corner(n, 2), n);
    }

    fn note(&self, n: usize, table: &mut [u32])
        requires { n + 1 < 2 ^ 32 }
        ensures { table.new ≡ noted (lent_frame self.now.positions.now) (lent_keys [] self.now.count) self.now.indices.now table.old n }
    {
        if self.triangle_normal(n).is_some() {
            self.mark_all(n, table);
        }
    }

    fn first_normals(&self, table: &mut [u32])
        ensures { Firsts (lent_frame self.now.positions.now) (lent_keys [] self.now.count) self.now.indices.now table.new }
    {
        table.fill(0);
        // By number, not by chunks of three: `found_at` reads a triangle by the number that a word holds, and of that nothing says that it is there.
        for n in 0..self.indices.len() / 3 {
            self.note(n, table);
        }
    }

    // The normal that a word of the table stands for.
    fn found_at(&self, word: u32) -> V3
        ensures { result ≡ found (lent_frame self.now.positions.now) (lent_keys [] self.now.count) self.now.indices.now (named_by word) y_axis }
    {
        // No `and_then`: its closure has to say by a clause what `triangle_normal` asks of n (tried without), which is longer than this.
        let Some(n) = named_by(word) else {
            return Y_AXIS;
        };
        self.triangle_normal(n).unwrap_or(Y_AXIS)
    }

    // The table is made when the first normal that cannot be scaled is met. `made` is a flag, as in `mend_by_length`.
    fn make_table(&self, made: bool, table: &mut [u32])
        requires { Served made self.now.positions.now self.now.indices.now self.now.count table.old }
        ensures { Firsts (lent_frame self.now.positions.now) (lent_keys [] self.now.count) self.now.indices.now table.new }
    {
        if made {
            return;
        }
        self.first_normals(table);
    }

    // The normal of vertex v by its triangles. `made`, a flag as in `mend_by_length`: whether the table is made, which it is afterwards.
    fn replaced(&self, v: VertexNumber, made: bool, table: &mut [u32]) -> V3
        requires { (v.0 < length table.old) × Served made self.now.positions.now self.now.indices.now self.now.count table.old }
        ensures { (result ≡ first_normal (lent_frame self.now.positions.now) (lent_keys [] self.now.count) v.0 self.now.indices.now)
            × Served true self.now.positions.now self.now.indices.now self.now.count table.new }
    {
        self.make_table(made, table);
        self.found_at(get(table, v.0))
    }
}

// ---- one vertex

// The square of the length of the normal `w`.
fn square_of(w: Words3) -> f32
    ensures { result ≡ vdot (floats w) (floats w) }
{
    let n = floats_of(w);
    math::dot(n, n)
}

// Whether the square of a length is 1 but for some roundings, as that of a vector that was scaled is: a normal of that length is kept, whatever its root is.
#[tactic(auto, unfolding(crate::specs::Mend::near_one))]
fn is_near_one(square: f32) -> bool
    ensures { result ≡ near_one (to_bits binary32 square) }
{
    let b = math::bits_of(square);
    0x3f7f_ffc0 <= b && b < 0x3f80_0021
}

// Whether the length `l` is visibly off 1.
fn is_off(l: f32) -> bool
    ensures { result ≡ lt visible (magnitude (sub binary32 l one_f)) }
{
    1e-5 < math::abs(l - 1.0)
}

impl<'a> Lent<'a> {
    // The normal of vertex v, whose words are `w` and whose length is `l`. One that is kept is not written. `made`: whether the table is made; the result,
    // whether it is then. A flag, not an Option: the room for the table is lent and stays, so there is nothing that a `Some` would hold.
    fn mend_by_length(
        &self,
        v: VertexNumber,
        w: Words3,
        l: f32,
        made: bool,
        normals: &mut [u32],
        table: &mut [u32],
    ) -> bool
        requires { (v.0 < self.now.count) × Roomy self.now.count normals.old table.old × Served made self.now.positions.now self.now.indices.now self.now.count table.old × (w ≡ point_words normals.old v.0) × (l ≡ vlen (floats w)) }
        ensures { Mends self.now.positions.now self.now.indices.now self.now.count v.0 1 normals.old normals.new
            × Served result self.now.positions.now self.now.indices.now self.now.count table.new }
    {
        let Some(u) = math::unit_by(floats_of(w), l) else {
            let other = self.replaced(v, made, table);
            put_words(normals, v, words_of(other));
            return true;
        };
        if is_off(l) {
            put_words(normals, v, words_of(u));
        }
        made
    }

    // The normal of vertex v, with one root at most.
    fn mend_one(&self, v: VertexNumber, made: bool, normals: &mut [u32], table: &mut [u32]) -> bool
        requires { (v.0 < self.now.count) × Roomy self.now.count normals.old table.old × Served made self.now.positions.now self.now.indices.now self.now.count table.old }
        ensures { Mends self.now.positions.now self.now.indices.now self.now.count v.0 1 normals.old normals.new
            × Served result self.now.positions.now self.now.indices.now self.now.count table.new }
    {
        let w = words_at(normals, v);
        let square = square_of(w);
        if is_near_one(square) {
            return made;
        }
        self.mend_by_length(v, w, math::root(square), made, normals, table)
    }
}

// ---- all of them

impl<'a> Lent<'a> {
    // The normals of four vertices from v on. Their roots are taken together, and none where each is kept without one.
    fn mend_four(&self, v: usize, made: bool, normals: &mut [u32], table: &mut [u32]) -> bool
        requires { (v + 4 ≤ self.now.count) × Roomy self.now.count normals.old table.old × Served made self.now.positions.now self.now.indices.now self.now.count table.old }
        ensures { Mends self.now.positions.now self.now.indices.now self.now.count v 4 normals.old normals.new
            × Served result self.now.positions.now self.now.indices.now self.now.count table.new }
    {
        let i = VertexNumber(v);
        let j = VertexNumber(v + 1);
        let m = VertexNumber(v + 2);
        let n = VertexNumber(v + 3);
        let a = words_at(normals, i);
        let b = words_at(normals, j);
        let c = words_at(normals, m);
        let d = words_at(normals, n);
        let p = square_of(a);
        let q = square_of(b);
        let r = square_of(c);
        let s = square_of(d);
        if is_near_one(p) && is_near_one(q) && is_near_one(r) && is_near_one(s) {
            return made;
        }
        let l = roots(p, q, r, s);
        let made = self.mend_by_length(i, a, l.a, made, normals, table);
        let made = self.mend_by_length(j, b, l.b, made, normals, table);
        let made = self.mend_by_length(m, c, l.c, made, normals, table);
        self.mend_by_length(n, d, l.d, made, normals, table)
    }

    // The normals of the first vertices, in fours.
    fn mend_fours(&self, normals: &mut [u32], table: &mut [u32]) -> bool
        requires { Roomy self.now.count normals.old table.old }
        ensures { Mends self.now.positions.now self.now.indices.now self.now.count 0 (4 * (self.now.count / 4)) normals.old normals.new
            × Served result self.now.positions.now self.now.indices.now self.now.count table.new }
    {
        let mut made = false;
        for k in 0..self.count / 4 {
            made = self.mend_four(4 * k, made, normals, table);
        }
        made
    }

    // The normals of the vertices from v on, one by one.
    fn mend_from(&self, v: usize, made: bool, normals: &mut [u32], table: &mut [u32])
        requires { (v ≤ self.now.count) × Roomy self.now.count normals.old table.old × Served made self.now.positions.now self.now.indices.now self.now.count table.old }
        ensures { Mends self.now.positions.now self.now.indices.now self.now.count v (self.now.count - v) normals.old normals.new }
    {
        let mut made = made;
        for k in v..self.count {
            made = self.mend_one(VertexNumber(k), made, normals, table);
        }
    }
}

// The normals of `count` vertices, whose triangles are `indices` in threes. `table` is room to work in, a word for each vertex: 0, or one more than
// the number of the first triangle that has a usable normal and uses the vertex.
pub fn fix_zero_normals(
    positions: &[u32],
    indices: &[u32],
    count: usize,
    normals: &mut [u32],
    table: &mut [u32],
)
    requires { (count ≤ most) × (length indices.now ≤ 3 * most) × (count ≤ length table.old) × (3 * count ≤ length normals.old) }
    ensures { normals.new ≡ mended_words positions.now indices.now normals.old count ++ drop (3 * count) normals.old }
{
    let lent = Lent {
        positions,
        indices,
        count,
    };
    let made = lent.mend_fours(normals, table);
    lent.mend_from(4 * (count / 4), made, normals, table);
}
