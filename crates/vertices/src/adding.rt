// One vertex more, and the vertex of a corner (FORMAT 11).
ghost use Rattle.std.specs.Prelude.{◌≡◌, ◌+◌, ◌≤◌, ◌<◌, length};
ghost use Rattle.vertices.specs.Places.{store_in, SameSlices, Laid, Room};
ghost use Rattle.block.specs.Edition.{most};
ghost use Rattle.vertices.specs.Search.{corner_key};
ghost use Rattle.vertices.specs.Adding.{linked, Appended, Ready, Vertexed, count_after};

use crate::parts::put_row;
use crate::places::{
    Bucket, COLOUR_START, COLOUR_WORDS, Chains, CornerKey, NORMAL_WORDS, TEXTURE_START,
    TEXTURE_WORDS, VertexSlices, Widths,
};
use block::{PointNumber, VertexNumber};
use lists::word_of;
use tables::narrow;

// Vertex n is the last of the chain of a bucket.
#[tactic(auto, unfolding(crate::specs::Adding::linked))]
pub fn link(work: &mut [u32], t: Chains, n: VertexNumber, bucket: Bucket)
    requires { Laid t (length work.old) (n.0 + 1) × (bucket.0 < t.buckets) × (n.0 < most) }
    ensures { work.new ≡ linked t work.old n.0 bucket.0 }
{
    let head = t.heads + bucket.0;
    let next = t.nexts + n.0;
    work[next] = work[head];
    work[head] = word_of(n.0);
}

// Vertex n is made: of the point and the words of a corner, in a bucket.
pub fn append(
    slices: &mut VertexSlices<'_>,
    work: &mut [u32],
    w: Widths,
    t: Chains,
    n: VertexNumber,
    bucket: Bucket,
    key: &CornerKey<'_>,
)
    requires { Room w t (store_in slices.old) work.old (n.0 + 1) × (key.now.point.0 < t.spots) × (bucket.0 < t.buckets) }
    ensures same { SameSlices slices.old slices.new }
    ensures appended { Appended w t n.0 key.now.point.0 bucket.0 key.now.words.now (store_in slices.old) work.old (store_in slices.new) work.new }
{
    let i = n.0;
    let at = t.points + 3 * key.point.0;
    put_row(slices.positions, 3, 3, i, work, at);
    put_row(slices.normals, NORMAL_WORDS, w.normal, i, key.words, 0);
    put_row(
        slices.colours,
        COLOUR_WORDS,
        w.colour,
        i,
        key.words,
        COLOUR_START,
    );
    put_row(
        slices.textures,
        TEXTURE_WORDS,
        w.texture,
        i,
        key.words,
        TEXTURE_START,
    );
    slices.sources[i] = narrow(key.point.0);
    link(work, t, n, bucket);
}

// The number of the vertex of a corner: the one made before with its point and words, or a new one, the n-th (PolyMesh::build, or_insert_with).
pub fn vertex(
    slices: &mut VertexSlices<'_>,
    work: &mut [u32],
    w: Widths,
    t: Chains,
    n: VertexNumber,
    point: PointNumber,
    key: &[u32],
) -> VertexNumber
    requires { Ready w t (store_in slices.old) work.old n.0 point.0 key.now }
    ensures same { SameSlices slices.old slices.new }
    ensures vertexed { Vertexed w t n.0 (corner_key w point.0 key.now) (store_in slices.old) work.old (store_in slices.new) work.new result.0 }
{
    let asked = CornerKey { point, words: key };
    let bucket = asked.bucket_of(w, t.buckets);
    if let Some(i) = slices.find(w, n, bucket, &asked, work, t) {
        return i;
    }
    append(slices, work, w, t, n, bucket, &asked);
    n
}

// How many vertices there are, once there were n and a corner's vertex got number r. A number, and no flag beside it: a new vertex is number n, and no other
// is.
#[tactic(auto, unfolding(crate::specs::Adding::count_after))]
pub fn count_after(n: VertexNumber, r: VertexNumber) -> VertexNumber
    requires { n.0 < most }
    ensures { result.0 ≡ count_after n.0 r.0 }
{
    if r.0 == n.0 {
        return VertexNumber(n.0 + 1);
    }
    n
}
