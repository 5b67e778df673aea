// The search among the vertices made (FORMAT 11).
ghost use Rattle.std.specs.Prelude.{◌≡◌, ◌+◌, ◌≤◌, ◌<◌, length};
ghost use Rattle.mesh.specs.Vertices.{same_key};
ghost use Rattle.block.specs.Edition.{most};
ghost use Rattle.vertices.specs.Places.{store_in, Roomy, Laid};
ghost use Rattle.vertices.specs.Hash.{bucket_of};
ghost use Rattle.vertices.specs.Search.{known_by, key_at, corner_key, place_of, bucket_at, Chained};

use crate::parts::same_row;
use crate::places::{
    Bucket, COLOUR_START, COLOUR_WORDS, Chains, CornerKey, NORMAL_WORDS, TEXTURE_START,
    TEXTURE_WORDS, VertexSlices, Widths,
};
use block::VertexNumber;
use lists::named_by;
use tables::wide;

// The vertex that a word of a chain names.
#[inline(always)]
#[tactic(auto, using(crate::proofs::ChainLaws::known_map))]
fn known_by(word: u32) -> Option<VertexNumber>
    ensures { result ≡ known_by word }
{
    named_by(word).map(VertexNumber)
}

impl VertexSlices<'_> {
    // Whether vertex i has the point and the words of a corner (VertexKey).
    fn same_vertex(&self, w: Widths, i: VertexNumber, key: &CornerKey<'_>) -> bool
        requires { Roomy w (store_in self.now) (i.0 + 1) }
        ensures { result ≡ same_key (corner_key w key.now.point.0 key.now.words.now) (key_at w (store_in self.now) i.0) }
    {
        let k = i.0;
        let l = key.words;
        key.point.0 == wide(self.sources[k])
            && same_row(l, 0, self.normals, NORMAL_WORDS, w.normal, k)
            && same_row(l, COLOUR_START, self.colours, COLOUR_WORDS, w.colour, k)
            && same_row(l, TEXTURE_START, self.textures, TEXTURE_WORDS, w.texture, k)
    }

    // The vertex, if there is one, among the first n that has the point and the words of a corner. Only the chain of the vertices in the key's bucket is
    // looked at: the last of them is in its head, the one before vertex i in the next of i.
    pub(crate) fn find(
        &self,
        w: Widths,
        n: VertexNumber,
        bucket: Bucket,
        key: &CornerKey<'_>,
        work: &[u32],
        t: Chains,
    ) -> Option<VertexNumber>
        requires { Roomy w (store_in self.now) n.0 × Laid t (length work.now) n.0 × Chained t (bucket_at w t (store_in self.now)) work.now n.0
            × (bucket.0 ≡ bucket_of t.buckets (corner_key w key.now.point.0 key.now.words.now)) × (bucket.0 < t.buckets) }
        ensures { result ≡ place_of w (store_in self.now) n.0 (corner_key w key.now.point.0 key.now.words.now) }
    {
        let mut x = known_by(work[t.heads + bucket.0]);
        // A while: the next vertex is where the chain leads, so no range counts it.
        while let Some(i) = x {
            if self.same_vertex(w, i, key) {
                return x;
            }
            x = known_by(work[t.nexts + i.0]);
        }
        None
    }
}
