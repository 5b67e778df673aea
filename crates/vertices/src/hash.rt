// The bucket of a corner's key: vertices with one key are in one bucket, so the search looks at no other.
ghost use Rattle.std.specs.Prelude.{◌≡◌, ◌+◌, ◌*◌, ◌^◌, ◌≤◌, ◌<◌, length, get_or};
ghost use Rattle.lists.specs.Parts.{seg};
ghost use Rattle.block.specs.Edition.{most};
ghost use Rattle.vertices.specs.Places.{colour_start, texture_start};
ghost use Rattle.vertices.specs.Hash.{normal_sum, colour_sum, texture_sum, spread_of, bucket_of};
ghost use Rattle.vertices.specs.Search.{two, three, four, corner_key};

use crate::places::{Bucket, COLOUR_START, CornerKey, TEXTURE_START, Widths};
use tables::wide;

// Word k of the n of a key from a place on; 0 where it is not made.
fn word_where(key: &[u32], at: usize, n: usize, k: usize) -> usize
    requires { at + k < length key.now }
    ensures { (result ≡ get_or (seg key.now at n) k 0) × (result < 2 ^ 32) }
{
    if k < n {
        return wide(key[at + k]);
    }
    0
}

// Both halves of a sum together, and a product that carries what differs into the high bits.
#[tactic(auto, unfolding(crate::specs::Hash::spread_of))]
fn spread(sum: usize) -> usize
    ensures { (result ≡ spread_of sum) × (result < 2 ^ 32) }
{
    let half = (sum % 0x1_0000_0000) ^ (sum / 0x1_0000_0000);
    half * 0xb529_7a4d % 0x1_0000_0000
}

impl<'a> CornerKey<'a> {
    // The words of a normal, each times its weight. No product waits for another.
    // Not one with the two below: over a list of weights it would be a loop with one sum, each of whose products waits for the one before.
    #[tactic(auto, unfolding(crate::specs::Hash::normal_sum))]
    fn normal_sum(&self, n: usize) -> usize
        ensures { (result ≡ normal_sum (three (seg self.now.words.now 0 n))) × (result < 3 * 2 ^ 60) }
    {
        let x = word_where(self.words, 0, n, 0);
        let y = word_where(self.words, 0, n, 1);
        let z = word_where(self.words, 0, n, 2);
        x * 0xb52_97a5 + y * 0x85e_bca7 + z * 0xc2b_2ae3
    }

    #[tactic(auto, unfolding(crate::specs::Hash::colour_sum))]
    fn colour_sum(&self, n: usize) -> usize
        ensures { (result ≡ colour_sum (four (seg self.now.words.now colour_start n))) × (result < 4 * 2 ^ 60) }
    {
        let r = word_where(self.words, COLOUR_START, n, 0);
        let g = word_where(self.words, COLOUR_START, n, 1);
        let b = word_where(self.words, COLOUR_START, n, 2);
        let a = word_where(self.words, COLOUR_START, n, 3);
        r * 0xd6e_8feb + g * 0xa13_6aaf + b * 0xe2d_0b4d + a * 0x8f1_bbcd
    }

    #[tactic(auto, unfolding(crate::specs::Hash::texture_sum))]
    fn texture_sum(&self, n: usize) -> usize
        ensures { (result ≡ texture_sum (two (seg self.now.words.now texture_start n))) × (result < 2 * 2 ^ 60) }
    {
        let s = word_where(self.words, TEXTURE_START, n, 0);
        let t = word_where(self.words, TEXTURE_START, n, 1);
        s * 0xca6_2c1d + t * 0x94d_049b
    }

    // The bucket of the key, of so many buckets.
    pub fn bucket_of(&self, w: Widths, buckets: usize) -> Bucket
        requires { (self.now.point.0 ≤ most) × ((0 < buckets) × (buckets ≤ 4 * most)) }
        ensures { (result.0 ≡ bucket_of buckets (corner_key w self.now.point.0 self.now.words.now)) × (result.0 < buckets) }
    {
        let normal = self.normal_sum(w.normal);
        let colour = self.colour_sum(w.colour);
        let texture = self.texture_sum(w.texture);
        let sum = self.point.0 * 0x9e3_779b + normal + colour + texture;
        let hash = spread(sum);
        Bucket(hash * buckets / 0x1_0000_0000)
    }
}
