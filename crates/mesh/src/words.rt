// FORMAT 9.1: three words as a vector of f32, and a vector as three words. They stand here, once for all crates above: Rust lets no `From` of these
// types stand outside of `bits` and `math`, and neither of the two knows the other.
ghost use Rattle.std.specs.Prelude.{◌≡◌, ◌+◌, ◌≤◌, length};
ghost use Rattle.lists.specs.Parts.{spliced};
ghost use Rattle.mesh.specs.Words.{floats, bits, words3};

use bits::Words3;
use lists::put_all;
use math::V3;

pub fn floats_of(w: Words3) -> V3
    ensures { result ≡ floats w }
{
    V3 {
        x: math::of_bits(w.x),
        y: math::of_bits(w.y),
        z: math::of_bits(w.z),
    }
}

pub fn words_of(v: V3) -> Words3
    ensures { result ≡ bits v }
{
    Words3 {
        x: math::bits_of(v.x),
        y: math::bits_of(v.y),
        z: math::bits_of(v.z),
    }
}

// Three words, from place k on.
pub fn put_words3(words: &mut [u32], k: usize, w: Words3)
    requires { k + 3 ≤ length words.old }
    ensures { words.new ≡ spliced words.old k (words3 w) }
{
    put_all(words, k, &[w.x, w.y, w.z]);
}

// The words of v, from place k on.
pub fn put_vector(words: &mut [u32], k: usize, v: V3)
    requires { k + 3 ≤ length words.old }
    ensures { words.new ≡ spliced words.old k (words3 (bits v)) }
{
    put_words3(words, k, words_of(v));
}
