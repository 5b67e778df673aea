// FORMAT 17.5: what is written for a PointSet. Words are the bits of f32, and are copied.
ghost use Rattle.std.specs.Prelude.{◌≡◌, map, ◌+◌, ◌*◌, ◌≤◌, ◌<◌, ◌^◌, length, take, IfSome, MatchOption};
ghost use Rattle.lists.specs.Lists.{flat};
ghost use Rattle.lists.specs.Loops.{tab};
ghost use Rattle.lists.specs.Parts.{spliced};
ghost use Rattle.block.specs.Value.{opaque_of};
ghost use Rattle.mesh.specs.Words.{words4, point_words};
ghost use Rattle.pointset.specs.PointSet.{colours_in, colour_at};

use block::ONE;
use lists::put_all;
use parts::put_words;
use tables::{narrow, put_each};

// The first n words. Not by the library's `copy_from_slice`, for which the archive for C would need `memmove` from outside.
pub fn copy_words(from: &[u32], to: &mut [u32], n: usize)
    requires { (n ≤ length from.now) × (n ≤ length to.old) }
    ensures { to.new ≡ spliced to.old 0 (take n from.now) }
{
    put_all(to, 0, &from[..n]);
}

// Source k is k.
pub fn put_sources(sources: &mut [u32], n: usize)
    requires { (n < 2 ^ 32) × (n ≤ length sources.old) }
    ensures { sources.new ≡ spliced sources.old 0 (tab (λ k. k) n 0) }
{
    put_each(sources, 0, n, narrow);
}

// Colour k, of three words, with alpha 1.
#[tactic(auto, unfolding(mesh::specs::Words::point_words))]
fn opaque(listed: &[u32], k: usize) -> [u32; 4]
    requires { (k < 2 ^ 32) × (k * 3 + 3 ≤ length listed.now) }
    ensures { result ≡ words4 (opaque_of (point_words listed.now k)) }
{
    let i = k * 3;
    [listed[i], listed[i + 1], listed[i + 2], ONE]
}

// The first n colours of three words.
fn put_opaques(listed: &[u32], colours: &mut [u32], n: usize)
    requires { (n < 2 ^ 32) × (n * 3 ≤ length listed.now) × (n * 4 ≤ length colours.old) }
    ensures { colours.new ≡ spliced colours.old 0 (flat (tab (λ k. words4 (opaque_of (point_words listed.now k))) n 0)) }
{
    put_words(
        colours,
        0,
        n,
        |k|
            requires { (k < 2 ^ 32) × (k * 3 + 3 ≤ length listed.now) }
            ensures { result ≡ words4 (opaque_of (point_words listed.exit.now k)) }
        { opaque(listed, k) },
    );
}

// Colours as they are listed: of four words where they have alpha, else of three. A bool, as the node has it: no caller chooses by it.
#[derive(Clone, Copy)]
pub struct Listed<'a> {
    pub words: &'a [u32],
    pub alpha: bool,
}

// The first n of those that are made, if any are.
pub fn put_colours(listed: Option<Listed<'_>>, colours: &mut [u32], n: usize)
    requires { (n < 2 ^ 32) × IfSome listed (λ l. (n ≤ colours_in l.alpha l.words.now) × (4 * n ≤ length colours.old)) }
    ensures { MatchOption listed.entry (colours.new ≡ colours.old)
        (λ l. colours.new ≡ spliced colours.old 0 (flat (map words4 (tab (colour_at l.alpha l.words.now) n 0)))) }
{
    if let Some(l) = listed {
        if l.alpha {
            copy_words(l.words, colours, 4 * n);
        } else {
            put_opaques(l.words, colours, n);
        }
    }
}
