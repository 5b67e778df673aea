// FORMAT 17.5, 17.10: whether colours are made, and the refusals of a PointSet.
ghost use Rattle.std.specs.Prelude.{◌≡◌, cond, [], ◌∷◌, ◌*◌, ◌/◌, ◌≤◌, ltb};
ghost use Rattle.block.specs.declared.refusal.Refusal.TheVariants.{Corners, Buffer};
ghost use Rattle.block.specs.Edition.{edition1};
ghost use Rattle.block.specs.Refusal.{refused_as, row, first_of};
ghost use Rattle.pointset.specs.PointSet.{makes_colours};
ghost use Rattle.pointset.specs.Numbers.{is_short};

use crate::copies::Listed;
use block::{LIMIT, Refusal};

// Of a list of so many words.
fn full_colours(alpha: bool, words: usize) -> usize
    ensures { result ≡ words / cond alpha 4 3 }
{
    if alpha {
        return words / 4;
    }
    words / 3
}

// Where they are present and there are at least as many as points.
#[tactic(auto, unfolding(crate::specs::PointSet::makes_colours))]
pub fn makes_colours(points: &[u32], has_colors: bool, listed: Listed<'_>) -> bool
    ensures { result ≡ makes_colours points.now has_colors listed.entry.alpha listed.entry.words.now }
{
    has_colors && full_colours(listed.alpha, listed.words.len()) >= points.len() / 3
}

// The words of n colours, where they are made.
#[tactic(auto, unfolding(block::specs::Edition::edition1))]
fn colour_words(n: usize, made: bool) -> usize
    requires { n ≤ edition1.limit }
    ensures { result ≡ cond made (4 * n) 0 }
{
    if made {
        return 4 * n;
    }
    0
}

// 8. `made` is a bool: the list of colours is not read here, and the report says no more of it.
#[tactic(auto, unfolding(block::specs::Edition::edition1, crate::specs::Numbers::is_short))]
fn is_short(n: usize, made: bool, positions: &[u32], colours: &[u32], sources: &[u32]) -> bool
    requires { n ≤ edition1.limit }
    ensures { result ≡ is_short n made positions.now colours.now sources.now }
{
    positions.len() < 3 * n || colours.len() < colour_words(n, made) || sources.len() < n
}

// Of n points, with colours or without: 7, and then 8.
#[tactic(auto, unfolding(block::specs::Refusal::first_of, block::specs::Edition::edition1))]
pub fn refusal_of(
    n: usize,
    made: bool,
    positions: &[u32],
    colours: &[u32],
    sources: &[u32],
) -> Result<(), Refusal>
    ensures { refused_as result ≡ first_of (row Corners (ltb edition1.limit n) ∷ row Buffer (is_short n made positions.now colours.now sources.now) ∷ []) }
{
    if n > LIMIT {
        return Err(Refusal::Corners);
    }
    if is_short(n, made, positions, colours, sources) {
        return Err(Refusal::Buffer);
    }
    Ok(())
}
