// Where the tables of the corners stand in the working slice while vertices are made (FORMAT 4).
ghost use Rattle.std.specs.Prelude.{◌≡◌, ◌≤◌, ◌^◌};
ghost use Rattle.tables.specs.Layout.{most};
ghost use Rattle.corners.specs.Laid.{tables_of};

use tables::Plan;

// Of each of `count` corners: its point, its vertex number, its place, its face's number, and its two words of texture. Then the chains of vertices by bucket.
// All lie in the words that the caller lends, as there is no heap. What writes them takes them, `&mut`, beside these tables, for the reason at `tables::Plan`.
#[derive(Clone, Copy)]
pub struct CornerTables {
    pub count: usize,
    pub points: usize,
    pub spots: usize,
    pub corners: usize,
    pub named: usize,
    pub places: usize,
    pub numbers: usize,
    pub textures: usize,
    pub buckets: usize,
    pub heads: usize,
    pub nexts: usize,
}

impl CornerTables {
    // Those before the face numbers are where the plan has them; the face numbers stand where the owners stood, and the others one after another behind them.
    // There is a bucket for each three corners and two for each point: the words that are lent (FORMAT 4) have room for that many, however many faces there
    // are.
    #[tactic(auto, unfolding(crate::specs::Laid::tables_of))]
    pub fn of_plan(t: Plan) -> CornerTables
        requires { (t.count ≤ most) × (t.spots ≤ most) × (t.owners ≤ 2 ^ 32) }
        ensures { result ≡ tables_of t }
    {
        let textures = t.owners + t.count;
        let buckets = t.count / 3 + 2 * t.spots + 1;
        let heads = textures + 2 * t.count;
        CornerTables {
            count: t.count,
            points: t.points,
            spots: t.spots,
            corners: t.corners,
            named: t.named,
            places: t.places,
            numbers: t.owners,
            textures,
            buckets,
            heads,
            nexts: heads + buckets,
        }
    }
}
