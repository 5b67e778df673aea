// FORMAT 4, 8: how many points, corners and kept faces there are, how many points make a ring, and where each table starts. Tables hold kept faces only.
// They lie in the one slice of words that the caller lends, as there is no heap.
ghost use Rattle.std.specs.Prelude.{◌≡◌, ◌≤◌};
ghost use Rattle.block.specs.Edition.{most};
ghost use Rattle.tables.specs.Layout.{plan_of};

// What writes the tables takes their words, `&mut`, beside the plan; what reads them is a method of `Tables`. A struct for the writing would have to say in
// each function that its words are still the same reference, and its plan the same plan.
// `ring` is 0 for none, and no Option: 0 is the one width by which no remainder is taken, so what gathers the corners would need the same test for a `Some`
// of 0, or each plan a fact that there is none.
#[derive(Clone, Copy)]
pub struct Plan {
    pub spots: usize,
    pub count: usize,
    pub faces: usize,
    pub ring: usize,
    pub points: usize,
    pub corners: usize,
    pub starts: usize,
    pub named: usize,
    pub places: usize,
    pub numbers: usize,
    pub owners: usize,
    pub rows: usize,
    pub heads: usize,
    pub nexts: usize,
    pub sums: usize,
}

// The tables one after another, in the order in which they are written.
#[tactic(auto, unfolding(crate::specs::Layout::plan_of))]
pub fn plan_of(spots: usize, count: usize, faces: usize, ring: usize) -> Plan
    requires { (spots ≤ most) × (count ≤ most) × (faces ≤ most) }
    ensures { result ≡ plan_of spots count faces ring }
{
    let corners = 3 * spots;
    let starts = corners + count;
    let named = starts + faces + 1;
    let places = named + count;
    let numbers = places + count;
    let owners = numbers + faces;
    let rows = owners + count;
    let heads = rows + 7 * faces;
    let nexts = heads + spots;
    Plan {
        spots,
        count,
        faces,
        ring,
        points: 0,
        corners,
        starts,
        named,
        places,
        numbers,
        owners,
        rows,
        heads,
        nexts,
        sums: nexts + count,
    }
}
