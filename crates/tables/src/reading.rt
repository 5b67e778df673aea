// Tables read by place.
ghost use Rattle.std.specs.Prelude.{◌≡◌, ◌+◌, ◌*◌, ◌≤◌, ◌<◌, length};
ghost use Rattle.lists.specs.Parts.{seg};
ghost use Rattle.mesh.specs.Soup as spec;
ghost use Rattle.tables.specs.Layout.{Room};
ghost use Rattle.tables.specs.Soups.{gather_in, owner_in, start_in, points_in, Sound, Ends};

use crate::layout::Plan;
use block::{CornerNumber, PointNumber};

// The first corner of a kept face, and the one after its last.
#[derive(Clone, Copy)]
pub struct Stretch {
    pub from: CornerNumber,
    pub to: CornerNumber,
}

// A word as a place: kept, since its contract says once that the cast loses nothing.
pub fn wide(x: u32) -> usize
    ensures { result ≡ x }
{
    x as usize
}

// The number by which corners at a point are gathered (FORMAT 10.2): the last of a ring bears the number of its first.
fn gathered(ring: usize, p: PointNumber) -> PointNumber
    ensures { result.0 ≡ spec.gathered ring p.0 }
{
    if ring == 0 {
        return p;
    }
    let last = ring - 1;
    if p.0 % ring == last {
        return PointNumber(p.0 - last);
    }
    p
}

// The n words from place a on.
#[tactic(auto, using(lists::proofs::Keep::part_seg))]
fn part(work: &[u32], a: usize, n: usize) -> &[u32]
    requires { a + n ≤ length work.now }
    ensures are { result.now ≡ seg work.now a n }
    ensures size { length result.now ≡ n }
{
    &work[a..a + n]
}

// The words of the points, three a point. A function beside the method of `Tables`: what reads texture knows of no more room than this.
#[tactic(auto, unfolding(crate::specs::Soups::points_in))]
pub fn points_of<'a>(work: &'a [u32], t: &Plan) -> &'a [u32]
    requires { t.now.points + 3 * t.now.spots ≤ length work.now }
    ensures are { result.now ≡ points_in work.now t.now }
    ensures size { length result.now ≡ 3 * t.now.spots }
{
    part(work, t.points, 3 * t.spots)
}

// The words of the tables, with where each table lies in them. That they hold a soup (`Sound`) stays a clause: `gather_of` and `owner_of` ask for less, and a
// second type over this one would have the one method `stretch_of`; most of what asks for `Sound` writes the words too.
#[derive(Clone, Copy)]
pub struct Tables<'a> {
    pub work: &'a [u32],
    pub plan: &'a Plan,
    ghost room: { Room (length work.now) plan.now },
}

impl<'a> Tables<'a> {
    // The words of the points.
    pub fn points(&self) -> &'a [u32]
        ensures { result.now ≡ points_in self.now.work.now self.now.plan.now }
    {
        points_of(self.work, self.plan)
    }

    // The points of the n corners from a on.
    pub fn corners_of(&self, a: CornerNumber, n: usize) -> &'a [u32]
        requires { a.0 + n ≤ self.now.plan.now.count }
        ensures are { result.now ≡ seg self.now.work.now (self.now.plan.now.corners + a.0) n }
        ensures size { length result.now ≡ n }
    {
        part(self.work, self.plan.corners + a.0, n)
    }

    // The vertex numbers of the n corners from a on (FORMAT 11). Not one with `corners_of`: each says in its contract what its table holds.
    pub fn names_of(&self, a: CornerNumber, n: usize) -> &'a [u32]
        requires { a.0 + n ≤ self.now.plan.now.count }
        ensures are { result.now ≡ seg self.now.work.now (self.now.plan.now.named + a.0) n }
        ensures size { length result.now ≡ n }
    {
        part(self.work, self.plan.named + a.0, n)
    }

    // The number that a corner is gathered by for normals (FORMAT 10.2).
    #[tactic(auto, unfolding(crate::specs::Soups::gather_in, crate::specs::Soups::point_in))]
    pub fn gather_of(&self, c: CornerNumber) -> PointNumber
        requires { c.0 < self.now.plan.now.count }
        ensures { result.0 ≡ gather_in self.now.work.now self.now.plan.now c.0 }
    {
        let t = self.plan;
        gathered(t.ring, PointNumber(wide(self.work[t.corners + c.0])))
    }

    // At the number of faces, the number of corners.
    #[tactic(auto, unfolding(crate::specs::Soups::start_in))]
    fn start_of(&self, face: usize) -> CornerNumber
        requires { face ≤ self.now.plan.now.faces }
        ensures { result.0 ≡ start_in self.now.work.now self.now.plan.now face }
    {
        CornerNumber(wide(self.work[self.plan.starts + face]))
    }

    // The corners of a kept face.
    pub fn stretch_of(&self, face: usize) -> Stretch
        requires { Sound self.now.work.now self.now.plan.now × (face < self.now.plan.now.faces) }
        ensures { Ends self.now.work.now self.now.plan.now face result }
    {
        let from = self.start_of(face);
        let to = self.start_of(face + 1);
        Stretch { from, to }
    }

    // The face of a corner, among the kept ones.
    #[tactic(auto, unfolding(crate::specs::Soups::owner_in))]
    pub fn owner_of(&self, c: CornerNumber) -> usize
        requires { c.0 < self.now.plan.now.count }
        ensures { result ≡ owner_in self.now.work.now self.now.plan.now c.0 }
    {
        wide(self.work[self.plan.owners + c.0])
    }
}
