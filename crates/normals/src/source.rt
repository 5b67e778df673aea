// FORMAT 10.2, generate_normals: what a corner's normal is read from.
ghost use Rattle.std.specs.Prelude.{◌≡◌, map, ℕ, ◌<◌, ◌≤◌};
ghost use Rattle.math.specs.Vector.{v3, zero_f, y_axis, unit_of};
ghost use Rattle.lists.specs.Loops.{All};
ghost use Rattle.mesh.specs.Normals.{sum_all, or_else};
ghost use Rattle.tables.specs.Soups.{gather_in, owner_in};
ghost use Rattle.lists.specs.Counts.{below};
ghost use Rattle.normals.specs.Group.{gathers_in};
ghost use Rattle.normals.specs.Rows.{normal_in, hit_of, hits_at, Ready};

use crate::vectors::{load, load_unit};
use block::{CornerNumber, PointNumber};
use math::{V3, Y_AXIS};
use tables::{Tables, wide};

// The tables of a soup, once owners, rows and faces by number are made. That a corner, a face or a number is one of these tables stays a clause: a type for
// it would hold the tables too, and be made anew at each turn of a loop.
#[derive(Clone, Copy)]
pub struct Source<'a> {
    pub tables: Tables<'a>,
    ghost ready: { Ready tables.work.now tables.plan.now },
}

impl<'a> Source<'a> {
    // How many faces stand before those of number p; before the number after the last, all of them.
    fn before(&self, p: PointNumber) -> usize
        requires { p.0 ≤ self.now.tables.plan.now.spots }
        ensures { result ≡ below p.0 (gathers_in self.now.tables.work.now self.now.tables.plan.now) }
    {
        let t = self.tables.plan;
        if p.0 < t.spots {
            return wide(self.tables.work[t.heads + p.0]);
        }
        t.count
    }

    // The faces at number p, once for each use.
    #[tactic(auto, using(crate::proofs::Walks::ends_fit))]
    pub fn faces_at(&self, p: PointNumber) -> &'a [u32]
        requires { p.0 < self.now.tables.plan.now.spots }
        ensures low { All (λ (g : ℕ). g < self.now.tables.plan.now.faces) result.now }
        ensures hits { map (hit_of self.now.tables.work.now self.now.tables.plan.now) result.now ≡ hits_at self.now.tables.work.now self.now.tables.plan.now p.0 }
    {
        let faces = &self.tables.work[self.tables.plan.nexts..];
        let from = self.before(p);
        let to = self.before(PointNumber(p.0 + 1));
        &faces[from..to]
    }

    // The facing normal of face g.
    #[tactic(auto, unfolding(crate::specs::Rows::normal_in))]
    pub fn normal_of(&self, g: usize) -> V3
        requires { g < self.now.tables.plan.now.faces }
        ensures { result ≡ normal_in self.now.tables.work.now self.now.tables.plan.now g }
    {
        load(self.tables.work, self.tables.plan.rows + 7 * g)
    }

    // Its unit vector.
    #[tactic(auto, unfolding(crate::specs::Rows::unit_in))]
    pub fn unit_of(&self, g: usize) -> Option<V3>
        requires { g < self.now.tables.plan.now.faces }
        ensures { result ≡ unit_of (normal_in self.now.tables.work.now self.now.tables.plan.now g) }
    {
        load_unit(self.tables.work, self.tables.plan.rows + 7 * g + 3)
    }

    // The facing normals of the faces at p, from (0, 0, 0), each once for each use.
    pub fn sum_all(&self, p: PointNumber) -> V3
        requires { p.0 < self.now.tables.plan.now.spots }
        ensures { result ≡ sum_all (v3 zero_f zero_f zero_f) (hits_at self.now.tables.work.now self.now.tables.plan.now p.0) }
    {
        let faces = self.faces_at(p);
        let mut s = V3::default();
        for g in faces {
            s = math::add(s, self.normal_of(wide(*g)));
        }
        s
    }

    // The number that corner c is gathered by.
    pub fn gather_of(&self, c: CornerNumber) -> PointNumber
        requires { c.0 < self.now.tables.plan.now.count }
        ensures { (result.0 ≡ gather_in self.now.tables.work.now self.now.tables.plan.now c.0) × (result.0 < self.now.tables.plan.now.spots) }
    {
        self.tables.gather_of(c)
    }

    // Its face.
    pub fn owner_of(&self, c: CornerNumber) -> usize
        requires { c.0 < self.now.tables.plan.now.count }
        ensures { (result ≡ owner_in self.now.tables.work.now self.now.tables.plan.now c.0) × (result < self.now.tables.plan.now.faces) }
    {
        self.tables.owner_of(c)
    }

    // The unit vector of face g, or (0, 1, 0).
    pub fn own_normal(&self, g: usize) -> V3
        requires { g < self.now.tables.plan.now.faces }
        ensures { result ≡ or_else (unit_of (normal_in self.now.tables.work.now self.now.tables.plan.now g)) y_axis }
    {
        self.unit_of(g).unwrap_or(Y_AXIS)
    }

    // The normal of a corner of face own, whose sum has the unit vector s. No `unwrap_or`: the row would be read for each corner, and few are without one.
    pub fn normal_by(&self, own: usize, s: Option<V3>) -> V3
        requires { own < self.now.tables.plan.now.faces }
        ensures { result ≡ or_else s (or_else (unit_of (normal_in self.now.tables.work.now self.now.tables.plan.now own)) y_axis) }
    {
        if let Some(v) = s {
            return v;
        }
        self.own_normal(own)
    }
}
