// FORMAT 10.2: the corners' normals, three floats a corner, in front of the floats.
ghost use Rattle.std.specs.Prelude.{◌≡◌, List, [], ◌∷◌, ◌++◌, ℕ, ◌*◌, ◌-◌, ◌≤◌, length, drop, Float};
ghost use Rattle.math.specs.Vector.{unit_of};
ghost use Rattle.block.specs.declared.crease.CreaseRule.TheVariants.{Own, Every, Bound};
ghost use Rattle.lists.specs.Loops.{tab};
ghost use Rattle.normals.specs.Rows.{Summed};
ghost use Rattle.normals.specs.Written.{corner_normal_in, spread, Begun};
ghost use Rattle.normals.specs.Sums.{Stopped, Partly, Passed};

use crate::source::Source;
use crate::sums::{Known, Near, Sum};
use crate::vectors::{load_unit, put3};
use block::{CornerNumber, CreaseRule, PointNumber};
use math::{V3, Y_AXIS};

// A corner whose sum is that of several faces, or the number of corners where there is no such corner left; and what is known of the last two sums.
// No Option: the walk goes on behind the corner, be it there or not.
#[derive(Clone, Copy)]
pub struct Stop {
    pub corner: usize,
    pub before: Known,
    pub last: Known,
}

// What the rule asks for (`Summed`) and the length of the floats stay clauses: they are said of floats that are lent to be written, and a struct with a `&mut`
// in it would have to say in each function that it is still the same reference.
impl<'a> Source<'a> {
    // The normals of their own faces.
    fn own_normals(&self, floats: &mut [f32])
        requires { Summed self.now.tables.work.now self.now.tables.plan.now Own floats.old × (3 * self.now.tables.plan.now.count ≤ length floats.old) }
        ensures { Begun floats.old floats.new self.now.tables.work.now self.now.tables.plan.now Own self.now.tables.plan.now.count }
    {
        for k in 0..self.tables.plan.count {
            let own = self.owner_of(CornerNumber(k));
            put3(floats, 3 * k, self.own_normal(own));
        }
    }

    // Those by the sums of every face, which are made once for each number.
    fn every_normals(&self, floats: &mut [f32])
        requires { Summed self.now.tables.work.now self.now.tables.plan.now Every floats.old × (3 * self.now.tables.plan.now.count ≤ length floats.old) }
        ensures { Begun floats.old floats.new self.now.tables.work.now self.now.tables.plan.now Every self.now.tables.plan.now.count }
    {
        let t = self.tables.plan;
        for k in 0..t.count {
            let c = CornerNumber(k);
            let p = self.gather_of(c);
            let own = self.owner_of(c);
            let s = load_unit(self.tables.work, t.sums + 4 * p.0);
            put3(floats, 3 * k, self.normal_by(own, s));
        }
    }

    // The normals of the corners from c on whose sums are their own faces' normals, which take no root, up to the first corner whose sum is another.
    fn pass_alone(&self, bound: f32, floats: &mut [f32], c: usize, s: Stop) -> Stop
        requires { Summed self.now.tables.work.now self.now.tables.plan.now (Bound bound) floats.old × (3 * self.now.tables.plan.now.count ≤ length floats.old) × Stopped self.now.tables.work.now self.now.tables.plan.now bound s }
        ensures { Passed floats.old floats.new self.now.tables.work.now self.now.tables.plan.now bound c result }
    {
        let mut before = s.before;
        let mut last = s.last;
        for k in c..self.tables.plan.count {
            let near = Near {
                source: *self,
                floats,
                bound,
            };
            let x = near.sum_at(CornerNumber(k), before, last);
            before = last;
            last = x;
            if x.sum.alone {
                put3(floats, 3 * k, self.own_normal(x.face));
            } else {
                return Stop {
                    corner: k,
                    before,
                    last,
                };
            }
        }
        Stop {
            corner: self.tables.plan.count,
            before,
            last,
        }
    }

    // The normal of the corner of a stop, whose sum has the unit vector k.
    fn put_stop(&self, bound: f32, floats: &mut [f32], s: Stop, k: Option<V3>)
        requires { Summed self.now.tables.work.now self.now.tables.plan.now (Bound bound) floats.old × (3 * self.now.tables.plan.now.count ≤ length floats.old) × Stopped self.now.tables.work.now self.now.tables.plan.now bound s × (k ≡ unit_of s.last.sum.total) }
        ensures summed { Summed self.now.tables.work.now self.now.tables.plan.now (Bound bound) floats.new × (length floats.new ≡ length floats.old) }
        ensures filled { (d : List Float) → (n : ℕ) → (hs : List ℕ) → Partly d floats.old self.now.tables.work.now self.now.tables.plan.now (Bound bound) n (s.corner ∷ hs)
            → Partly d floats.new self.now.tables.work.now self.now.tables.plan.now (Bound bound) n hs }
    {
        if s.corner < self.tables.plan.count {
            put3(floats, 3 * s.corner, self.normal_by(s.last.face, k));
        }
    }

    // The normals under the cosine rule: the roots of the corners that need one are taken four at a time.
    fn near_normals(&self, bound: f32, floats: &mut [f32])
        requires { Summed self.now.tables.work.now self.now.tables.plan.now (Bound bound) floats.old × (3 * self.now.tables.plan.now.count ≤ length floats.old) }
        ensures { floats.new ≡ spread (tab (corner_normal_in self.now.tables.work.now self.now.tables.plan.now (Bound bound)) self.now.tables.plan.now.count 0) ++ drop (3 * self.now.tables.plan.now.count) floats.old }
    {
        // Of no corner: no face has the number of the faces, so neither sum is ever taken.
        let none = Known {
            number: PointNumber(0),
            face: self.tables.plan.faces,
            sum: Sum {
                total: Y_AXIS,
                alone: false,
            },
        };
        let mut s = Stop {
            corner: self.tables.plan.count,
            before: none,
            last: none,
        };
        let mut c = 0;
        // A while: how far the four reach is found on the way.
        while c < self.tables.plan.count {
            let x = self.pass_alone(bound, floats, c, s);
            let y = self.pass_alone(bound, floats, x.corner + 1, x);
            let z = self.pass_alone(bound, floats, y.corner + 1, y);
            s = self.pass_alone(bound, floats, z.corner + 1, z);
            let k = math::normalize_four(
                x.last.sum.total,
                y.last.sum.total,
                z.last.sum.total,
                s.last.sum.total,
            );
            self.put_stop(bound, floats, s, k.d);
            self.put_stop(bound, floats, z, k.c);
            self.put_stop(bound, floats, y, k.b);
            self.put_stop(bound, floats, x, k.a);
            c = s.corner + 1;
        }
    }

    // The rows that stand behind them are kept.
    pub fn corner_normals(&self, rule: CreaseRule, floats: &mut [f32])
        requires { Summed self.now.tables.work.now self.now.tables.plan.now rule floats.old × (3 * self.now.tables.plan.now.count ≤ length floats.old) }
        ensures { floats.new ≡ spread (tab (corner_normal_in self.now.tables.work.now self.now.tables.plan.now rule) self.now.tables.plan.now.count 0) ++ drop (3 * self.now.tables.plan.now.count) floats.old }
    {
        match rule {
            CreaseRule::Own => self.own_normals(floats),
            CreaseRule::Every => self.every_normals(floats),
            CreaseRule::Bound(b) => self.near_normals(b, floats),
        }
    }
}
