// FORMAT 17.6, box_prim: the vertices, face by face.
ghost use Rattle.std.specs.Prelude.{◌≡◌, ◌+◌, ◌*◌, ◌<◌};
ghost use Rattle.lists.specs.Lists.{flat};
ghost use Rattle.lists.specs.Loops.{tab};
ghost use Rattle.parts.specs.Building.{Room, Pushes};
ghost use Rattle.boxes.specs.Box as spec;

use crate::faces::{BoxFace, face_at};
use block::Pair;
use math::V3;
use parts::{Builder, Vert};

// Component by component.
fn times(v: V3, h: V3) -> V3
    ensures { result ≡ spec.times v h }
{
    V3 {
        x: v.x * h.x,
        y: v.y * h.y,
        z: v.z * h.z,
    }
}

// Forth or back. As in `side`, a bool: on which side a corner lies is what its number says, and an enum of two would be made by the same test.
#[tactic(auto, unfolding(crate::specs::Box::stepped))]
fn step(a: V3, d: V3, forth: bool) -> V3
    ensures { result ≡ spec.stepped a d forth }
{
    if forth {
        math::add(a, d)
    } else {
        math::sub(a, d)
    }
}

fn is_right(i: usize) -> bool
    ensures { result ≡ spec.is_right i }
{
    i == 1 || i == 2
}

fn side(far: bool) -> f32
    ensures { result ≡ spec.side_of far }
{
    f32::from(far)
}

// Corner i of a face.
#[tactic(auto, unfolding(crate::specs::Box::box_vert))]
fn box_vert(h: V3, f: BoxFace, i: usize) -> Vert
    ensures { result ≡ spec.box_vert h f i }
{
    let normal = f.normal;
    let right = f.right;
    let up = f.up;
    let far = is_right(i);
    let top = i > 1;
    let edge = step(times(normal, h), times(right, h), far);
    let position = step(edge, times(up, h), top);
    let st = Pair {
        s: side(far),
        t: side(top),
    };
    Vert {
        position,
        normal,
        st,
    }
}

// The corners of face k.
#[tactic(auto, unfolding(crate::specs::Box::box_face, lists::specs::Loops::tab))]
fn box_face(h: V3, k: usize) -> [Vert; 4]
    requires { k < 6 }
    ensures { result ≡ spec.box_face h k }
{
    let f = face_at(k);
    [
        box_vert(h, f, 0),
        box_vert(h, f, 1),
        box_vert(h, f, 2),
        box_vert(h, f, 3),
    ]
}

// All faces.
pub fn put_faces(h: V3, b: &mut Builder<'_>)
    requires { Room (0 + 6 * 4) b.old }
    ensures { Pushes 0 (flat (tab (spec.box_face h) 6 0)) b.old b.new }
{
    b.put_verts(
        0,
        6,
        |k|
            requires { k < 6 }
            ensures { result ≡ spec.box_face h k }
        { box_face(h, k) },
    );
}
