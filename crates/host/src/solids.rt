// The calls of Box, Sphere, Cylinder and Cone for hosts in other languages (FORMAT 17.12).
ghost use Rattle.std.specs.Prelude.{[]};
ghost use Rattle.math.specs.Vector.{v3};
ghost use Rattle.parts.specs.Parted.{Parted, lent_to};
ghost use Rattle.boxes.specs.Box.{box_of};
ghost use Rattle.sphere.specs.Sphere.{sphere_of};
ghost use Rattle.cylinder.specs.Cylinder.{cylinder_of};
ghost use Rattle.cone.specs.Cone.{cone_of};
ghost use Rattle.host.specs.Context.{is_on, ctx_of};
ghost use Rattle.host.specs.Hosted.{Hosted};

use crate::answers::answered;
use crate::context::{ctx_of, is_on};
use math::V3;

// The mesh of a Box of a size, into the lent slices, and 0; or the number of the refusal, and every lent element as it was.
// Here and below: the numbers and the slices one by one, as C hands them.
#[unsafe(no_mangle)]
pub extern "C" fn sitemesh_box(
    x: f32,
    y: f32,
    z: f32,
    need_uvs: u32,
    transform: &[f32],
    positions: &mut [u32],
    normals: &mut [u32],
    textures: &mut [u32],
    indices: &mut [u32],
    res: &mut [usize],
) -> u32
    ensures { Hosted (Parted (ctx_of need_uvs transform.now) [] (box_of (v3 x y z))
        (lent_to positions.old normals.old textures.old indices.old)
        (lent_to positions.new normals.new textures.new indices.new))
        res.old res.new result }
{
    let ctx = ctx_of(need_uvs, transform);
    let a = boxes::box_prim(V3 { x, y, z }, ctx, positions, normals, textures, indices);
    answered(a, res)
}

// A Sphere.
#[unsafe(no_mangle)]
pub extern "C" fn sitemesh_sphere(
    radius: f32,
    slices: u32,
    stacks: u32,
    need_uvs: u32,
    transform: &[f32],
    pairs: &[f32],
    positions: &mut [u32],
    normals: &mut [u32],
    textures: &mut [u32],
    indices: &mut [u32],
    res: &mut [usize],
) -> u32
    ensures { Hosted (Parted (ctx_of need_uvs transform.now) pairs.now (sphere_of radius slices stacks pairs.now)
        (lent_to positions.old normals.old textures.old indices.old)
        (lent_to positions.new normals.new textures.new indices.new))
        res.old res.new result }
{
    let ctx = ctx_of(need_uvs, transform);
    let a = sphere::sphere(
        radius, slices, stacks, ctx, pairs, positions, normals, textures, indices,
    );
    answered(a, res)
}

// A Cylinder: its side, top and bottom where they are on.
#[unsafe(no_mangle)]
pub extern "C" fn sitemesh_cylinder(
    radius: f32,
    height: f32,
    side: u32,
    top: u32,
    bottom: u32,
    slices: u32,
    need_uvs: u32,
    transform: &[f32],
    pairs: &[f32],
    positions: &mut [u32],
    normals: &mut [u32],
    textures: &mut [u32],
    indices: &mut [u32],
    res: &mut [usize],
) -> u32
    ensures { Hosted (Parted (ctx_of need_uvs transform.now) pairs.now (cylinder_of radius height (is_on side) (is_on top) (is_on bottom) slices pairs.now)
        (lent_to positions.old normals.old textures.old indices.old)
        (lent_to positions.new normals.new textures.new indices.new))
        res.old res.new result }
{
    let ctx = ctx_of(need_uvs, transform);
    let a = cylinder::cylinder(
        radius,
        height,
        is_on(side),
        is_on(top),
        is_on(bottom),
        slices,
        ctx,
        pairs,
        positions,
        normals,
        textures,
        indices,
    );
    answered(a, res)
}

// A Cone: its side and bottom where they are on.
#[unsafe(no_mangle)]
pub extern "C" fn sitemesh_cone(
    bottom_radius: f32,
    height: f32,
    side: u32,
    bottom: u32,
    slices: u32,
    need_uvs: u32,
    transform: &[f32],
    pairs: &[f32],
    positions: &mut [u32],
    normals: &mut [u32],
    textures: &mut [u32],
    indices: &mut [u32],
    res: &mut [usize],
) -> u32
    ensures { Hosted (Parted (ctx_of need_uvs transform.now) pairs.now (cone_of bottom_radius height (is_on side) (is_on bottom) slices pairs.now)
        (lent_to positions.old normals.old textures.old indices.old)
        (lent_to positions.new normals.new textures.new indices.new))
        res.old res.new result }
{
    let ctx = ctx_of(need_uvs, transform);
    let a = cone::cone(
        bottom_radius,
        height,
        is_on(side),
        is_on(bottom),
        slices,
        ctx,
        pairs,
        positions,
        normals,
        textures,
        indices,
    );
    answered(a, res)
}
