// What the faces of a soup share (FORMAT 8, PolyMesh). This and the plan stay two: normals and faces take the plan with a bit or two of this, and texture the
// plan alone.
use corners::Attributes;
use vertices::Widths;

#[derive(Clone, Copy)]
pub struct Shared {
    pub ccw: bool,
    pub convex: bool,
    pub widths: Widths,
    pub attributes: Attributes,
}
