// How the primitives of a triangle, fan, strip or quad set lie in its index list (FORMAT 6.4).

#[derive(Clone, Copy)]
pub enum Topology {
    Triangles,
    Fans,
    Strips,
    Quads,
}
