// Three counters that are never exchanged (FORMAT 11): of a point in its list, of a corner, of a vertex that is made.
#[derive(Clone, Copy)]
pub struct PointNumber(pub usize);

#[derive(Clone, Copy)]
pub struct CornerNumber(pub usize);

#[derive(Clone, Copy)]
pub struct VertexNumber(pub usize);
