// What a call lends (FORMAT 4): the six slices of the mesh, and the two working slices.
#[derive(Drop)]
pub struct Buffers<'a> {
    pub sources: &'a mut [u32],
    pub positions: &'a mut [u32],
    pub normals: &'a mut [u32],
    pub colours: &'a mut [u32],
    pub textures: &'a mut [u32],
    pub indices: &'a mut [u32],
    pub words: &'a mut [u32],
    pub floats: &'a mut [f32],
}
