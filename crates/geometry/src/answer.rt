// What the caller of a conversion chooses, and what it lends (FORMAT 4, 7.2).
use bits::Words4;

// What the caller chooses: the colour of a missing entry (FORMAT 7.2).
#[derive(Clone, Copy)]
pub struct Call {
    pub colour: Words4,
}

// The terminal's default: (0.8, 0.8, 0.8, 1).
pub const GREY: Words4 = Words4 {
    r: 0x3f4c_cccd,
    g: 0x3f4c_cccd,
    b: 0x3f4c_cccd,
    a: 0x3f80_0000,
};

// The survey desk's, and the reference's: (1, 1, 1, 1). Two constants of one type, word for word: a function of a shade would read no shorter.
pub const WHITE: Words4 = Words4 {
    r: 0x3f80_0000,
    g: 0x3f80_0000,
    b: 0x3f80_0000,
    a: 0x3f80_0000,
};

// The lengths of the eight lent slices: of what is lent, a refusal is defined by these alone (FORMAT 3).
#[derive(Clone, Copy)]
pub struct Lengths {
    pub positions: usize,
    pub normals: usize,
    pub colours: usize,
    pub textures: usize,
    pub sources: usize,
    pub indices: usize,
    pub words: usize,
    pub floats: usize,
}
