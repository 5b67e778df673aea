// One case: read, converted, told and compared.
use crate::lending::{Slices, put_converted};
use crate::reading::{BadFile, read_case};
use std::io::Read;

// Room for the longest block and text of the file, for the text that is made, and for the slices.
#[derive(Drop)]
pub(crate) struct Room {
    pub block: [u8; 40960],
    pub expected: [u8; 131072],
    pub out: [u8; 131072],
    pub slices: Slices,
}

// The next case of the file: whether the text made is the stored one. None where the file ends.
pub(crate) fn judge_next<R: Read>(from: &mut R, room: &mut Room) -> Result<Option<bool>, BadFile> {
    let Some(case) = read_case(from, &mut room.block, &mut room.expected)? else {
        return Ok(None);
    };
    let n = put_converted(case.corners, case.block, &mut room.out, &mut room.slices);
    Ok(Some(match n {
        Some(k) => k == case.text.len() && bits::part(&room.out, 0, k) == case.text,
        None => false,
    }))
}
