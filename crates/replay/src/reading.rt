// The stored cases. A case is the number of corners that slices are lent for, the length of a block and its bytes, and the length of a text and its bytes.
// Numbers are four bytes, most significant first.
use block::LIMIT;
use std::io;
use std::io::Read;

// The file ends inside a case, or a number of it is too large.
#[derive(Drop)]
pub(crate) struct BadFile;

impl From<io::Error> for BadFile {
    fn from(_e: io::Error) -> BadFile {
        BadFile
    }
}

// A case, in the buffers that it was read to.
#[derive(Clone, Copy)]
pub(crate) struct Stored<'a> {
    pub corners: u32,
    pub block: &'a [u8],
    pub text: &'a [u8],
}

// The next number, or none where the file ends before it.
fn read_number<R: Read>(from: &mut R) -> Result<Option<u32>, BadFile> {
    let mut four = [0u8; 4];
    if from.read(&mut four[..1])? == 0 {
        return Ok(None);
    }
    from.read_exact(&mut four[1..])?;
    Ok(Some(u32::from_be_bytes(four)))
}

// A length, and so many bytes, to the start of the buffer.
fn read_part<'a, R: Read>(from: &mut R, buffer: &'a mut [u8]) -> Result<&'a [u8], BadFile> {
    let n = read_number(from)?.ok_or(BadFile)? as usize;
    if n > buffer.len() {
        return Err(BadFile);
    }
    let part = &mut buffer[..n];
    from.read_exact(part)?;
    Ok(part)
}

// The next case, or none where the file ends before it.
pub(crate) fn read_case<'a, R: Read>(
    from: &mut R,
    block: &'a mut [u8],
    text: &'a mut [u8],
) -> Result<Option<Stored<'a>>, BadFile> {
    let Some(corners) = read_number(from)? else {
        return Ok(None);
    };
    if corners as usize > LIMIT {
        return Err(BadFile);
    }
    let block = read_part(from, block)?;
    let text = read_part(from, text)?;
    Ok(Some(Stored {
        corners,
        block,
        text,
    }))
}
