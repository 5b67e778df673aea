// Reads a block on standard input and prints its mesh, or why it has none (FORMAT 14).
#![tactic(auto)]

ghost use Rattle.std.specs.Prelude.{◌<◌, ◌≤◌, take, length, IfOk};
ghost use Rattle.std.specs.Io.KnownBytes.{Consumes, IsAtEnd};

use std::io::{Cursor, Read, Write};
use std::{io, str};

// Reads until the buffer is full or the input ends. The number returned is that of the bytes read, which are the buffer's first.
fn read_full<R: Read>(from: &mut R, buffer: &mut [u8]) -> io::Result<usize>
    ensures inside { IfOk result (λ n. n ≤ length buffer.new) }
    ensures bytes { IfOk result (λ n. Consumes (R.remaining from.old) (R.remaining from.new) (take n buffer.new)) }
    ensures ended { IfOk result (λ n. n < length buffer.new → IsAtEnd (R.remaining from.new)) }
{
    let mut done = 0;
    // A while: a read says itself how many bytes it brings.
    while done < buffer.len() {
        let n = from.read(&mut buffer[done..])?;
        if n == 0 {
            return Ok(done);
        }
        done += n;
    }
    Ok(done)
}

// A line on standard error: what failed, and the reason, without the number that the library puts behind it.
fn fail(rt: &impl Eprint, what: &str, error: io::Error) {
    let mut room = Cursor::new([0u8; 256]);
    let _ = write!(room, "{error}");
    let bytes = room.into_inner();
    let words = str::from_utf8(&bytes).unwrap_or("");
    let reason = match words.split_once(" (os error ") {
        Some((reason, _)) => reason,
        None => words.trim_end_matches('\0'),
    };
    let _ = eprintln!(rt; "{what}: {reason}");
}

fn main(rt: HostRuntime) {
    let mut input = [0u8; answer::LONGEST + 1];
    let n = match read_full(&mut rt.stdin(), &mut input) {
        Ok(n) => n,
        Err(e) => return fail(&rt, "standard input", e),
    };
    let mut out = [0u8; answer::TEXT_ROOM];
    let k = answer::answer_text(&input[..n], &mut out);
    if let Err(e) = rt.write_all(&out[..k]) {
        fail(&rt, "standard output", e);
    }
}
