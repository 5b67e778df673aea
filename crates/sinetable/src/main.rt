// Prints the table of the sine (FORMAT 16.1): an entry to a line, from entry 0.
#![tactic(auto)]

mod lines;

use crate::lines::{ROOM, put_table};
use std::io;

fn main(rt: HostRuntime) -> io::Result<()> {
    let mut out = [0u8; ROOM];
    let n = put_table(&mut out);
    rt.write_all(&out[..n])
}
