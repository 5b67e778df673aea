// The lines of the table of the sine (FORMAT 16.1).
ghost use Rattle.std.specs.Prelude.{◌+◌, ◌^◌, ◌≤◌, ◌<◌};
ghost use Rattle.text.specs.Wrote.{Wrote, Writes};
ghost use Rattle.sinetable.specs.Lines.{entry_line, table_text};

use sine::entry;
use text::Writer;

// Room for 1,025 lines of ten digits and a line feed.
pub const ROOM: usize = 11275;

// The line of entry k.
fn put_line(w: &mut Writer<'_>, k: usize)
    requires { (w.old.at + 11 ≤ 2 ^ 50) × (k < 1025) }
    ensures { Writes w.old (entry_line k) 11 w.new }
{
    w.put_digits(true, 10, 10, entry(k) as usize);
    w.put_byte(b'\n');
}

// All lines, from the start of the buffer; the number returned is the length of the text.
pub fn put_table(out: &mut [u8]) -> usize
    ensures { Wrote out.old 0 table_text 11275 out.new result }
{
    let mut w = Writer { out, at: 0 };
    for k in 0..1025 {
        put_line(&mut w, k);
    }
    w.at
}
