// What a text is written with: the buffer that is lent, and the length of the text so far.
ghost use Rattle.std.specs.Prelude.{[], ◌∷◌, ◌+◌, ◌^◌, ◌≤◌, length};
ghost use Rattle.text.specs.Wrote.{Writes};

use lists::put;

// What the buffer has no room for is counted, and not written. The bound of `at` is a clause of each method and no fact of the type: each asks for the
// room of its own text, so that one bound for all would not do.
#[derive(Drop)]
pub struct Writer<'a> {
    pub out: &'a mut [u8],
    pub at: usize,
}

impl Writer<'_> {
    pub fn put_byte(&mut self, v: u8)
        requires { self.old.at + 1 ≤ 2 ^ 50 }
        ensures { Writes self.old (v ∷ []) 1 self.new }
    {
        put(self.out, self.at, v);
        self.at += 1;
    }

    // Bytes one after the other.
    pub(crate) fn put_bytes(&mut self, text: &[u8])
        requires { self.old.at + length text.now ≤ 2 ^ 50 }
        ensures { Writes self.old text.now (length text.now) self.new }
    {
        for v in text {
            self.put_byte(*v);
        }
    }
}
