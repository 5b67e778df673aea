// The fields of a line (FORMAT 14): a space, and a word or a number.
ghost use Rattle.std.specs.Prelude.{◌+◌, ◌*◌, ◌^◌, ◌≤◌};
ghost use Rattle.text.specs.Wrote.{Writes};
ghost use Rattle.text.specs.Fields.{field_of, fields, attribute};

use crate::writer::Writer;
use lists::get;

// Casts of a word to a usize, here and in lines: no From gives a usize of a u32, and text does not stand on tables.
impl Writer<'_> {
    // A word where `word` is set, else a number. A flag here and in `put_fields`, and no closure: that would take the writer and the number to choose
    // between two lines.
    pub(crate) fn put_field(&mut self, word: bool, n: usize)
        requires { self.old.at + 11 ≤ 2 ^ 50 }
        ensures { Writes self.old (field_of word n) 11 self.new }
    {
        self.put_byte(b' ');
        if word {
            self.put_digits(false, 16, 8, n);
        } else {
            self.put_digits(true, 10, 10, n);
        }
    }

    // The m elements of a list from a on. What is past the end of the list is read as 0, so no slice of it is walked.
    pub(crate) fn put_fields(&mut self, word: bool, list: &[u32], a: usize, m: usize)
        requires { (self.old.at + 11 * m ≤ 2 ^ 50) × (a + m ≤ 2 ^ 50) }
        ensures { Writes self.old (fields (field_of word) list.now a m) (11 * m) self.new }
    {
        for i in 0..m {
            self.put_field(word, get(list, a + i) as usize);
        }
    }

    // A letter and the m words of an attribute from a on, where it was made: `made` is a value of `Parts`, which the definition takes too.
    pub(crate) fn put_attribute(&mut self, made: bool, letter: u8, list: &[u32], a: usize, m: usize)
        requires { (self.old.at + (2 + 11 * m) ≤ 2 ^ 50) × (a + m ≤ 2 ^ 50) }
        ensures { Writes self.old (attribute made letter list.now a m) (2 + 11 * m) self.new }
    {
        if made {
            self.put_byte(b' ');
            self.put_byte(letter);
            self.put_fields(true, list, a, m);
        }
    }
}
