// A whole text, read into a list that is lent.
ghost use Rattle.std.specs.Prelude.{◌≡◌, ℕ, ◌-◌, List, IfOk};
ghost use Rattle.hml.specs.Logic.{Formula};
ghost use Rattle.formula.specs.Entries.{formula_at};
ghost use Rattle.grammar.specs.Writing.{formula_text, AllActions};
ghost use Rattle.formula_text.specs.Answers.{Answered};
ghost use Rattle.formula_text.specs.Wholes.{WholeRead, Unread};

use crate::reader::{MOST, Reader};
use crate::refusal::TextRefusal;
use arrayvec::ArrayVec;
use formula::entry::Entry;
use sheet::cursor::Cursor;

impl<'a> Reader<'a> {
    // A reader of the text from its first byte on, for a list of so many places.
    fn new(text: &'a [u8], places: usize) -> Reader<'a>
        ensures { Unread text.now places result }
    {
        Reader {
            cursor: Cursor::new(text),
            entries: ArrayVec::new(),
            begun: 0,
            // by `as`, as it fits: `try_from` would give an error that cannot come
            limit: places.min(MOST) as u8,
        }
    }

    // Reads the text to its end.
    fn whole(&mut self) -> Result<(), TextRefusal>
        ensures { (s : List ℕ) (places : ℕ) → Unread s places self.old → WholeRead s places self.new result }
    {
        let mut depth = 0;
        self.ors(&mut depth)?;
        if self.cursor.peek().is_some() {
            return Err(self.malformed());
        }
        Ok(())
    }
}

// Reads a text into a list of entries, and answers how many entries its formula has. They stand first in the list, parts
// before wholes and left before right, and every other place holds true; so does every place after a refusal.
// Where a formula is read from the text that it is written as, it is that formula.
pub fn read(text: &[u8], list: &mut [Entry]) -> Result<u8, TextRefusal>
    ensures answer { Answered text.now list.old list.new result }
    ensures written { (f : Formula) → AllActions f → text.now ≡ formula_text f → IfOk result (λ n. formula_at list.new (n - 1) ≡ f) }
{
    let mut reader = Reader::new(text, list.len());
    list.fill(Entry::True);
    reader.whole()?;
    let entries = reader.entries.as_slice();
    list[..entries.len()].copy_from_slice(entries);
    // by `as`, as it fits: `try_from` would give an error that cannot come
    Ok(entries.len() as u8)
}
