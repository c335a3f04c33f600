// Single bytes of formula text, and the spaces between them.
ghost use Rattle.std.specs.Prelude.{◌≡◌, ◌+◌, ◌<◌, Some, length, MatchResult};
ghost use Rattle.formula_text.specs.Readers.{text, at, held, Spaced, Passed};
ghost use Rattle.formula_text.specs.Phrases.{here, NoLetter, Put};
ghost use Rattle.formula_text.specs.declared.refusal.TextRefusal.TheVariants.{Malformed, TooMany};

use crate::reader::Reader;
use crate::refusal::TextRefusal;
use actions::signal::Signal;
use formula::entry::Entry;

impl Reader<'_> {
    // Passes spaces, and gives the byte behind them; none at the end.
    pub(crate) fn next_mark(&mut self) -> Option<u8>
        ensures spaced { Spaced self.old self.new }
        ensures value { result ≡ here self.new }
        ensures other { here self.new ≡ Some 32 → ⊥ }
    {
        while self.cursor.peek() == Some(b' ') {
            self.take();
        }
        self.cursor.peek()
    }

    // Passes the byte here.
    pub(crate) fn take(&mut self)
        requires { at self.old < length (text self.old) }
        ensures { Passed self.old self.new 0 }
    {
        if let Some(mark) = self.cursor.peek() {
            self.cursor.pass(mark);
        }
    }

    // The text is refused at the byte here.
    pub(crate) fn malformed(&self) -> TextRefusal
        ensures { result ≡ Malformed (at self.now) }
    {
        TextRefusal::Malformed(self.cursor.place())
    }

    // Passes the byte here, at which an entry begins; refuses where it is one too many.
    pub(crate) fn begin(&mut self) -> Result<(), TextRefusal>
        requires { at self.old < length (text self.old) }
        ensures { MatchResult result (λ _. Passed self.old self.new 1) (λ e. (e ≡ TooMany (at self.old)) × (self.old.begun ≡ self.old.limit)) }
    {
        if self.begun == self.limit {
            return Err(TextRefusal::TooMany(self.cursor.place()));
        }
        self.begun += 1;
        self.take();
        Ok(())
    }
    // Passes the mark, which has to stand here.
    pub(crate) fn expect(&mut self, mark: u8) -> Result<(), TextRefusal>
        ensures { MatchResult result (λ _. (here self.old ≡ Some mark) × Passed self.old self.new 0) (λ e. (e ≡ Malformed (at self.old)) × (here self.old ≡ Some mark → ⊥)) }
    {
        if self.cursor.peek() != Some(mark) {
            return Err(self.malformed());
        }
        self.take();
        Ok(())
    }

    // Reads the small letter that has to stand here.
    pub(crate) fn letter(&mut self) -> Result<Signal, TextRefusal>
        ensures { MatchResult result (λ s. (here self.old ≡ Some (s.number + 97)) × Passed self.old self.new 0) (λ e. (e ≡ Malformed (at self.old)) × NoLetter self.old) }
    {
        let Some(signal) = self.cursor.peek().and_then(Signal::named) else {
            return Err(self.malformed());
        };
        self.take();
        Ok(signal)
    }

    // Puts an entry behind the others, and gives its number.
    pub(crate) fn put(&mut self, entry: Entry) -> u8
        requires { length (held self.old) < self.old.begun }
        ensures { Put self.old self.new entry result }
    {
        let number = self.entries.len() as u8;
        self.entries.push(entry);
        number
    }
}
