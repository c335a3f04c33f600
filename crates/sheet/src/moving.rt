// How a cursor reads.
ghost use Rattle.std.specs.Prelude.{◌≡◌, ◌≤◌, length, take, ◌==◌, slice_get};
ghost use Rattle.sheet.specs.Cursors.{bytes, place, rest, Moved};
ghost use Rattle.sheet.specs.Parts.{length_to, begins, one};

use crate::cursor::Cursor;

impl<'a> Cursor<'a> {
    // A cursor at the first byte.
    pub fn new(sheet: &'a [u8]) -> Cursor<'a>
        ensures bytes { bytes result ≡ sheet.now }
        ensures place { place result ≡ 0 }
    {
        Cursor { sheet, at: 0 }
    }

    // How many bytes are read.
    pub fn place(&self) -> usize
        ensures { result ≡ place self.now }
    {
        self.at
    }

    // All bytes are read.
    pub fn ended(&self) -> bool
        ensures { result ≡ (place self.now == length (bytes self.now)) }
    {
        self.at == self.sheet.len()
    }

    // The bytes that are not read yet.
    fn rest(&self) -> &'a [u8]
        ensures { result.now ≡ rest self.now }
    {
        &self.sheet[self.at..]
    }

    // The byte here; none at the end.
    pub fn peek(&self) -> Option<u8>
        ensures { result ≡ slice_get (bytes self.now) (place self.now) }
    {
        self.sheet.get(self.at).copied()
    }

    // Passes a mark where it stands here, and says whether it does.
    pub fn pass(&mut self, mark: u8) -> bool
        ensures value { result ≡ begins mark (rest self.old) }
        ensures on { Moved self.old (one result) self.new }
    {
        let stands = self.rest().first() == Some(&mark);
        if stands {
            self.at += 1;
        }
        stands
    }

    // The part up to the first such mark, or to the end; the cursor stays before the mark.
    pub fn until(&mut self, mark: u8) -> &'a [u8]
        ensures part { result.now ≡ take (length_to mark (rest self.old)) (rest self.old) }
        ensures on { Moved self.old (length_to mark (rest self.old)) self.new }
    {
        let rest = self.rest();
        let end = end_of(rest, mark);
        self.at += end;
        &rest[..end]
    }
}

// The place of the first such mark, or the end.
fn end_of(text: &[u8], mark: u8) -> usize
    ensures value { result ≡ length_to mark text.now }
    ensures bound { result ≤ length text.now }
{
    text.iter().take_while(|b| **b != mark).count()
}
