// What is held, as a list.
ghost use Rattle.std.specs.Prelude.{◌≡◌, ◌≤◌, [], length};
ghost use Rattle.formula.specs.Entries.{AllSound};

use crate::held::Held;
use formula::entry::Entry;

impl Held {
    // No entries.
    pub fn new() -> Held
        ensures { result ≡ [] }
    {
        Held {
            entries: [Entry::True; 128],
            count: 0,
        }
    }

    // The entries, in order.
    pub fn as_slice(&self) -> &[Entry]
        ensures value { result.now ≡ self.now }
        ensures few { length result.now ≤ 128 }
        ensures sound { AllSound result.now }
    {
        &self.entries[0..usize::from(self.count)]
    }

    pub fn len(&self) -> u8
        ensures value { result ≡ length self.now }
        ensures bound { result ≤ 128 }
    {
        self.count
    }
}
