// How a list is entered.
ghost use Rattle.std.specs.Prelude.{◌≡◌, ◌+◌, ◌-◌, ◌≤◌, length};
ghost use Rattle.formula.specs.Entries.{Sound, AllSound, appended, raised};
ghost use Rattle.law.specs.Answers.{Entered};
ghost use Rattle.entering.specs.Held.{HeldAfter};

use crate::held::Held;
use crate::soundness::first_unsound;
use formula::entry::Entry;
use law::refusals::EnterRefusal;

const MOST: usize = 128;

// The entry with each entry number in it raised by n.
fn raise(n: u8, entry: Entry) -> Entry
    requires few { n ≤ 128 }
    requires sound { Sound (128 - n) entry }
    ensures { result ≡ raised n entry }
{
    match entry {
        Entry::True => Entry::True,
        Entry::False => Entry::False,
        Entry::And(i, j) => Entry::And(n + i, n + j),
        Entry::Or(i, j) => Entry::Or(n + i, n + j),
        Entry::May(a, i) => Entry::May(a, n + i),
        Entry::Must(a, i) => Entry::Must(a, n + i),
    }
}

impl Held {
    // Appends a list that is sound and for which there is room.
    fn append(&mut self, list: &[Entry])
        requires sound { AllSound list.now }
        requires room { length self.old + length list.now ≤ 128 }
        ensures { self.new ≡ appended self.old list.now }
    {
        let before = self.count;
        for entry in list {
            self.entries[usize::from(self.count)] = raise(before, *entry);
            self.count += 1;
        }
    }

    // Enters a list behind the entries held, and answers the number of its last entry; or refuses, and nothing changes.
    pub fn enter(&mut self, list: &[Entry]) -> Result<u8, EnterRefusal>
        ensures answer { Entered self.old list.now result }
        ensures after { HeldAfter self.old list.now result self.new }
    {
        if list.is_empty() {
            return Err(EnterRefusal::Empty);
        }
        if let Some(place) = first_unsound(list) {
            return Err(EnterRefusal::Unsound(place));
        }
        if list.len() > MOST - usize::from(self.len()) {
            return Err(EnterRefusal::Full);
        }
        self.append(list);
        Ok(self.len() - 1)
    }
}
