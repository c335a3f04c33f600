// Marks for the codes of moves.
ghost use Rattle.std.specs.Prelude.{◌≡◌, ℕ, ◌≤◌, slice_index};

use crate::codes::{CODES, Code};
use std::mem;

// The codes that are marked have the stamp, and no number here is above it. An array and no set of codes, since
// settling and telling allocate nothing.
#[derive(Drop)]
pub struct Marks {
    pub(crate) stamps: [u32; CODES],
    pub(crate) stamp: u32,
    ghost under: { (i : ℕ) → slice_index stamps i ≤ stamp },
}

impl Marks {
    ghost use Rattle.std.specs.Prelude.{false, ◌||◌, ◌==◌};
    ghost use Rattle.refine.specs.Marks.{marked};

    // None is marked.
    pub fn new() -> Marks
        ensures { (i : ℕ) → marked result i ≡ false }
    {
        Marks {
            stamps: [0; CODES],
            stamp: 1,
        }
    }

    // Takes all marks away.
    pub fn clear(&mut self)
        ensures { (i : ℕ) → marked self.new i ≡ false }
    {
        if self.stamp == u32::MAX {
            self.stamps.fill(0);
            self.stamp = 1;
        } else {
            self.stamp += 1;
        }
    }

    // Whether the code is marked.
    pub fn has(&self, code: Code) -> bool
        ensures { result ≡ marked self.now code.number }
    {
        self.stamps[code.number] == self.stamp
    }

    // Marks the code, and says whether it was marked before.
    pub fn mark(&mut self, code: Code) -> bool
        ensures before { result ≡ marked self.old code.number }
        ensures marked { (i : ℕ) → marked self.new i ≡ (marked self.old i || code.number == i) }
    {
        mem::replace(&mut self.stamps[code.number], self.stamp) == self.stamp
    }
}
