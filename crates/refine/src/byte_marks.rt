// Marks for the codes of moves, in bytes.
ghost use Rattle.std.specs.Prelude.{◌≡◌, ℕ, ◌≤◌, slice_index};

use crate::codes::{CODES, Code};
use std::mem;

// As `Marks`, but in a quarter of the memory, for telling, which makes its marks anew for each formula: the making is most
// of the time of a short formula. Taking the marks away writes all bytes once in 255 times, on which refining, that takes
// them away for each state of each round, would spend a third of its time.
#[derive(Drop)]
pub struct ByteMarks {
    pub(crate) stamps: [u8; CODES],
    pub(crate) stamp: u8,
    ghost under: { (i : ℕ) → slice_index stamps i ≤ stamp },
}

impl ByteMarks {
    ghost use Rattle.std.specs.Prelude.{false, ◌||◌, ◌==◌};
    ghost use Rattle.refine.specs.ByteMarks.{byte_marked};

    // None is marked.
    pub fn new() -> ByteMarks
        ensures { (i : ℕ) → byte_marked result i ≡ false }
    {
        ByteMarks {
            stamps: [0; CODES],
            stamp: 1,
        }
    }

    // Takes all marks away.
    pub fn clear(&mut self)
        ensures { (i : ℕ) → byte_marked self.new i ≡ false }
    {
        if self.stamp == u8::MAX {
            self.stamps.fill(0);
            self.stamp = 1;
        } else {
            self.stamp += 1;
        }
    }

    // Whether the code is marked.
    pub fn has(&self, code: Code) -> bool
        ensures { result ≡ byte_marked self.now code.number }
    {
        self.stamps[code.number] == self.stamp
    }

    // Marks the code, and says whether it was marked before.
    pub fn mark(&mut self, code: Code) -> bool
        ensures before { result ≡ byte_marked self.old code.number }
        ensures marked { (i : ℕ) → byte_marked self.new i ≡ (byte_marked self.old i || code.number == i) }
    {
        mem::replace(&mut self.stamps[code.number], self.stamp) == self.stamp
    }
}
