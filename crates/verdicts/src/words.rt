// Verdicts in their words.
ghost use Rattle.std.specs.Prelude.{◌≡◌, ℕ, false};
ghost use Rattle.verdicts.specs.Words.{says};

use crate::bits::bit_of;

// The verdicts of up to 128 formulas at up to 2,048 states.
#[derive(Clone, Copy)]
pub struct Verdicts {
    pub words: [u128; 2048],
}

impl Verdicts {
    // No formula holds at any state.
    pub fn new() -> Verdicts
        ensures { (i s : ℕ) → says result.words i s ≡ false }
    {
        Verdicts { words: [0; 2048] }
    }

    // What the words say of the formula at the state. A number that is too large has the verdict false: a bench tests
    // what it asks and judges sound lists, so a none would be taken apart and never met.
    pub fn holds(&self, formula: u8, state: u16) -> bool
        ensures { result ≡ says self.now.words formula state }
    {
        self.words
            .get(usize::from(state))
            .is_some_and(|word| bit_of(*word, formula))
    }
}
