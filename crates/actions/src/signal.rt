// The signals of CCS. They have a type of their own, so that no process number stands for one.
ghost use Rattle.std.specs.Prelude.{◌≡◌, ◌+◌, ◌<◌, ◌≤◌, MatchOption};

// A signal, a to z, by its number from 0.
// `Process` says the same of A to Z: the project sets a struct of its own for each.
#[derive(Clone, Copy, PartialEq, Eq, Debug)]
pub struct Signal {
    number: u8,
    ghost below: { number < 26 },
}

// A byte that is read or written is a number or a letter, which `TryFrom` and `From` would not tell apart.
impl Signal {
    // The signal of this number; none from 26 on.
    pub fn new(number: u8) -> Option<Self>
        ensures { MatchOption result (26 ≤ number) (λ s. s.number ≡ number) }
    {
        if number < 26 {
            Some(Signal { number })
        } else {
            None
        }
    }

    // The signal that a small letter names; none for any other byte.
    pub fn named(letter: u8) -> Option<Self>
        ensures { MatchOption result ((97 ≤ letter → letter ≤ 122 → ⊥)) (λ s. s.number + 97 ≡ letter) }
    {
        Self::new(letter.checked_sub(b'a')?)
    }

    pub fn number(self) -> u8
        ensures value { result ≡ self.number }
        ensures bound { result < 26 }
    {
        self.number
    }

    // The small letter that names it.
    pub fn letter(self) -> u8
        ensures { result ≡ self.number + 97 }
    {
        b'a' + self.number
    }
}
