// The processes of CCS. They have a type of their own, so that no signal number stands for one.
ghost use Rattle.std.specs.Prelude.{◌≡◌, ◌+◌, ◌<◌, ◌≤◌, MatchOption};

// A process, A to Z, by its number from 0.
// `Signal` says the same of a to z: the project sets a struct of its own for each.
#[derive(Clone, Copy, PartialEq, Eq, Debug)]
pub struct Process {
    number: u8,
    ghost below: { number < 26 },
}

// A byte that is read or written is a number or a letter, which `TryFrom` and `From` would not tell apart.
impl Process {
    // The process of this number; none from 26 on.
    pub fn new(number: u8) -> Option<Self>
        ensures { MatchOption result (26 ≤ number) (λ p. p.number ≡ number) }
    {
        if number < 26 {
            Some(Process { number })
        } else {
            None
        }
    }

    // The process that a capital names; none for any other byte.
    pub fn named(capital: u8) -> Option<Self>
        ensures { MatchOption result ((65 ≤ capital → capital ≤ 90 → ⊥)) (λ p. p.number + 65 ≡ capital) }
    {
        Self::new(capital.checked_sub(b'A')?)
    }

    pub fn number(self) -> u8
        ensures value { result ≡ self.number }
        ensures bound { result < 26 }
    {
        self.number
    }

    // The capital that names it.
    pub fn capital(self) -> u8
        ensures { result ≡ self.number + 65 }
    {
        b'A' + self.number
    }
}
