// The numbers of states, read from their text.
ghost use Rattle.std.specs.Prelude.{◌≡◌, ℕ, true, ◌+◌, ◌-◌, ◌*◌, ◌<◌, ◌≤◌, ◌↔◌, Some, MatchBool, MatchOption};
ghost use Rattle.std.specs.Char.{is_ascii_digit};
ghost use Rattle.std.specs.Option.{option_map};
ghost use Rattle.rows.specs.Digits.{Small, Unpadded};
ghost use Rattle.rows.specs.Format.{IsState};
ghost use Rattle.rows.specs.Held.{state_number};

use crate::state::{STATES, State};

impl State {
    // The state that a field writes in decimal; none where it writes none.
    pub fn read(field: &[u8]) -> Option<State>
        ensures { (n : ℕ) → (option_map state_number result ≡ Some n) ↔ IsState field.now n }
    {
        if !unpadded(field) {
            return None;
        }
        digits(field)
    }
}

impl From<State> for u16 {
    ghost from_gives = { λ s n. (n ≡ state_number s) × (n < 1024) };

    fn from(state: State) -> u16 {
        state.number
    }
}

// Whether there is some byte, and no zero in front of another.
fn unpadded(field: &[u8]) -> bool
    ensures { MatchBool result (Unpadded field.now) (Unpadded field.now → ⊥) }
{
    !matches!(field, [] | [b'0', _, ..])
}

// The number with one digit more behind it; none where the byte is no digit, or no state has the number.
fn one_more(number: u16, digit: u8) -> Option<u16>
    requires { number < 1024 }
    ensures { MatchOption result (is_ascii_digit digit ≡ true → 1024 ≤ number * 10 + (digit - 48)) (λ m. (is_ascii_digit digit ≡ true) × (m ≡ number * 10 + (digit - 48)) × (m < 1024)) }
{
    if !digit.is_ascii_digit() {
        return None;
    }
    let next = number * 10 + u16::from(digit - b'0');
    (next < STATES).then_some(next)
}

// The state whose number is written by digits, of any length; zeros in front do not change it.
fn digits(field: &[u8]) -> Option<State>
    ensures { MatchOption result ((n : ℕ) → Small field.now n → ⊥) (λ s. Small field.now s.number) }
{
    // no `parse`, which takes a `+`, and no number that is longer than a machine word
    let mut number = 0;
    for b in field {
        number = one_more(number, *b)?;
    }
    Some(State { number })
}
