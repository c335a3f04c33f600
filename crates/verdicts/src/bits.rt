// One bit of a word.
ghost use Rattle.std.specs.Prelude.{◌≡◌, ℕ, ◌<◌, ◌≢◌};
ghost use Rattle.verdicts.specs.Words.{bit};

// Whether bit `at` of the word is set. A word has no bits past 127.
pub(crate) fn bit_of(word: u128, at: u8) -> bool
    ensures { result ≡ bit word at }
{
    at < 128 && (word >> at) & 1 == 1
}

// The word with bit `at` set where `on`, and cleared where not.
pub(crate) fn with_bit(word: u128, at: u8, on: bool) -> u128
    requires { at < 128 }
    ensures same { bit result at ≡ on }
    ensures others { (i : ℕ) → (i ≢ at) → bit result i ≡ bit word i }
{
    let flag = 1u128 << at;
    if on { word | flag } else { word & !flag }
}
