// Why a text is no formula, or none that there is room for.
ghost use Rattle.std.specs.Prelude.{◌≡◌};
ghost use Rattle.formula_text.specs.Refusals.{number_of, place_of};

use std::error::Error;
use std::fmt;

// The first rule that the text breaks, with the place of the byte that breaks it, from 0.
#[derive(Clone, Copy, PartialEq, Eq, Debug)]
pub enum TextRefusal {
    // no formula begins with the bytes up to this one, or the text ends here too soon
    Malformed(usize),
    // an entry more than the list has places, or than 128
    TooMany(usize),
    // a round bracket more than 16 deep
    TooDeep(usize),
}

// Read by methods: `From` would not say whether the number or the place of a refusal is meant.
impl TextRefusal {
    pub fn number(self) -> u8
        ensures { result ≡ number_of self }
    {
        match self {
            TextRefusal::Malformed(_) => 31,
            TextRefusal::TooMany(_) => 32,
            TextRefusal::TooDeep(_) => 33,
        }
    }

    // The byte, all bytes counted from 0.
    pub fn place(self) -> usize
        ensures { result ≡ place_of self }
    {
        match self {
            TextRefusal::Malformed(at) | TextRefusal::TooMany(at) | TextRefusal::TooDeep(at) => at,
        }
    }
}

// What was expected in place of what is refused.
impl fmt::Display for TextRefusal {
    fn fmt<W: fmt::Write>(&self, f: &mut fmt::Formatter<W>) -> fmt::Result {
        match self {
            TextRefusal::Malformed(_) => write!(
                f,
                "a formula was expected: tt, ff, an action in < > or [ ] before a formula, formulas joined by & or |, or one in round brackets"
            ),
            TextRefusal::TooMany(_) => write!(f, "at most 128 entries were expected"),
            TextRefusal::TooDeep(_) => write!(f, "round brackets at most 16 deep were expected"),
        }
    }
}

impl Error for TextRefusal {}
