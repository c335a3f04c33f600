// Why a sheet is no table.
ghost use Rattle.std.specs.Prelude.{◌≡◌};
ghost use Rattle.rows.specs.Refusals.{number_of, place_of};

use std::error::Error;
use std::fmt;

// The first rule that a sheet breaks, with the line that breaks it.
#[derive(Clone, Copy, PartialEq, Eq, Debug)]
pub enum Refusal {
    // there is no header
    NoHeader,
    // the header has more than 8 fields, or not each of from, act and to once
    BadHeader(usize),
    // a row has another number of fields than the header
    Width(usize),
    // a row has no state under from or to, or no action under act
    BadField(usize),
    // a row more than 2,048
    TooMany(usize),
}

// Read by methods: `From` would not say whether the number or the place of a refusal is meant.
impl Refusal {
    pub fn number(self) -> u8
        ensures { result ≡ number_of self }
    {
        match self {
            Refusal::NoHeader | Refusal::BadHeader(_) => 21,
            Refusal::Width(_) => 22,
            Refusal::BadField(_) => 23,
            Refusal::TooMany(_) => 24,
        }
    }

    // The line, all lines counted from 1; 0 where there is no header, as the format has it.
    pub fn place(self) -> usize
        ensures { result ≡ place_of self }
    {
        match self {
            Refusal::NoHeader => 0,
            Refusal::BadHeader(line)
            | Refusal::Width(line)
            | Refusal::BadField(line)
            | Refusal::TooMany(line) => line,
        }
    }
}

// What was expected in place of what is refused.
impl fmt::Display for Refusal {
    fn fmt<W: fmt::Write>(&self, f: &mut fmt::Formatter<W>) -> fmt::Result {
        match self {
            Refusal::NoHeader => write!(
                f,
                "a header was expected, a line that names the columns from, act and to"
            ),
            Refusal::BadHeader(_) => write!(
                f,
                "a header of at most 8 fields was expected, with each of from, act and to once"
            ),
            Refusal::Width(_) => write!(f, "as many fields as in the header were expected"),
            Refusal::BadField(_) => write!(
                f,
                "a state 0 to 1023 was expected under from and to, with no zero in front, and under act an action: *, a small letter, or ^ and a small letter"
            ),
            Refusal::TooMany(_) => write!(f, "at most 2048 rows were expected"),
        }
    }
}

impl Error for Refusal {}
