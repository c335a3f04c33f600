// Where round brackets are needed.
ghost use Rattle.std.specs.Prelude.{◌≡◌};
ghost use Rattle.formula_writing.specs.Brackets.{bracketed};

use formula::entry::Entry;

// How tightly the place binds at which a formula is written.
#[derive(Clone, Copy, PartialEq, Eq, Debug)]
pub(crate) enum Level {
    Unary,
    Ands,
    Ors,
}

impl Level {
    // Whether the formula of the entry binds less tightly, so that it stands in round brackets here.
    pub(crate) fn brackets(self, entry: Entry) -> bool
        ensures { result ≡ bracketed self entry }
    {
        match entry {
            Entry::And(..) => self == Level::Unary,
            Entry::Or(..) => self != Level::Ors,
            _ => false,
        }
    }
}
