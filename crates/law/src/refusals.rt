// Why a call of the bench refuses: one type for each call, each case with its number, and that of enter with its place.
ghost use Rattle.std.specs.Prelude.{◌≡◌};
ghost use Rattle.law.specs.Refusals.{number_of_enter, place_of_enter, number_of_rule, number_of_reach, number_of_alike, number_of_tell, reach_for_rule, tell_for_alike};

#[derive(Clone, Copy, PartialEq, Eq, Debug)]
pub enum EnterRefusal {
    // the list is empty
    Empty,
    // the entry at this place of the list, from 0, names one that is not earlier, or an action over 52
    Unsound(usize),
    // there would be more than 128 entries in all
    Full,
}

#[derive(Clone, Copy, PartialEq, Eq, Debug)]
pub enum RuleRefusal {
    NoFormula,
    NoState,
}

#[derive(Clone, Copy, PartialEq, Eq, Debug)]
pub enum ReachRefusal {
    NoFormula,
    NoState,
    // the shortest run has more moves than the path has room for
    PathShort,
}

#[derive(Clone, Copy, PartialEq, Eq, Debug)]
pub enum AlikeRefusal {
    NoState,
}

#[derive(Clone, Copy, PartialEq, Eq, Debug)]
pub enum TellRefusal {
    NoState,
    // the two states are bisimilar
    Alike,
    // the formula has more lines than the memory, or more than 4,096
    TooLong,
}

// Read by methods: `u8::from(refusal)` would not say that it is the number of a refusal. By matches and no
// discriminants, so that the number of a case stands where it is read, for each of the five types.
impl EnterRefusal {
    pub fn number(self) -> u8
        ensures { result ≡ number_of_enter self }
    {
        match self {
            EnterRefusal::Empty => 1,
            EnterRefusal::Unsound(_) => 2,
            EnterRefusal::Full => 3,
        }
    }

    // The place of the unsound entry in the list, else 0: a refusal is handed out as a number and a place.
    pub fn place(self) -> usize
        ensures { result ≡ place_of_enter self }
    {
        match self {
            EnterRefusal::Unsound(place) => place,
            EnterRefusal::Empty | EnterRefusal::Full => 0,
        }
    }
}

impl RuleRefusal {
    pub fn number(self) -> u8
        ensures { result ≡ number_of_rule self }
    {
        match self {
            RuleRefusal::NoFormula => 4,
            RuleRefusal::NoState => 5,
        }
    }
}

impl ReachRefusal {
    pub fn number(self) -> u8
        ensures { result ≡ number_of_reach self }
    {
        match self {
            ReachRefusal::NoFormula => 4,
            ReachRefusal::NoState => 5,
            ReachRefusal::PathShort => 6,
        }
    }
}

impl AlikeRefusal {
    pub fn number(self) -> u8
        ensures { result ≡ number_of_alike self }
    {
        match self {
            AlikeRefusal::NoState => 5,
        }
    }
}

impl TellRefusal {
    pub fn number(self) -> u8
        ensures { result ≡ number_of_tell self }
    {
        match self {
            TellRefusal::NoState => 5,
            TellRefusal::Alike => 7,
            TellRefusal::TooLong => 8,
        }
    }
}

// A formula or a state is missing for reach as it is for rule.
impl From<RuleRefusal> for ReachRefusal {
    ghost from_gives = { λ e r. r ≡ reach_for_rule e };

    fn from(refusal: RuleRefusal) -> ReachRefusal {
        match refusal {
            RuleRefusal::NoFormula => ReachRefusal::NoFormula,
            RuleRefusal::NoState => ReachRefusal::NoState,
        }
    }
}

// A state is missing for tell as it is for alike.
impl From<AlikeRefusal> for TellRefusal {
    ghost from_gives = { λ e r. r ≡ tell_for_alike e };

    fn from(refusal: AlikeRefusal) -> TellRefusal {
        match refusal {
            AlikeRefusal::NoState => TellRefusal::NoState,
        }
    }
}
