// What a process can do in one step.
ghost use Rattle.std.specs.Prelude.{◌≡◌, ℕ, ◌≤◌, ◌↔◌, ◌++◌, Some, codes, decimal};
ghost use Rattle.std.specs.Option.{option_map};
ghost use Rattle.actions.specs.Actions.{number_of, Numbered, Partners};

use crate::signal::Signal;
use std::error::Error;
use std::fmt;

// A silent step, or a signal received or sent.
#[derive(Clone, Copy, PartialEq, Eq, Debug)]
pub enum Action {
    Silent,
    Receive(Signal),
    Send(Signal),
}

// A number from 53 on, which is that of no action.
#[derive(Clone, Copy, PartialEq, Eq, Debug)]
pub struct NoAction(pub u8);

const RECEIVES: u8 = 1;

const SENDS: u8 = 27;

impl Action {
    // The action that this one can meet: receive and send of one signal are partners, and silent has none.
    pub fn partner(self) -> Option<Action>
        ensures { (b : ℕ) → (option_map number_of result ≡ Some b) ↔ Partners (number_of self) b }
    {
        match self {
            Action::Silent => None,
            Action::Receive(s) => Some(Action::Send(s)),
            Action::Send(s) => Some(Action::Receive(s)),
        }
    }
}

// By its number: 0 is silent, 1 to 26 receive a to z, 27 to 52 send them.
impl TryFrom<u8> for Action {
    type Error = NoAction;

    ghost try_from_gives = { Numbered };

    fn try_from(number: u8) -> Result<Self, NoAction> {
        match number {
            0 => Some(Action::Silent),
            RECEIVES..SENDS => Signal::new(number - RECEIVES).map(Action::Receive),
            _ => Signal::new(number - SENDS).map(Action::Send),
        }
        .ok_or(NoAction(number))
    }
}

impl From<Action> for u8 {
    ghost from_gives = { λ a n. (n ≡ number_of a) × (n ≤ 52) };

    fn from(action: Action) -> u8 {
        match action {
            Action::Silent => 0,
            Action::Receive(s) => RECEIVES + s.number(),
            Action::Send(s) => SENDS + s.number(),
        }
    }
}

impl fmt::Display for NoAction {
    ghost output = { λ e. Some (codes "no action has number " ++ decimal e.0) };

    fn fmt<W: fmt::Write>(&self, f: &mut fmt::Formatter<W>) -> fmt::Result {
        write!(f, "no action has number {}", self.0)
    }
}

impl Error for NoAction {}
