// The text of actions.
ghost use Rattle.std.specs.Prelude.{Some};
ghost use Rattle.actions.specs.Actions.{number_of};
ghost use Rattle.actions.specs.Text.{action_text};

use crate::action::Action;
use std::fmt;

impl fmt::Display for Action {
    ghost output = { λ a. Some (action_text (number_of a)) };

    fn fmt<W: fmt::Write>(&self, f: &mut fmt::Formatter<W>) -> fmt::Result {
        match self {
            Action::Silent => write!(f, "*"),
            Action::Receive(s) => write!(f, "{}", char::from(s.letter())),
            Action::Send(s) => write!(f, "^{}", char::from(s.letter())),
        }
    }
}
