// Actions read from their text.
ghost use Rattle.std.specs.Prelude.{◌≡◌};
ghost use Rattle.std.specs.Option.{option_map};
ghost use Rattle.actions.specs.Actions.{number_of};
ghost use Rattle.actions.specs.Text.{Reads};

use crate::action::Action;
use crate::signal::Signal;

impl Action {
    // The action that the bytes write, all of them: `*`, one small letter, or `^` and one small letter.
    pub fn read(bytes: &[u8]) -> Option<Action>
        ensures { Reads bytes.now (option_map number_of result) }
    {
        match bytes {
            [b'*'] => Some(Action::Silent),
            [letter] => Signal::named(*letter).map(Action::Receive),
            [b'^', letter] => Signal::named(*letter).map(Action::Send),
            _ => None,
        }
    }
}
