// Codes of moves, by the action and the class of the target.
ghost use Rattle.std.specs.Prelude.{◌≡◌, ◌<◌};
ghost use Rattle.refine.specs.Codes.{code_of};

use crate::classes::STATES;

// The codes of 53 actions with 2,048 names each, and one more for actions over 52.
pub(crate) const CODES: usize = 53 * STATES + 1;

// A number for a move by its action and the name of its target's class.
#[derive(Clone, Copy)]
pub struct Code {
    pub(crate) number: usize,
    ghost low: { number < 108545 },
}

impl Code {
    // The code of a move, where names has the names of the classes. It takes any move, since a bound on it would stand
    // in the contract of each caller.
    pub fn of(step: (u8, u16), names: &[u16; STATES]) -> Code
        ensures { result.number ≡ code_of names.now step }
    {
        let (action, target) = step;
        let name = names.get(usize::from(target)).copied().unwrap_or(0);
        let number = usize::from(action) * STATES + usize::from(name);
        Code {
            number: number.min(CODES - 1),
        }
    }
}
