// Labelled transition systems: the questions that any system answers, and the meaning that it answers for.
#![tactic(auto)]

ghost use Rattle.std.specs.Prelude.{◌≡◌, length};
ghost use Rattle.lts.specs.Lts.{Lts, Limits, way_at};

// A transition system with numbered states, each with a list of ways out of it.
//
// To implement it, say by `means` which system a value stands for, and answer the four questions for that system. The
// law `limits` has to be proved too: from 1 to 1,024 states, the start among them, at most 4,095 ways a state, actions
// up to 52, and targets that are states. Where it rests on the size of a field, state that in a ghost field.
//
// No question refuses, and none changes the value: a state or a way that is too large has no ways, or is none.
pub trait System {
    ghost means: { Self → Lts };

    // The number of states.
    fn states(&self) -> u16
        ensures { result ≡ (means self.now).states };

    // The state at which it starts.
    fn start(&self) -> u16
        ensures { result ≡ (means self.now).start };

    // The number of ways of a state, moves and shut ones: 0 where the state is too large.
    fn ways(&self, state: u16) -> u16
        ensures { result ≡ length ((means self.now).ways state) };

    // Way k of a state: the action and the target of a move, or none where it is shut, or the state or k is too large.
    // The action is a number: an option of two numbers is the form set for a way, in every layer that passes it on.
    fn way(&self, state: u16, k: u16) -> Option<(u8, u16)>
        ensures { result ≡ way_at (means self.now) state k };

    ghost limits: { (x : Self) → Limits (means x) };
}
