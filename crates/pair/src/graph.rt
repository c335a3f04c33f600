// Transition systems of up to 2,048 states.
ghost use Rattle.std.specs.Prelude.{◌≡◌, length};
ghost use Rattle.lts.specs.Lts.{Lts, way_at};
ghost use Rattle.pair.specs.Wide.{Wide};

// A transition system with numbered states, as large as two systems side by side. It is asked as a `System` is.
//
// A trait beside `System`: with one over both, whoever implements a `System` would have to give two impls and two laws.
pub trait Graph {
    ghost means: { Self → Lts };

    // The number of states.
    fn states(&self) -> u16
        ensures { result ≡ (means self.now).states };

    // The number of ways of a state, moves and shut ones: 0 where the state is too large.
    fn ways(&self, state: u16) -> u16
        ensures { result ≡ length ((means self.now).ways state) };

    // Way k of a state: the action and the target of a move, or none where it is shut, or the state or k is too large.
    fn way(&self, state: u16, k: u16) -> Option<(u8, u16)>
        ensures { result ≡ way_at (means self.now) state k };

    ghost wide: { (x : Self) → Wide (means x) };
}
