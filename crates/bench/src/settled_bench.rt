// A bench that answers.
use crate::inner::Inner;
use entering::held::Held;
use lts::System;
use pair::pair::Pair;
use std::marker::Model;

pub struct SettledBench<L: System, R: System> {
    pub(crate) pair: Pair<L, R>,
    pub(crate) held: Held,
    pub(crate) inner: Inner,
}

// To those who call it, it is its two systems and the entries held. It has the verdict of each entry at each state, and
// the classes of bisimilar states.
impl<L: System, R: System> Model for SettledBench<L, R> {
    ghost use Rattle.lts.specs.Joined.{joined};
    ghost use Rattle.bench.specs.Bench.{Bench};
    ghost use Rattle.bench.specs.Ready.{Ready};

    ghost Value = { Bench L R };

    ghost view = { λ b. record { left = b.pair.left; right = b.pair.right; entries = b.held } };

    ghost invariant = { λ b. Ready (joined (L.System.means b.pair.left) (R.System.means b.pair.right)) b.held b.inner };
}
