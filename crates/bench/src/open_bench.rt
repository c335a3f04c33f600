// A bench that takes formulas.
use entering::held::Held;
use pair::pair::Pair;
use std::marker::Model;

pub struct OpenBench<L, R> {
    pub(crate) pair: Pair<L, R>,
    pub(crate) held: Held,
}

// To those who call it, it is its two systems and the entries held. `SettledBench` says the same of the same fields:
// with an open bench inside, the proof of each of its calls would take two models apart in place of one.
impl<L, R> Model for OpenBench<L, R> {
    ghost use Rattle.bench.specs.Bench.{Bench};

    ghost Value = { Bench L R };

    ghost view = { λ b. record { left = b.pair.left; right = b.pair.right; entries = b.held } };
}
