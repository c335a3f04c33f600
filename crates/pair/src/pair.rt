// Two systems as one: a left state keeps its number, and a right state adds the left number of states.
ghost use Rattle.lts.specs.Joined.{joined};
ghost use Rattle.pair.specs.Joining.{joined_wide};

use crate::graph::Graph;
use lts::System;

pub struct Pair<L, R> {
    pub left: L,
    pub right: R,
}

impl<L: System, R: System> Graph for Pair<L, R> {
    ghost means = { λ x. joined (L.System.means x.left) (R.System.means x.right) };

    ghost wide = { λ x. joined_wide (L.System.means x.left) (R.System.means x.right) (L.System.limits x.left) (R.System.limits x.right) };

    fn states(&self) -> u16 {
        self.left.states() + self.right.states()
    }

    fn ways(&self, state: u16) -> u16 {
        let left = self.left.states();
        if state < left {
            self.left.ways(state)
        } else {
            self.right.ways(state - left)
        }
    }

    fn way(&self, state: u16, k: u16) -> Option<(u8, u16)> {
        let left = self.left.states();
        if state < left {
            return self.left.way(state, k);
        }
        self.right
            .way(state - left, k)
            .map(|(action, target)| (action, left + target))
    }
}
