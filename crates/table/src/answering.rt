// A table as a transition system.
ghost use Rattle.std.specs.Prelude.{◌≡◌, ◌≤◌, length, map, Some};
ghost use Rattle.rows.specs.Answers.{transitions};
ghost use Rattle.table.specs.Answers.{meaning};
ghost use Rattle.table.specs.Meaning.{ways_of};
ghost use Rattle.table.specs.Limiting.{table_limits};

use crate::table::Table;
use lts::System;
use rows::state::STATES;

impl Table {
    // The moves out of a state; none where it is too large.
    fn moves(&self, state: u16) -> &[(u8, u16)]
        ensures ways { map (λ m. Some m) result.now ≡ ways_of (transitions self.now.rows) state }
        ensures few { length result.now ≤ 2048 }
    {
        if state >= STATES {
            return &[];
        }
        let state = usize::from(state);
        let first = usize::from(self.index.firsts[state]);
        let end = usize::from(self.index.firsts[state + 1]);
        &self.index.moves[first..end]
    }
}

impl System for Table {
    ghost means = { meaning };

    ghost limits = { λ x. table_limits x.rows.items x.rows.few };

    fn states(&self) -> u16 {
        self.index.states
    }

    fn start(&self) -> u16 {
        0
    }

    fn ways(&self, state: u16) -> u16 {
        // by `as`, as it fits: `try_from` would give an error that cannot come
        self.moves(state).len() as u16
    }

    fn way(&self, state: u16, k: u16) -> Option<(u8, u16)> {
        self.moves(state).get(usize::from(k)).copied()
    }
}
