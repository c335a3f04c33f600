// One round of refinement: from the classes to a depth, the classes to the next depth.
ghost use Rattle.std.specs.Prelude.{◌≡◌, ℕ, suc, ◌+◌, ◌<◌, ◌≤◌, slice_index};
ghost use Rattle.arrayvec.specs.ArrayVec.{array_vec_len};
ghost use Rattle.refine.specs.Classes.{Names, parting_at};
ghost use Rattle.refine.specs.Codes.{moves};
ghost use Rattle.refine.specs.Signatures.{Signed};
ghost use Rattle.refine.specs.Rounds.{Placed, Entered};

use crate::classes::{Parting, STATES};
use crate::level::Level;
use crate::marks::Marks;
use arrayvec::ArrayVec;
use pair::graph::Graph;

// What a round has found of the states so far: the names of their classes to the next depth, which become those of the
// next level as they stand, the weights of their signatures, and in order the states that are names and were none.
// Arrays by state, since settling allocates nothing.
//
// `Placed` says of it how far the round has come. It is no ghost field, since it speaks of the level too, which each of
// its methods would have to take from the round in place of `self`.
#[derive(Drop)]
pub(crate) struct Round {
    pub(crate) next: [u16; STATES],
    pub(crate) weights: [u64; STATES],
    pub(crate) fresh: ArrayVec<u16, STATES>,
}

impl Round {
    // The weight of the signature of a state: 0 for a state over 2,047, as `name` has it.
    fn weight(&self, state: u16) -> u64
        ensures { result ≡ slice_index self.now.weights state }
    {
        self.weights.get(usize::from(state)).copied().unwrap_or(0)
    }

    // Enters the name of a state, which had the name `class`, and the weight of its signature.
    fn enter(&mut self, state: u16, class: u16, name: u16, weight: u64)
        requires state { state < 2048 }
        requires few { array_vec_len self.old.fresh ≤ state }
        ensures { Entered self.old state class name weight self.new }
    {
        self.next[usize::from(state)] = name;
        self.weights[usize::from(state)] = weight;
        if name == state && class != state {
            self.fresh.push(state);
        }
    }
}

impl<'a, G: Graph> Level<'a, G> {
    // The name of a state to the next depth, where its signature is marked and weighs `print`: that of its class or of
    // a name that is fresh, if their signature is the same, and else itself.
    fn find(&self, state: u16, print: u64, marks: &Marks, round: &Round) -> u16
        requires state { state < (G.Graph.means self.now.graph.now).states }
        requires placed { Placed (G.Graph.means self.now.graph.now) self.now.depth self.now.names state round.now }
        requires signed { Signed self.now.names (moves ((G.Graph.means self.now.graph.now).ways state)) marks.now print }
        ensures { Names (G.Graph.means self.now.graph.now) (suc self.now.depth) state result }
    {
        let class = self.names[usize::from(state)];
        if class == state || self.same(class, round.weight(class), print, marks) {
            return class;
        }
        round
            .fresh
            .iter()
            .copied()
            .find(|other| self.same(*other, round.weight(*other), print, marks))
            .unwrap_or(state)
    }

    // One state of a round.
    fn place(&self, state: u16, marks: &mut Marks, round: &mut Round)
        requires state { state < (G.Graph.means self.now.graph.now).states }
        requires placed { Placed (G.Graph.means self.now.graph.now) self.now.depth self.now.names state round.old }
        ensures { Placed (G.Graph.means self.now.graph.now) self.now.depth self.now.names (state + 1) round.new }
    {
        let print = self.sign(state, marks);
        let name = self.find(state, print, marks, round);
        round.enter(state, self.names[usize::from(state)], name, print);
    }

    // What the round finds of all states.
    pub(crate) fn split(&self, marks: &mut Marks) -> Round
        ensures { Placed (G.Graph.means self.now.graph.now) self.now.depth self.now.names (G.Graph.means self.now.graph.now).states result }
    {
        let mut round = Round {
            next: [0; STATES],
            weights: [0; STATES],
            fresh: ArrayVec::new(),
        };
        // by number, as a graph lends no list of its states
        for state in 0..self.graph.states() {
            self.place(state, marks, &mut round);
        }
        round
    }

    // Records for each fresh name from which it parted, and the depth.
    pub(crate) fn part(&self, round: &Round, partings: &mut [Parting; STATES])
        requires placed { Placed (G.Graph.means self.now.graph.now) self.now.depth self.now.names (G.Graph.means self.now.graph.now).states round.now }
        requires depth { self.now.depth < 2048 }
        ensures fresh { (j : ℕ) → j < array_vec_len round.now.fresh → parting_at partings.new (slice_index round.now.fresh.items j) ≡ record { parent = slice_index self.now.names (slice_index round.now.fresh.items j); depth = self.now.depth + 1 } }
        ensures others { (u : ℕ) → ((j : ℕ) → j < array_vec_len round.now.fresh → ¬ (slice_index round.now.fresh.items j ≡ u)) → parting_at partings.new u ≡ parting_at partings.old u }
    {
        for &state in round.fresh.iter() {
            partings[usize::from(state)] = Parting {
                parent: self.names[usize::from(state)],
                depth: self.depth + 1,
            };
        }
    }

    // The classes to the next depth.
    pub(crate) fn deeper(&self, round: Round) -> Level<'a, G>
        requires placed { Placed (G.Graph.means self.now.graph.now) self.now.depth self.now.names (G.Graph.means self.now.graph.now).states round }
        requires depth { self.now.depth < 2048 }
        ensures graph { result.graph.now ≡ self.now.graph.now }
        ensures names { result.names ≡ round.next }
        ensures depth { result.depth ≡ self.now.depth + 1 }
    {
        let names = round.next;
        Level {
            graph: self.graph,
            names,
            depth: self.depth + 1,
        }
    }
}
