// The ways of a state, one after the other.
ghost use Rattle.std.specs.Prelude.{◌≡◌, ◌≤◌, length};

use crate::graph::Graph;
use std::ops::Range;

// The ways of a state from `numbers.start` up to its last.
#[derive(Drop)]
pub struct Ways<'a, G: Graph> {
    graph: &'a G,
    state: u16,
    numbers: Range<u16>,
    ghost within: { numbers.start ≤ numbers.end },
    ghost all: { numbers.end ≡ length ((G.Graph.means graph.now).ways state) },
}

impl<'a, G: Graph> Ways<'a, G> {
    ghost use Rattle.pair.specs.Ways.{to_come};

    // All ways of the state: none where it is too large.
    pub fn of(graph: &'a G, state: u16) -> Ways<'a, G>
        ensures { to_come G.Graph result ≡ (G.Graph.means graph.now).ways state }
    {
        Ways {
            graph,
            state,
            numbers: 0..graph.ways(state),
        }
    }
}

impl<'a, G: Graph> Iterator for Ways<'a, G> {
    type Item = Option<(u8, u16)>;

    ghost use Rattle.std.specs.Iterator.{YieldsFirst, item_count};
    ghost use Rattle.pair.specs.Ways.{to_come};

    ghost next_gives = { YieldsFirst (to_come G.Graph) };

    ghost remaining = { item_count (to_come G.Graph) };

    fn next(&mut self) -> Option<Option<(u8, u16)>> {
        self.numbers.next().map(|k| self.graph.way(self.state, k))
    }
}
