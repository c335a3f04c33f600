// The classes of the states of a system to a depth.
ghost use Rattle.std.specs.Prelude.{◌≡◌, replicate};
ghost use Rattle.refine.specs.Classes.{Classed};

use crate::classes::STATES;
use pair::graph::Graph;

// Each state has the name of its class to the depth.
#[derive(Drop)]
pub(crate) struct Level<'a, G: Graph> {
    pub(crate) graph: &'a G,
    pub(crate) names: [u16; STATES],
    pub(crate) depth: u16,
    ghost classed: { ∥ Classed (G.Graph.means graph.now) depth names ∥₁ },
}

impl<'a, G: Graph> Level<'a, G> {
    // To depth 0 all states agree.
    pub(crate) fn first(graph: &'a G) -> Level<'a, G>
        ensures graph { result.graph.now ≡ graph.now }
        ensures names { result.names ≡ replicate 2048 0 }
        ensures depth { result.depth ≡ 0 }
    {
        Level {
            graph,
            names: [0; STATES],
            depth: 0,
        }
    }
}
