// The classes of bisimilar states of a transition system, and the least depth at which two states disagree.
#![tactic(auto)]

ghost use Rattle.refine.specs.Classes.{Refined};

use crate::classes::{Classes, Parting, STATES};
use crate::level::Level;
use crate::marks::Marks;
use pair::graph::Graph;

pub mod byte_marks;
pub mod classes;
mod climb;
pub mod codes;
mod level;
mod levels;
pub mod marks;
mod round;
mod signature;

// The classes of the system. Each round finds the classes to one depth more, until they stay the same.
pub fn refine<G: Graph>(graph: &G) -> Classes
    ensures { Refined (G.Graph.means graph.now) result }
{
    let mut level = Level::first(graph);
    let mut partings = [Parting::default(); STATES];
    let mut marks = Marks::new();
    loop {
        let round = level.split(&mut marks);
        if round.fresh.is_empty() {
            return Classes {
                names: level.names,
                partings,
            };
        }
        level.part(&round, &mut partings);
        level = level.deeper(round);
    }
}
