// The pairs of states whose lines wait to be written.
ghost use Rattle.std.specs.Prelude.{◌≡◌, ◌≤◌, min, [], ◌∷◌};
ghost use Rattle.arrayvec.specs.ArrayVec.{array_vec_len};

use crate::choosing::Choice;
use crate::writing::TooLong;
use arrayvec::ArrayVec;
use pair::graph::Graph;
use pair::ways::Ways;

// Pair i is that of line i. There are at most `limit`.
#[derive(Drop)]
pub(crate) struct Queue {
    pub(crate) pairs: ArrayVec<(u16, u16), 4096>,
    pub(crate) limit: usize,
    ghost most: { limit ≤ 4096 },
    ghost fits: { array_vec_len pairs ≤ limit },
}

impl Queue {
    ghost use Rattle.telling.specs.Choosing.{children_by};
    ghost use Rattle.telling.specs.Queueing.{Queued};

    // No pair waits. There is room for as many lines as the memory has, up to 4,096.
    pub(crate) fn new(room: usize) -> Queue
        ensures none { result.pairs.items ≡ [] }
        ensures limit { result.limit ≡ min room 4096 }
    {
        Queue {
            pairs: ArrayVec::new(),
            limit: room.min(4096),
        }
    }

    // How many pairs there are, those whose lines are written among them. By `as`, as it fits: `try_from` would give an
    // error that cannot come.
    pub(crate) fn len(&self) -> u16
        ensures { result ≡ array_vec_len self.now.pairs }
    {
        self.pairs.len() as u16
    }

    // One pair more.
    pub(crate) fn push(&mut self, pair: (u16, u16)) -> Result<(), TooLong>
        ensures { Queued self.old (pair ∷ []) self.new result }
    {
        if self.pairs.len() == self.limit {
            return Err(TooLong);
        }
        self.pairs.push(pair);
        Ok(())
    }

    // The children of the line that is chosen, where `state` is the one without the move.
    pub(crate) fn push_children<G: Graph>(
        &mut self,
        graph: &G,
        state: u16,
        choice: Choice,
    ) -> Result<(), TooLong>
        ensures { Queued self.old (children_by choice ((G.Graph.means graph.now).ways state)) self.new result }
    {
        for (action, target) in Ways::of(graph, state).flatten() {
            if action == choice.action {
                self.push(choice.pair(target))?;
            }
        }
        Ok(())
    }
}
