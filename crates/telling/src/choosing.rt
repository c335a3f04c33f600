// The line of a pair of states that are not bisimilar.
ghost use Rattle.std.specs.Prelude.{◌≡◌};
ghost use Rattle.hml.specs.Distinguishing.{line_of};
ghost use Rattle.telling.specs.Choosing.{other, paired, Chooses};
ghost use Rattle.telling.specs.Unlike.{WhereUnlike, first_unlike};

use hml::line::{Line, Modality};
use pair::graph::Graph;
use pair::ways::Ways;
use refine::byte_marks::ByteMarks;
use refine::classes::{Classes, STATES};
use refine::codes::Code;

// The move that a line is for: one of the first state under may, one of the second under must.
#[derive(Clone, Copy)]
pub(crate) struct Choice {
    pub(crate) modality: Modality,
    pub(crate) action: u8,
    pub(crate) target: u16,
}

impl Choice {
    // The choice of a move, by its action and its target.
    fn by(modality: Modality, step: (u8, u16)) -> Choice
        ensures { result ≡ record { modality = modality; action = step.0; target = step.1 } }
    {
        let (action, target) = step;
        Choice {
            modality,
            action,
            target,
        }
    }

    // Of the states of a pair, the one without the move.
    pub(crate) fn other(self, s: u16, t: u16) -> u16
        ensures { result ≡ other self.modality s t }
    {
        match self.modality {
            Modality::May => t,
            Modality::Must => s,
        }
    }

    // The pair of a child: the target of the move, beside a target of the other state.
    pub(crate) fn pair(self, target: u16) -> (u16, u16)
        ensures { result ≡ paired self.modality self.target target }
    {
        match self.modality {
            Modality::May => (self.target, target),
            Modality::Must => (target, self.target),
        }
    }

    // The line, where `given` lines are given out before its children.
    pub(crate) fn line(self, given: u16, count: u16) -> Line
        ensures { result ≡ line_of self.modality self.action given count }
    {
        let first = if count == 0 { 0 } else { given };
        Line {
            modality: self.modality,
            action: self.action,
            first,
            count,
        }
    }
}

// The first move of s that no move of t matches: none by the same action leads to a class of the same name.
fn first_unlike<G: Graph>(
    graph: &G,
    s: u16,
    t: u16,
    names: &[u16; STATES],
    marks: &mut ByteMarks,
) -> Option<(u8, u16)>
    ensures { result ≡ first_unlike (G.Graph.means graph.now) names.now s t }
{
    marks.clear();
    for step in Ways::of(graph, t).flatten() {
        marks.mark(Code::of(step, names));
    }
    Ways::of(graph, s)
        .flatten()
        .find(|step| !marks.has(Code::of(*step, names)))
}

// A system, and the classes of its states. The two states of a line go as two parameters, as a call of a bench hands
// them in, and a line may turn them round.
#[derive(Drop)]
pub(crate) struct Classified<'a, G> {
    pub(crate) graph: &'a G,
    pub(crate) classes: &'a Classes,
}

impl<'a, G: Graph> Classified<'a, G> {
    // The line of a pair, by the names of classes at the depth before the one at which its states part: the first move
    // of s that t does not match, and else of t that s does not match.
    pub(crate) fn choose(&self, s: u16, t: u16, marks: &mut ByteMarks) -> Choice
        ensures { WhereUnlike (G.Graph.means self.now.graph.now) self.now.classes.now s t (Chooses (G.Graph.means self.now.graph.now) s t result) }
    {
        let mut names = [0; STATES];
        // for states that are bisimilar the depth and the move are 0, of which nothing is promised: `tell` tests
        // nothing, and a none would only be handed on to it
        let depth = self
            .classes
            .parts_at(s, t)
            .map_or(0, |depth| depth.saturating_sub(1));
        self.classes.names_at(depth, &mut names);
        match first_unlike(self.graph, s, t, &names, marks) {
            Some(step) => Choice::by(Modality::May, step),
            None => {
                let step = first_unlike(self.graph, t, s, &names, marks);
                Choice::by(Modality::Must, step.unwrap_or((0, 0)))
            }
        }
    }
}
