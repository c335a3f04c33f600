// The signature of a state: for each of its moves, the action and the class of the target, as one number.
ghost use Rattle.std.specs.Prelude.{◌≡◌};
ghost use Rattle.std.specs.List.{list_all};
ghost use Rattle.refine.specs.Codes.{code_of, moves};
ghost use Rattle.refine.specs.Marks.{marked};
ghost use Rattle.refine.specs.Signatures.{weight_of, Signed, passes};

use crate::codes::Code;
use crate::level::Level;
use crate::marks::Marks;
use pair::graph::Graph;
use pair::ways::Ways;

impl Code {
    // The weight of a code, from 1 on, such that two signatures seldom weigh the same.
    fn weight(self) -> u64
        ensures { result ≡ weight_of self.number }
    {
        // by `as`, since there is no `From` of the one for the other
        let x = (self.number as u64 * 2654435761 + 40503) % 4294967291;
        x * x % 4294967291 + 1
    }
}

impl<'a, G: Graph> Level<'a, G> {
    // Marks the signature of the state, and weighs it. The weight is no part of the marks, which telling uses without
    // one.
    pub(crate) fn sign(&self, state: u16, marks: &mut Marks) -> u64
        ensures { Signed self.now.names (moves ((G.Graph.means self.now.graph.now).ways state)) marks.new result }
    {
        marks.clear();
        let mut print = 0;
        for step in Ways::of(self.graph, state).flatten() {
            let code = Code::of(step, &self.names);
            if !marks.mark(code) {
                print += code.weight();
            }
        }
        print
    }

    // Whether each code of the state is marked.
    fn within(&self, state: u16, marks: &Marks) -> bool
        ensures { result ≡ list_all (λ p. marked marks.now (code_of self.now.names p)) (moves ((G.Graph.means self.now.graph.now).ways state)) }
    {
        Ways::of(self.graph, state)
            .flatten()
            .all(|step| marks.has(Code::of(step, &self.names)))
    }

    // Whether `other`, whose signature weighs `weight`, has the signature that is marked and that weighs `print`.
    pub(crate) fn same(&self, other: u16, weight: u64, print: u64, marks: &Marks) -> bool
        ensures { result ≡ passes (G.Graph.means self.now.graph.now) self.now.names marks.now print other weight }
    {
        weight == print && self.within(other, marks)
    }
}
