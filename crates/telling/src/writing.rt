// The lines of a distinguishing formula, written into memory that is lent.
ghost use Rattle.telling.specs.Progress.{Laid};
ghost use Rattle.telling.specs.Telling.{Told};
ghost use Rattle.telling.specs.Unlike.{WhereUnlike};

use crate::choosing::Classified;
use crate::queue::Queue;
use hml::line::{Line, Modality};
use pair::graph::Graph;
use refine::byte_marks::ByteMarks;
use refine::classes::Classes;

// The lines do not fit.
#[derive(Clone, Copy, PartialEq, Eq, Debug)]
pub struct TooLong;

// What the memory holds where the lines do not fit.
const BLANK: Line = Line {
    modality: Modality::Must,
    action: 0,
    first: 0,
    count: 0,
};

impl<'a, G: Graph> Classified<'a, G> {
    // Writes the lines one by one, while they fit. Line i is that of pair i, and puts its children behind the pairs
    // that wait, so the pairs are gone through by number.
    fn write_lines(&self, s: u16, t: u16, lines: &mut [Line]) -> Result<u16, TooLong>
        ensures { WhereUnlike (G.Graph.means self.now.graph.now) self.now.classes.now s t (Laid (G.Graph.means self.now.graph.now) s t lines.old lines.new result) }
    {
        let mut queue = Queue::new(lines.len());
        queue.push((s, t))?;
        let mut marks = ByteMarks::new();
        let mut i = 0;
        while let Some(&(u, v)) = queue.pairs.get(usize::from(i)) {
            let given = queue.len();
            let choice = self.choose(u, v, &mut marks);
            queue.push_children(self.graph, choice.other(u, v), choice)?;
            lines[usize::from(i)] = choice.line(given, queue.len() - given);
            i += 1;
        }
        Ok(i)
    }
}

// Writes the lines of the distinguishing formula of s and t, and answers how many they are. Where they are more than
// the memory holds, or more than 4,096, the whole memory is made blank.
pub fn tell<G: Graph>(
    graph: &G,
    classes: &Classes,
    s: u16,
    t: u16,
    lines: &mut [Line],
) -> Result<u16, TooLong>
    ensures { WhereUnlike (G.Graph.means graph.now) classes.now s t (Told (G.Graph.means graph.now) s t lines.old lines.new result) }
{
    let written = Classified { graph, classes }.write_lines(s, t, lines);
    // no `inspect_err`: its contract does not say what the closure does to the lines
    if written.is_err() {
        lines.fill(BLANK);
    }
    written
}
