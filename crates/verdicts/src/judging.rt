// Judging the formulas of a list at every state.
ghost use Rattle.std.specs.Prelude.{◌≡◌, ◌<◌, ◌≤◌, length};
ghost use Rattle.std.specs.List.{list_any, list_all};
ghost use Rattle.formula.specs.Entries.{AllSound};
ghost use Rattle.verdicts.specs.Words.{says, Judged};
ghost use Rattle.verdicts.specs.Values.{goes, stays, value_of, EntryJudged};

use crate::bits::with_bit;
use crate::words::Verdicts;
use formula::entry::Entry;
use pair::graph::Graph;
use pair::ways::Ways;

impl Verdicts {
    // Whether the way is a move by the action to a state where the formula holds. A function, as `stays` is, so that a
    // clause can name what the closure over the ways tests; the action and the formula are what an entry names.
    fn goes(&self, way: Option<(u8, u16)>, action: u8, formula: u8) -> bool
        ensures { result ≡ goes action (says self.now.words formula) way }
    {
        way.is_some_and(|(by, target)| by == action && self.holds(formula, target))
    }

    // Whether the way is no move by the action, or leads to a state where the formula holds.
    fn stays(&self, way: Option<(u8, u16)>, action: u8, formula: u8) -> bool
        ensures { result ≡ stays action (says self.now.words formula) way }
    {
        way.is_none_or(|(by, target)| by != action || self.holds(formula, target))
    }

    // Whether some move of the state by the action leads to a state where the formula holds.
    fn may<G: Graph>(&self, graph: &G, state: u16, action: u8, formula: u8) -> bool
        ensures { result ≡ list_any (goes action (says self.now.words formula)) ((G.Graph.means graph.now).ways state) }
    {
        Ways::of(graph, state).any(|way| self.goes(way, action, formula))
    }

    // Whether every move of the state by the action leads to a state where the formula holds.
    fn must<G: Graph>(&self, graph: &G, state: u16, action: u8, formula: u8) -> bool
        ensures { result ≡ list_all (stays action (says self.now.words formula)) ((G.Graph.means graph.now).ways state) }
    {
        Ways::of(graph, state).all(|way| self.stays(way, action, formula))
    }

    // What the entry says of the state, by the verdicts of its parts.
    fn value<G: Graph>(&self, graph: &G, item: Entry, state: u16) -> bool
        ensures { result ≡ value_of (G.Graph.means graph.now) (says self.now.words) item state }
    {
        match item {
            Entry::True => true,
            Entry::False => false,
            Entry::And(i, j) => self.holds(i, state) && self.holds(j, state),
            Entry::Or(i, j) => self.holds(i, state) || self.holds(j, state),
            Entry::May(action, i) => self.may(graph, state, action, i),
            Entry::Must(action, i) => self.must(graph, state, action, i),
        }
    }

    // Writes the verdict of one entry, as formula `number`, at every state.
    fn judge_entry<G: Graph>(&mut self, graph: &G, item: Entry, number: u8)
        requires { number < 128 }
        ensures { EntryJudged (G.Graph.means graph.now) item number (G.Graph.means graph.now).states self.old.words self.new.words }
    {
        // an index, since a verdict is read from the words of other states as the word of one is written
        for s in 0..graph.states() {
            let verdict = self.value(graph, item, s);
            let word = &mut self.words[usize::from(s)];
            *word = with_bit(*word, number, verdict);
        }
    }

    // Writes the verdict of each entry, under its place in the list, at every state. It judges no more than the first
    // 128 entries. An entry may be judged wrongly where it, or one that it is made of, names an entry that is not
    // earlier.
    pub fn judge<G: Graph>(&mut self, graph: &G, entries: &[Entry])
        ensures { AllSound entries.now → length entries.now ≤ 128 → Judged (G.Graph.means graph.now) entries.now self.new.words }
    {
        for (i, item) in (0..128u8).zip(entries) {
            self.judge_entry(graph, *item, i);
        }
    }
}
