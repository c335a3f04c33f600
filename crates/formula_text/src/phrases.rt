// Phrases of formula text: readers that call each other, with fewer bytes unread at each turn.
ghost use Rattle.std.specs.Prelude.{◌≡◌, ℕ, ◌≤◌, Some, MatchResult};
ghost use Rattle.actions.specs.Actions.{number_of};
ghost use Rattle.hml.specs.declared.line.Modality.{Modality as AModality};
ghost use Rattle.grammar.specs.Machine.{act, await, done, initial, opener};
ghost use Rattle.formula_text.specs.Phrases.{here, ActionRead, Stops, Read, AndsRead, OrsRead, before_unary};

use crate::depth::{DEEPEST, Inside};
use crate::modal::{closing, entry_of};
use crate::reader::Reader;
use crate::refusal::TextRefusal;
use actions::action::Action;
use formula::entry::Entry;
use hml::line::Modality;

impl Reader<'_> {
    // Reads an action, after < or [.
    fn action(&mut self) -> Result<Action, TextRefusal>
        ensures { MatchResult result (λ x. ActionRead self.old self.new (number_of x)) (λ e. (m : AModality) (d : ℕ) → d ≤ 16 → Stops self.old d (await (act m)) e) }
    {
        match self.next_mark() {
            Some(b'*') => {
                self.take();
                Ok(Action::Silent)
            }
            Some(b'^') => {
                self.take();
                self.next_mark();
                Ok(Action::Send(self.letter()?))
            }
            _ => Ok(Action::Receive(self.letter()?)),
        }
    }

    // Reads tt or ff, of which the first letter stands here.
    fn constant(&mut self, holds: bool) -> Result<u8, TextRefusal>
        requires { here self.old ≡ Some (initial holds) }
        ensures { (d : ℕ) → d ≤ 16 → Read self.old self.new d before_unary done result }
    {
        let (letter, entry) = if holds {
            (b't', Entry::True)
        } else {
            (b'f', Entry::False)
        };
        self.begin()?;
        self.expect(letter)?;
        Ok(self.put(entry))
    }

    // Reads an action in its marks, of which the first stands here, and the phrase behind them.
    #[cycle(phrases)]
    fn modal(&mut self, modality: Modality, depth: &mut u8) -> Result<u8, TextRefusal>
        requires mark { here self.old ≡ Some (opener modality) }
        requires low { depth.old ≤ 16 }
        ensures depth { depth.new ≡ depth.old }
        ensures read { Read self.old self.new depth.old before_unary done result }
    {
        self.begin()?;
        let action = self.action()?;
        self.next_mark();
        self.expect(closing(modality))?;
        let part = self.unary(depth)?;
        Ok(self.put(entry_of(modality, u8::from(action), part)))
    }

    // Reads a phrase in round brackets, of which the first stands here.
    #[cycle(phrases)]
    fn bracketed(&mut self, depth: &mut u8) -> Result<u8, TextRefusal>
        requires mark { here self.old ≡ Some 40 }
        requires low { depth.old ≤ 16 }
        ensures depth { depth.new ≡ depth.old }
        ensures read { Read self.old self.new depth.old before_unary done result }
    {
        if *depth == DEEPEST {
            return Err(TextRefusal::TooDeep(self.cursor.place()));
        }
        self.take();
        *depth += 1;
        let inside = Inside(depth);
        let part = self.ors(inside.0)?;
        self.expect(b')')?;
        Ok(part)
    }

    // Reads a phrase that binds tightest.
    #[cycle(phrases)]
    fn unary(&mut self, depth: &mut u8) -> Result<u8, TextRefusal>
        requires { depth.old ≤ 16 }
        ensures depth { depth.new ≡ depth.old }
        ensures read { Read self.old self.new depth.old before_unary done result }
    {
        match self.next_mark() {
            Some(b't') => self.constant(true),
            Some(b'f') => self.constant(false),
            Some(b'<') => self.modal(Modality::May, depth),
            Some(b'[') => self.modal(Modality::Must, depth),
            Some(b'(') => self.bracketed(depth),
            _ => Err(self.malformed()),
        }
    }

    // Reads phrases joined by &, which group left, and the spaces behind them.
    #[cycle(phrases)]
    fn ands(&mut self, depth: &mut u8) -> Result<u8, TextRefusal>
        requires { depth.old ≤ 16 }
        ensures depth { depth.new ≡ depth.old }
        ensures read { AndsRead self.old self.new depth.old result }
    {
        let mut whole = self.unary(depth)?;
        while self.next_mark() == Some(b'&') {
            self.begin()?;
            let part = self.unary(depth)?;
            whole = self.put(Entry::And(whole, part));
        }
        Ok(whole)
    }

    // Reads phrases joined by |, which group left, and the spaces behind them.
    #[cycle(phrases)]
    pub(crate) fn ors(&mut self, depth: &mut u8) -> Result<u8, TextRefusal>
        requires { depth.old ≤ 16 }
        ensures depth { depth.new ≡ depth.old }
        ensures read { OrsRead self.old self.new depth.old result }
    {
        let mut whole = self.ands(depth)?;
        while self.cursor.peek() == Some(b'|') {
            self.begin()?;
            let part = self.ands(depth)?;
            whole = self.put(Entry::Or(whole, part));
        }
        Ok(whole)
    }
}
