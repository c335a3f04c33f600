// The calls of a settled bench.
ghost use Rattle.std.specs.Prelude.{◌≡◌, ◌<◌, ◌↔◌, length, IsTrue, MatchResult};
ghost use Rattle.hml.specs.Bisimilarity.{Bisimilar};
ghost use Rattle.law.specs.Answers.{Ruled, Reached, Compared, Told};
ghost use Rattle.law.specs.History.Call.{rule as ruling, reach as reaching, alike as comparing, tell as telling};
ghost use Rattle.bench.specs.Bench.{system};
ghost use Rattle.bench.specs.Keeping.{SettledTakes, Reopens};

use crate::open_bench::OpenBench;
use crate::settled_bench::SettledBench;
use hml::line::Line;
use hml::step::Step;
use law::refusals::{AlikeRefusal, ReachRefusal, RuleRefusal, TellRefusal};
use lts::System;
use pair::graph::Graph;
use runs::searching::search;
use telling::writing::tell;

impl<L: System, R: System> SettledBench<L, R> {
    // Tests a formula and a state, as rule and reach do.
    fn test_formula(&self, formula: u8, state: u16) -> Result<(), RuleRefusal>
        ensures { let m = system L.System.means R.System.means self.now in MatchResult result (λ _. (formula < length self.now.entries) × (formula < 128) × (state < m.states)) (λ e. Ruled m self.now.entries formula state (Err e)) }
    {
        if formula >= self.held.len() {
            return Err(RuleRefusal::NoFormula);
        }
        if state >= self.pair.states() {
            return Err(RuleRefusal::NoState);
        }
        Ok(())
    }

    // Tests two states, as alike and tell do.
    fn test_states(&self, s: u16, t: u16) -> Result<(), AlikeRefusal>
        ensures { let m = system L.System.means R.System.means self.now in MatchResult result (λ _. (s < m.states) × (t < m.states)) (λ e. Compared m s t (Err e)) }
    {
        let states = self.pair.states();
        if s >= states || t >= states {
            return Err(AlikeRefusal::NoState);
        }
        Ok(())
    }

    // Whether two states are bisimilar: of one class.
    fn one_class(&self, s: u16, t: u16) -> bool
        ensures { let m = system L.System.means R.System.means self.now in s < m.states → t < m.states → IsTrue result ↔ Bisimilar m s t }
    {
        self.inner.classes.name(s) == self.inner.classes.name(t)
    }

    // Whether the formula holds at the state.
    pub fn rule(&self, formula: u8, state: u16) -> Result<bool, RuleRefusal>
        ensures answer { Ruled (system L.System.means R.System.means self.now) self.now.entries formula state result }
        ensures lawful { SettledTakes L.System.means R.System.means self.now self.now (ruling formula state result) }
    {
        self.test_formula(formula, state)?;
        Ok(self.inner.verdicts.holds(formula, state))
    }

    // The fewest moves from the state to one where the formula holds, with the run in the path; none where no run
    // leads to one.
    pub fn reach(
        &mut self,
        formula: u8,
        state: u16,
        path: &mut [Step],
    ) -> Result<Option<u16>, ReachRefusal>
        ensures same { self.new ≡ self.old }
        ensures answer { Reached (system L.System.means R.System.means self.old) self.old.entries formula state path.old path.new result }
        ensures lawful { SettledTakes L.System.means R.System.means self.old self.new (reaching formula state path.old path.new result) }
    {
        self.test_formula(formula, state)?;
        search(
            &self.pair,
            &self.inner.verdicts,
            formula,
            state,
            &mut self.inner.distances,
            path,
        )
        .map_err(|_| ReachRefusal::PathShort)
    }

    // Whether the two states are bisimilar.
    pub fn alike(&self, s: u16, t: u16) -> Result<bool, AlikeRefusal>
        ensures answer { Compared (system L.System.means R.System.means self.now) s t result }
        ensures lawful { SettledTakes L.System.means R.System.means self.now self.now (comparing s t result) }
    {
        self.test_states(s, t)?;
        Ok(self.one_class(s, t))
    }

    // The number of lines of a formula that holds at s and fails at t, which are written first into the memory. Where
    // they do not fit, every line becomes must, 0, 0, 0.
    pub fn tell(&self, s: u16, t: u16, lines: &mut [Line]) -> Result<u16, TellRefusal>
        ensures answer { Told (system L.System.means R.System.means self.now) s t lines.old lines.new result }
        ensures lawful { SettledTakes L.System.means R.System.means self.now self.now (telling s t lines.old lines.new result) }
    {
        self.test_states(s, t)?;
        if self.one_class(s, t) {
            return Err(TellRefusal::Alike);
        }
        tell(&self.pair, &self.inner.classes, s, t, lines).map_err(|_| TellRefusal::TooLong)
    }

    // An open bench again, with the systems and entries kept.
    pub fn reopen(self) -> OpenBench<L, R>
        ensures same { result ≡ self }
        ensures lawful { Reopens L.System.means R.System.means self result }
    {
        let SettledBench {
            pair,
            held,
            inner: _,
        } = self;
        OpenBench { pair, held }
    }
}
