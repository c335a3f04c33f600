// Questions asked of a settled bench, with their answers written beside them.
ghost use Rattle.law.specs.History.Phase.{Settled};
ghost use Rattle.history.specs.Noting.{Asked, InTurn};
ghost use Rattle.history.specs.Running.{Took};

use crate::calls::Question;
use bench::settled_bench::SettledBench;
use lts::System;

fn ask<L: System, R: System>(bench: &mut SettledBench<L, R>, question: &mut Question)
    ensures { Took L.System.means R.System.means Settled bench.old Settled bench.new (Asked question.old question.new) }
{
    match question {
        Question::Rule(call) => {
            call.answer = Some(bench.rule(call.formula, call.state));
        }
        Question::Reach(call) => {
            call.answer = Some(bench.reach(call.formula, call.state, call.path.as_mut_slice()));
        }
        Question::Alike(call) => {
            call.answer = Some(bench.alike(call.first, call.second));
        }
        Question::Tell(call) => {
            call.answer = Some(bench.tell(call.first, call.second, call.lines.as_mut_slice()));
        }
    }
}

// Asks each question in turn: a loop of its own, as `enter_all` says.
pub(crate) fn ask_all<L: System, R: System>(
    bench: &mut SettledBench<L, R>,
    questions: &mut [Question],
)
    ensures { Took L.System.means R.System.means Settled bench.old Settled bench.new (InTurn Asked questions.old questions.new) }
{
    for question in questions.iter_mut() {
        ask(bench, question);
    }
}
