// Rounds of calls: lists entered, the bench settled, and questions asked.
ghost use Rattle.law.specs.History.Phase.{Open, Settled};
ghost use Rattle.history.specs.Noting.{Gone, Back, InTurn};
ghost use Rattle.history.specs.Running.{Took};

use crate::asking::ask_all;
use crate::calls::Round;
use crate::lists::enter_all;
use bench::open_bench::OpenBench;
use bench::settled_bench::SettledBench;
use lts::System;

// Runs a round on an open bench, which it leaves settled.
pub(crate) fn run_round<L: System, R: System>(
    mut bench: OpenBench<L, R>,
    round: &mut Round,
) -> SettledBench<L, R>
    ensures { Took L.System.means R.System.means Open bench Settled result (Gone round.old round.new) }
{
    enter_all(&mut bench, round.lists.as_mut_slice());
    let mut bench = bench.settle();
    ask_all(&mut bench, round.questions.as_mut_slice());
    bench
}

// Runs rounds, and reopens the bench after each: a loop of its own, as `enter_all` says.
pub(crate) fn run_rounds<L: System, R: System>(
    mut bench: OpenBench<L, R>,
    rounds: &mut [Round],
) -> OpenBench<L, R>
    ensures { Took L.System.means R.System.means Open bench Open result (InTurn Back rounds.old rounds.new) }
{
    for round in rounds.iter_mut() {
        bench = run_round(bench, round).reopen();
    }
    bench
}
