// A whole script of calls, from the opening of a bench on.
ghost use Rattle.std.specs.Prelude.{◌≡◌, List};
ghost use Rattle.lts.specs.Joined.{joined};
ghost use Rattle.law.specs.History.{Call, Phase, History, Lawful};
ghost use Rattle.history.specs.Noting.{WrittenDown};

use crate::calls::{Ending, Script};
use crate::lists::enter_all;
use crate::rounds::{run_round, run_rounds};
use bench::open_bench::OpenBench;
use lts::System;

// Opens a bench over two systems, runs the calls of the script on it, and writes beside each what it answered. The
// systems are given back.
pub fn run<L: System, R: System>(left: L, right: R, script: &mut Script) -> (L, R)
    ensures systems { (result.0 ≡ left) × (result.1 ≡ right) }
    ensures lawful { (φ : Phase) × (h : List Call) × WrittenDown script.old script.new φ h × History (joined (L.System.means left) (R.System.means right)) φ h × Lawful (joined (L.System.means left) (R.System.means right)) h }
{
    let bench = OpenBench::open(left, right);
    let mut bench = run_rounds(bench, script.rounds.as_mut_slice());
    match &mut script.ending {
        Ending::Open(lists) => {
            enter_all(&mut bench, lists.as_mut_slice());
            bench.close()
        }
        Ending::Settled(round) => run_round(bench, round).reopen().close(),
    }
}
