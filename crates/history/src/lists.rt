// Lists entered on an open bench, with their answers written beside them.
ghost use Rattle.law.specs.History.Phase.{Open};
ghost use Rattle.history.specs.Noting.{Entered, InTurn};
ghost use Rattle.history.specs.Running.{Took};

use crate::calls::Entering;
use bench::open_bench::OpenBench;
use lts::System;

fn enter<L: System, R: System>(bench: &mut OpenBench<L, R>, call: &mut Entering)
    ensures { Took L.System.means R.System.means Open bench.old Open bench.new (Entered call.old call.new) }
{
    call.answer = Some(bench.enter(call.list.as_slice()));
}

// Enters each list in turn. A loop of its own, as that over questions and that over rounds: one function over what is
// done at each would have to say of a closure what each of them says of its calls.
pub(crate) fn enter_all<L: System, R: System>(bench: &mut OpenBench<L, R>, calls: &mut [Entering])
    ensures { Took L.System.means R.System.means Open bench.old Open bench.new (InTurn Entered calls.old calls.new) }
{
    for call in calls.iter_mut() {
        enter(bench, call);
    }
}
