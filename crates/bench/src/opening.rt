// The calls of an open bench.
ghost use Rattle.std.specs.Prelude.{◌≡◌, []};
ghost use Rattle.entering.specs.Held.{HeldAfter};
ghost use Rattle.law.specs.Answers.{Entered};
ghost use Rattle.law.specs.History.Call.{enter as entering};
ghost use Rattle.law.specs.History.Phase.{Open};
ghost use Rattle.bench.specs.Keeping.{Kept, OpenTakes, Settles};

use crate::inner::Inner;
use crate::open_bench::OpenBench;
use crate::settled_bench::SettledBench;
use entering::held::Held;
use formula::entry::Entry;
use law::refusals::EnterRefusal;
use lts::System;
use pair::pair::Pair;
use refine::refine;
use verdicts::words::Verdicts;

impl<L: System, R: System> OpenBench<L, R> {
    // A bench over two systems, with no entries.
    pub fn open(left: L, right: R) -> OpenBench<L, R>
        ensures systems { (result.left ≡ left) × (result.right ≡ right) }
        ensures kept { Kept L.System.means R.System.means Open result [] }
    {
        OpenBench {
            pair: Pair { left, right },
            held: Held::new(),
        }
    }

    // Enters a list of entries behind those held, each entry number in it raised by their count, and answers the number
    // of its last entry. After a refusal nothing has changed.
    pub fn enter(&mut self, list: &[Entry]) -> Result<u8, EnterRefusal>
        ensures answer { Entered self.old.entries list.now result }
        ensures held { HeldAfter self.old.entries list.now result self.new.entries }
        ensures systems { (self.new.left ≡ self.old.left) × (self.new.right ≡ self.old.right) }
        ensures lawful { OpenTakes L.System.means R.System.means self.old self.new (entering list.now result) }
    {
        self.held.enter(list)
    }

    // Ends the bench, and gives its systems back.
    pub fn close(self) -> (L, R)
        ensures { (result.0 ≡ self.left) × (result.1 ≡ self.right) }
    {
        let OpenBench { pair, held: _ } = self;
        let Pair { left, right } = pair;
        (left, right)
    }

    // Judges every entry at every state, and finds the classes of bisimilar states.
    pub fn settle(self) -> SettledBench<L, R>
        ensures same { result ≡ self }
        ensures lawful { Settles L.System.means R.System.means self result }
    {
        let OpenBench { pair, held } = self;
        let mut verdicts = Verdicts::new();
        verdicts.judge(&pair, held.as_slice());
        let classes = refine(&pair);
        let inner = Inner {
            verdicts,
            classes,
            distances: [None; 2048],
        };
        SettledBench { pair, held, inner }
    }
}
