// The classes of states to a given depth, from the tree of the separations.
ghost use Rattle.std.specs.Prelude.{◌≡◌, ◌<◌, ◌≤◌, slice_index};
ghost use Rattle.lts.specs.Lts.{Lts};
ghost use Rattle.pair.specs.Wide.{Wide};
ghost use Rattle.refine.specs.Classes.{Classed, Refined, parting_at};

use crate::classes::{Classes, STATES};

impl Classes {
    // The state whose class state s is in to this depth: the name of s, or the name from which s parted later, and s
    // itself where it is a name already.
    fn leader(&self, s: u16, depth: u16) -> u16
        ensures named { slice_index self.now.names s < s → result ≡ slice_index self.now.names s }
        ensures itself { s ≤ slice_index self.now.names s → (parting_at self.now.partings s).depth ≤ depth → result ≡ s }
        ensures parent { s ≤ slice_index self.now.names s → depth < (parting_at self.now.partings s).depth → result ≡ (parting_at self.now.partings s).parent }
    {
        let name = self.name(s);
        if name < s {
            return name;
        }
        let parting = self.parting(s);
        if parting.depth <= depth {
            s
        } else {
            parting.parent
        }
    }

    // The name of each state's class to this depth.
    pub fn names_at(&self, depth: u16, names: &mut [u16; STATES])
        ensures { (m : Lts) → Wide m → Refined m self.now → Classed m depth names.new }
    {
        // the names below are read while the list is written, so the states are gone through by number; their count
        // fits by its value, so it is cast by `as`
        for s in 0..STATES as u16 {
            let leader = self.leader(s, depth);
            names[usize::from(s)] = if leader < s {
                names[usize::from(leader)]
            } else {
                s
            };
        }
    }
}
