// The least depth at which two states disagree, by the tree of the separations.
ghost use Rattle.std.specs.Prelude.{◌≡◌, ℕ, ◌<◌, ◌≤◌, ◌≢◌, slice_index};
ghost use Rattle.lts.specs.Lts.{Lts};
ghost use Rattle.hml.specs.Distinguishing.{FirstApart};
ghost use Rattle.pair.specs.Wide.{Wide};
ghost use Rattle.refine.specs.Apart.{PartsAt};
ghost use Rattle.refine.specs.Classes.{Refined, parting_at};
ghost use Rattle.refine.specs.Climbs.{IsName};

use crate::classes::{Classes, Parting};

impl Classes {
    // The name of the state's class: 0 for a state over 2,047. A bench tests the states that it asks of, and here the
    // places of the array are gone through, so a none would be taken apart and never met.
    pub fn name(&self, state: u16) -> u16
        ensures value { result ≡ slice_index self.now.names state }
        ensures past { 2048 ≤ state → result ≡ 0 }
    {
        self.names.get(usize::from(state)).copied().unwrap_or(0)
    }

    // How a name parted: as 0 at depth 0 for a name over 2,047, as `name` has it.
    pub(crate) fn parting(&self, name: u16) -> Parting
        ensures { result ≡ parting_at self.now.partings name }
    {
        self.partings
            .get(usize::from(name))
            .copied()
            .unwrap_or_default()
    }

    // The least depth at which two names disagree: the least of those at which they part on the way to a common name.
    fn climb(&self, first: u16, second: u16) -> u16
        ensures { (m : Lts) → Refined m self.now → IsName m self.now first → IsName m self.now second → (first ≢ second) → FirstApart m result first second }
    {
        let mut high = first.max(second);
        let mut low = first.min(second);
        let mut least = self.parting(high).depth;
        while low < high {
            let parting = self.parting(high);
            // where the classes are refined, the parent of a name is below it
            let parent = parting.parent.min(high - 1);
            least = least.min(parting.depth);
            high = parent.max(low);
            low = parent.min(low);
        }
        least
    }

    // The least depth at which two states of the system disagree, and none where they are bisimilar.
    pub fn parts_at(&self, s: u16, t: u16) -> Option<u16>
        ensures { (m : Lts) → Wide m → Refined m self.now → s < m.states → t < m.states → PartsAt m s t result }
    {
        let first = self.name(s);
        let second = self.name(t);
        if first == second {
            return None;
        }
        Some(self.climb(first, second))
    }
}
