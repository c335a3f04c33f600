// The entries that a bench holds.
use formula::entry::Entry;
use std::marker::Model;

// At most 128 entries, in order, each of which names only earlier ones and an action up to 52. Those from `count` on are
// not held, and are true, so that what is held gives the fields back; an `ArrayVec` in their place could not be copied.
#[derive(Clone, Copy)]
pub struct Held {
    pub(crate) entries: [Entry; 128],
    pub(crate) count: u8,
}

impl Model for Held {
    ghost use Rattle.std.specs.Prelude.{◌≡◌, ◌-◌, ◌≤◌, List, ◌++◌, length, take, drop, replicate};
    ghost use Rattle.formula.specs.Entries.{AllSound};
    ghost use Rattle.formula.specs.declared.entry.Entry.{Entry as Item};
    ghost use Rattle.formula.specs.declared.entry.Entry.TheVariants.{True};
    ghost use Rattle.entering.specs.Padding.{padded_again, counted_again};

    ghost Value = { List Item };

    ghost view = { λ h. take h.count h.entries };

    ghost invariant = { λ h. (h.count ≤ 128) × (length h.entries ≡ 128) × (drop h.count h.entries ≡ replicate (128 - h.count) True) × AllSound (take h.count h.entries) };

    ghost inverse = { λ es. record { entries = es ++ replicate (128 - length es) True; count = length es } };

    ghost inverse_ok = { λ h i k. record {
      entries = padded_again h.count h.entries i.0 i.1 i.2 k;
      count = counted_again h.count h.entries i.0 i.1 k;
    } };
}
