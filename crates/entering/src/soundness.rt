// Which lists of entries are sound.
ghost use Rattle.std.specs.Prelude.{◌≡◌, ◌<◌, length, MatchBool, MatchOption, slice_index_or};
ghost use Rattle.formula.specs.Entries.{Sound, SoundBelow, AllSound};
ghost use Rattle.formula.specs.declared.entry.Entry.TheVariants.{True};

use formula::entry::Entry;

const ACTIONS: u8 = 52;

// Whether an entry names only earlier ones than place n, and an action up to 52.
fn is_sound(n: usize, entry: Entry) -> bool
    ensures { MatchBool result (Sound n entry) (¬ Sound n entry) }
{
    match entry {
        Entry::True | Entry::False => true,
        Entry::And(i, j) | Entry::Or(i, j) => usize::from(i) < n && usize::from(j) < n,
        Entry::May(a, i) | Entry::Must(a, i) => a <= ACTIONS && usize::from(i) < n,
    }
}

// The place of the first entry that is not sound.
pub(crate) fn first_unsound(list: &[Entry]) -> Option<usize>
    ensures { MatchOption result (AllSound list.now) (λ i. (i < length list.now) × SoundBelow i list.now × ¬ Sound i (slice_index_or list.now i True)) }
{
    list.iter()
        .enumerate()
        .find_map(|(n, entry)| (!is_sound(n, *entry)).then_some(n))
}
