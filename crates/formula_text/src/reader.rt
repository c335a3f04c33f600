// What is read of a text, and what it has given.
ghost use Rattle.std.specs.Prelude.{◌≤◌};
ghost use Rattle.arrayvec.specs.ArrayVec.{array_vec_len};

use arrayvec::ArrayVec;
use formula::entry::Entry;
use sheet::cursor::Cursor;

// The most entries of a formula.
pub(crate) const MOST: usize = 128;

// The entries of the phrases that are read whole, and how many entries have begun, theirs among them.
#[derive(Drop)]
pub(crate) struct Reader<'a> {
    pub(crate) cursor: Cursor<'a>,
    pub(crate) entries: ArrayVec<Entry, 128>,
    pub(crate) begun: u8,
    pub(crate) limit: u8,
    ghost few: { begun ≤ limit },
    ghost most: { limit ≤ 128 },
    ghost listed: { array_vec_len entries ≤ begun },
}
