// The lines of a sheet, one after the other.
ghost use Rattle.std.specs.Prelude.{◌≤◌};
ghost use Rattle.sheet.specs.Cursors.{place};

use crate::cursor::Cursor;

// Where the next line begins, how many lines are read, and whether the header is among them. `enumerate` over all lines
// would be one more iterator for the count, which is no plainer. What a line is depends on the lines before it, so the
// flag is the state of the reader.
#[derive(Drop)]
pub struct Lines<'a> {
    pub(crate) cursor: Cursor<'a>,
    pub(crate) count: usize,
    pub(crate) headed: bool,
    ghost counted: { count ≤ place cursor },
}
