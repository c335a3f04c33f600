// The rows of a table, in the order of its sheet.
ghost use Rattle.std.specs.Prelude.{◌≤◌, length};

use crate::row::Row;
use bounded::Bounded;

// At most 2,048 rows, with the memory for all of them.
#[derive(Drop)]
pub struct Rows {
    pub(crate) items: Bounded<Row, 2048>,
    ghost few: { length items ≤ 2048 },
}
