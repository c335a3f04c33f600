// The record of a transition table.
ghost use Rattle.rows.specs.Answers.{transitions};
ghost use Rattle.table.specs.Index.{Indexes};

use crate::index::Index;
use rows::rows::Rows;

// The rows of a sheet, and the index of their moves.
#[derive(Drop)]
pub struct Table {
    pub(crate) rows: Rows,
    pub(crate) index: Index,
    ghost indexed: { Indexes (transitions rows) index },
}
