// How a table record is made and read.
ghost use Rattle.std.specs.Prelude.{◌≡◌, IfOk};
ghost use Rattle.table.specs.Answers.{meaning, Read};
ghost use Rattle.table.specs.Meaning.{still};

use crate::index::Index;
use crate::table::Table;
use rows::refusal::Refusal;
use rows::rows::Rows;
use std::alloc::{AllocError, Global};

impl Table {
    // A record of one state without ways, with the memory for any table.
    pub fn new(heap: Global) -> Result<Table, AllocError>
        ensures { IfOk result (λ t. meaning t ≡ still) }
    {
        let rows = Rows::new(heap)?;
        let index = Index::none();
        Ok(Table { rows, index })
    }

    // Reads a sheet in place of what the record held. It allocates nothing.
    pub fn read(&mut self, sheet: &[u8]) -> Result<(), Refusal>
        ensures { Read sheet.now (meaning self.new) result }
    {
        let read = self.rows.read(sheet);
        self.index.put(&self.rows);
        read
    }
}
