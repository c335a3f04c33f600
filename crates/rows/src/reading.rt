// How the rows of a table are read from its sheet.
ghost use Rattle.std.specs.Prelude.{◌≡◌, ℕ, ◌<◌, ◌≤◌, true, false, List, [], ◌∷◌, ◌++◌, map, length, IfOk, MatchResult};
ghost use Rattle.rows.specs.Answers.{transitions, Answered};
ghost use Rattle.rows.specs.Held.{held, transition_of, RowHeld};
ghost use Rattle.rows.specs.Reading.{RowRead, Gone, Begun, HeaderOf, HeaderRead, RowsRead};
ghost use Rattle.rows.specs.Verdict.{AllSkipped, OneVerdict};
ghost use Rattle.rows.specs.declared.refusal.Refusal.{Refusal};

use crate::columns::Columns;
use crate::fields::Fields;
use crate::refusal::Refusal;
use crate::row::Row;
use crate::rows::Rows;
use crate::state::State;
use actions::action::Action;
use bounded::Bounded;
use sheet::line::{Line, Numbered};
use sheet::lines::Lines;
use std::alloc::{AllocError, Global};

impl Columns {
    // The row that the fields hold in these columns; none where one of them is bad.
    fn row_of(self, fields: &Fields) -> Option<Row>
        ensures { RowHeld self (held fields.now) result }
    {
        let from = State::read(fields.part(self.from)?)?;
        let action = Action::read(fields.part(self.act)?)?;
        let to = State::read(fields.part(self.to)?)?;
        Some(Row { from, action, to })
    }

    // The row of a line.
    fn read_row(self, line: &[u8], number: usize) -> Result<Row, Refusal>
        ensures { RowRead self line.now number result }
    {
        let fields = Fields::split(line).ok_or(Refusal::Width(number))?;
        if fields.len() != self.width {
            return Err(Refusal::Width(number));
        }
        self.row_of(&fields).ok_or(Refusal::BadField(number))
    }
}

// The header with its number; none where the line is something else.
fn header_of<'a>(next: Numbered<'a>) -> Option<(usize, &'a [u8])>
    ensures { HeaderOf next.entry result }
{
    match next.line {
        Line::Header(line) => Some((next.number, line)),
        _ => None,
    }
}

// The columns of the first line that is neither empty nor a remark.
fn find_header(lines: &mut Lines) -> Result<Columns, Refusal>
    requires { lines.old.headed ≡ false }
    ensures { (s : List ℕ) → Gone s lines.old AllSkipped → HeaderRead s lines.new result }
{
    let (number, line) = lines.find_map(header_of).ok_or(Refusal::NoHeader)?;
    Columns::read(line).ok_or(Refusal::BadHeader(number))
}

// Each sheet is a table of one list of rows, or is refused in one way.
pub fn verdicts_are_one()
    ensures { OneVerdict }
{}

impl Rows {
    // No rows, with the memory for all that a sheet can hold.
    pub fn new(heap: Global) -> Result<Rows, AllocError>
        ensures { IfOk result (λ rows. transitions rows ≡ []) }
    {
        Ok(Rows {
            items: Bounded::new(heap)?,
        })
    }

    // The rows, in the order of the sheet.
    pub fn as_slice(&self) -> &[Row]
        ensures value { map transition_of result.now ≡ transitions self.now }
        ensures bound { length result.now ≤ 2048 }
    {
        self.items.as_slice()
    }

    // Adds the row of a line, where there is room.
    fn add(&mut self, row: Row, number: usize) -> Result<(), Refusal>
        ensures { MatchResult result (λ _. (length self.old.items < 2048) × (self.new.items ≡ self.old.items ++ row ∷ [])) (λ e. (e ≡ Refusal.TooMany number) × (length self.old.items ≡ 2048)) }
    {
        self.items.push(row).map_err(|_| Refusal::TooMany(number))
    }

    // Adds the rows behind the header.
    fn read_rows(&mut self, lines: Lines, columns: Columns) -> Result<(), Refusal>
        requires { lines.headed ≡ true }
        ensures { (s : List ℕ) → Begun s lines.entry columns self.old.items → RowsRead s self.new.items result }
    {
        for next in lines {
            if let Line::Row(line) = next.line {
                let row = columns.read_row(line, next.number)?;
                self.add(row, next.number)?;
            }
        }
        Ok(())
    }

    // Adds the rows of a sheet.
    fn read_sheet(&mut self, sheet: &[u8]) -> Result<(), Refusal>
        requires { self.old.items ≡ [] }
        ensures { RowsRead sheet.now self.new.items result }
    {
        let mut lines = Lines::new(sheet);
        let columns = find_header(&mut lines)?;
        self.read_rows(lines, columns)
    }

    // Reads the rows of a sheet in place of those held; a refused sheet leaves none. It allocates nothing.
    pub fn read(&mut self, sheet: &[u8]) -> Result<(), Refusal>
        ensures { Answered sheet.now (transitions self.new) result }
    {
        self.items.clear();
        let read = self.read_sheet(sheet);
        // no `inspect_err`: its contract does not say what the closure does to the rows
        if read.is_err() {
            self.items.clear();
        }
        read
    }
}
