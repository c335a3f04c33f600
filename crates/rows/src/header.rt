// The header of a table.
ghost use Rattle.std.specs.Option.{MatchOption};
ghost use Rattle.rows.specs.Fields.{fields_of};
ghost use Rattle.rows.specs.Format.{IsHeader};
ghost use Rattle.rows.specs.declared.columns.Columns.{Columns as Meaning};

use crate::columns::Columns;
use crate::fields::Fields;

impl Columns {
    // The columns that a header names; none where it breaks a rule.
    pub(crate) fn read(line: &[u8]) -> Option<Columns>
        ensures { MatchOption result ((c : Meaning) → IsHeader (fields_of line.now) c → ⊥) (λ c. IsHeader (fields_of line.now) c) }
    {
        let fields = Fields::split(line)?;
        let from = fields.only(b"from")?;
        let act = fields.only(b"act")?;
        let to = fields.only(b"to")?;
        Some(Columns {
            width: fields.len(),
            from,
            act,
            to,
        })
    }
}
