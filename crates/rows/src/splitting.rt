// How a line is cut into its fields.
ghost use Rattle.std.specs.Prelude.{◌≡◌, ℕ, ◌<◌, ◌≤◌, [], length, ◌==◌, MatchOption, slice_index_or};
ghost use Rattle.std.specs.List.{position};
ghost use Rattle.std.specs.Cmp.Lexicographic.{pointwise};
ghost use Rattle.rows.specs.Fields.{fields_of};
ghost use Rattle.rows.specs.Format.{Once};
ghost use Rattle.rows.specs.Held.{held};

use crate::fields::Fields;
use arrayvec::ArrayVec;
use sheet::cursor::Cursor;

const COMMA: u8 = b',';

impl<'a> Fields<'a> {
    // The fields of a line; none where they are more than 8.
    pub(crate) fn split(line: &'a [u8]) -> Option<Fields<'a>>
        ensures { MatchOption result (8 < length (fields_of line.now)) (λ f. held f ≡ fields_of line.now) }
    {
        let mut parts = ArrayVec::new();
        let mut cursor = Cursor::new(line);
        // by the cursor, as `Lines` goes over a sheet
        loop {
            parts.try_push(cursor.until(COMMA)).ok()?;
            if !cursor.pass(COMMA) {
                return Some(Fields { parts });
            }
        }
    }

    // How many there are.
    pub(crate) fn len(&self) -> usize
        ensures value { result ≡ length (held self.now) }
        ensures bound { result ≤ 8 }
    {
        self.parts.len()
    }

    // Field k, counted from 0; none where they are not so many.
    pub(crate) fn part(&self, k: usize) -> Option<&'a [u8]>
        ensures { MatchOption result (length (held self.now) ≤ k) (λ part. (k < length (held self.now)) × (part.now ≡ slice_index_or (held self.now) k [])) }
    {
        self.parts.get(k).copied()
    }

    // The field that alone has the name.
    pub(crate) fn only(&self, name: &[u8]) -> Option<usize>
        ensures { MatchOption result ((k : ℕ) → Once (held self.now) k name.now → ⊥) (λ k. Once (held self.now) k name.now) }
    {
        let first = first_named(&self.parts, name)?;
        if first_named(&self.parts[first + 1..], name).is_some() {
            return None;
        }
        Some(first)
    }
}

// The first of the fields that has the name.
fn first_named(fields: &[&[u8]], name: &[u8]) -> Option<usize>
    ensures { result ≡ position (λ field. pointwise ◌==◌ field.now name.now) fields.now }
{
    fields.iter().position(|field| *field == name)
}
