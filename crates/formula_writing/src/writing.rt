// The text of a formula that is held.
ghost use Rattle.std.specs.Prelude.{◌≡◌, ◌<◌, ◌≤◌, ◌++◌, length, string_bytes, OnOk, IfOk, MatchOption};
ghost use Rattle.formula.specs.Entries.{formula_at, AllSound};
ghost use Rattle.grammar.specs.Verdict.{Is};
ghost use Rattle.grammar.specs.Writing.{text_at, formula_text};
ghost use Rattle.formula_writing.specs.Brackets.{level_of};

use crate::level::Level;
use actions::action::Action;
use entering::held::Held;
use formula::entry::Entry;
use std::alloc::{AllocError, Global};

// Writes the formula of an entry, at a place of the level.
fn write_at(out: &mut String, entries: &[Entry], number: u8, level: Level) -> Result<(), AllocError>
    requires sound { AllSound entries.now }
    requires there { number < length entries.now }
    ensures { OnOk result (string_bytes out.new ≡ string_bytes out.old ++ text_at (level_of level) (formula_at entries.now number)) }
{
    let entry = entries[usize::from(number)];
    if level.brackets(entry) {
        write!(out, "(")?;
        write_at(out, entries, number, Level::Ors)?;
        return write!(out, ")");
    }
    match entry {
        Entry::True => write!(out, "tt"),
        Entry::False => write!(out, "ff"),
        Entry::And(i, j) => {
            write_at(out, entries, i, Level::Ands)?;
            write!(out, "&")?;
            write_at(out, entries, j, Level::Unary)
        }
        Entry::Or(i, j) => {
            write_at(out, entries, i, Level::Ors)?;
            write!(out, "|")?;
            write_at(out, entries, j, Level::Ands)
        }
        Entry::May(a, i) => {
            write!(out, "<{}>", Action::try_from(a).unwrap())?;
            write_at(out, entries, i, Level::Unary)
        }
        Entry::Must(a, i) => {
            write!(out, "[{}]", Action::try_from(a).unwrap())?;
            write_at(out, entries, i, Level::Unary)
        }
    }
}

// The text of the formula of an entry; none where no entry has the number. An error is want of memory.
pub fn write(heap: Global, held: &Held, number: u8) -> Result<Option<String>, AllocError>
    ensures text { IfOk result (λ r. MatchOption r (length held.now ≤ number) (λ t. string_bytes t ≡ formula_text (formula_at held.now number))) }
    ensures read { IfOk result (λ r. MatchOption r (length held.now ≤ number) (λ t. Is (string_bytes t) (formula_at held.now number))) }
{
    if number >= held.len() {
        return Ok(None);
    }
    let mut text = String::new(heap);
    write_at(&mut text, held.as_slice(), number, Level::Ors)?;
    Ok(Some(text))
}
