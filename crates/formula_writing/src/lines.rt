// The text of the formula that lines stand for.
ghost use Rattle.std.specs.Prelude.{◌≡◌, ◌<◌, ◌≤◌, ◌++◌, All, [], ◌∷◌, length, string_bytes, OnOk, IfOk, MatchOption};
ghost use Rattle.actions.specs.Actions.{number_of};
ghost use Rattle.actions.specs.Text.{action_text};
ghost use Rattle.grammar.specs.Machine.{opener, closer};
ghost use Rattle.hml.specs.Distinguishing.{formula_of_lines};
ghost use Rattle.grammar.specs.Verdict.{Is};
ghost use Rattle.grammar.specs.Writing.{formula_text};
ghost use Rattle.formula_writing.specs.LineTexts.{IsAction, HasFormula, line_text, joint, nothing, joined_text, inside_text};

use actions::action::Action;
use hml::line::{Line, Modality};
use std::alloc::{AllocError, Global};

// Writes the action of a line in its marks.
fn write_marked(out: &mut String, modality: Modality, action: Action) -> Result<(), AllocError>
    ensures { OnOk result (string_bytes out.new ≡ string_bytes out.old ++ opener modality ∷ (action_text (number_of action) ++ closer modality ∷ [])) }
{
    match modality {
        Modality::May => write!(out, "<{action}>"),
        Modality::Must => write!(out, "[{action}]"),
    }
}

// Writes the mark that joins formulas.
fn write_joint(out: &mut String, modality: Modality) -> Result<(), AllocError>
    ensures { OnOk result (string_bytes out.new ≡ string_bytes out.old ++ joint modality) }
{
    match modality {
        Modality::May => write!(out, "&"),
        Modality::Must => write!(out, "|"),
    }
}

// Writes the constant that stands for no formulas.
fn write_nothing(out: &mut String, modality: Modality) -> Result<(), AllocError>
    ensures { OnOk result (string_bytes out.new ≡ string_bytes out.old ++ nothing modality) }
{
    match modality {
        Modality::May => write!(out, "tt"),
        Modality::Must => write!(out, "ff"),
    }
}

// Writes the lines from `first` on, up to `last`, each behind the mark that joins it to those before.
#[cycle(lines)]
fn write_joined(
    out: &mut String,
    lines: &[Line],
    modality: Modality,
    first: usize,
    last: usize,
) -> Result<(), AllocError>
    requires actions { All IsAction lines.now }
    requires there { last ≤ length lines.now }
    ensures { OnOk result (string_bytes out.new ≡ string_bytes out.old ++ joined_text lines.now modality first last) }
{
    for child in first..last {
        write_joint(out, modality)?;
        write_line(out, lines, child)?;
    }
    Ok(())
}

// Writes what stands under a line: the lines from `first` on, up to `last`.
#[cycle(lines)]
fn write_inside(
    out: &mut String,
    lines: &[Line],
    modality: Modality,
    first: usize,
    last: usize,
) -> Result<(), AllocError>
    requires actions { All IsAction lines.now }
    requires there { last ≤ length lines.now }
    ensures { OnOk result (string_bytes out.new ≡ string_bytes out.old ++ inside_text lines.now modality first last) }
{
    if first >= last {
        return write_nothing(out, modality);
    }
    if first + 1 == last {
        return write_line(out, lines, first);
    }
    write!(out, "(")?;
    write_line(out, lines, first)?;
    write_joined(out, lines, modality, first + 1, last)?;
    write!(out, ")")
}

// Writes a line, and what stands under it.
#[cycle(lines)]
fn write_line(out: &mut String, lines: &[Line], number: usize) -> Result<(), AllocError>
    requires actions { All IsAction lines.now }
    requires there { number < length lines.now }
    ensures { OnOk result (string_bytes out.new ≡ string_bytes out.old ++ line_text lines.now number) }
{
    let line = lines[number];
    let action = Action::try_from(line.action).unwrap();
    write_marked(out, line.modality, action)?;
    // children stand behind their line
    let first = usize::from(line.first).max(number + 1);
    let last = first
        .saturating_add(usize::from(line.count))
        .min(lines.len());
    write_inside(out, lines, line.modality, first, last)
}

// The last number of an action.
const LAST: u8 = 52;

// The text of the formula that lines stand for; none where there are no lines, or one names no action. An error is want
// of memory.
pub fn write_lines(heap: Global, lines: &[Line]) -> Result<Option<String>, AllocError>
    ensures text { IfOk result (λ r. MatchOption r (HasFormula lines.now → ⊥) (λ t. string_bytes t ≡ formula_text (formula_of_lines lines.now))) }
    ensures read { IfOk result (λ r. MatchOption r (HasFormula lines.now → ⊥) (λ t. Is (string_bytes t) (formula_of_lines lines.now))) }
{
    if lines.is_empty() || !lines.iter().all(|line| line.action <= LAST) {
        return Ok(None);
    }
    let mut text = String::new(heap);
    write_line(&mut text, lines, 0)?;
    Ok(Some(text))
}
