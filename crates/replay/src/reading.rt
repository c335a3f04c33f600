// Commands, read from the lines of the script.
use crate::command::{Asking, Command};
use crate::expected::Expected;
use std::alloc::{AllocError, Global};

const MOST_RECORDS: u16 = 4200;

// Reads a command, or what was expected in its place. An error is want of memory.
pub(crate) fn read_command(
    alloc: Global,
    line: &str,
) -> Result<Result<Command<'_>, Expected>, AllocError> {
    if let Some(text) = line.strip_prefix("enter ") {
        return Ok(Ok(Command::Enter(text)));
    }
    let words: Vec<&str> = line.split(' ').collect(alloc)?;
    Ok(match *words.as_slice() {
        ["settle"] => Ok(Command::Settle),
        ["reopen"] => Ok(Command::Reopen),
        ["settle", ..] => Err(Expected::Settle),
        ["reopen", ..] => Err(Expected::Reopen),
        ["enter"] => Err(Expected::Enter),
        // no `map`: its result would name the lifetime of the line, and gets no proof
        _ => match read_asking(words.as_slice()) {
            Ok(asking) => Ok(Command::Ask(asking)),
            Err(expected) => Err(expected),
        },
    })
}

fn read_asking(words: &[&str]) -> Result<Asking, Expected> {
    match *words {
        ["rule", formula, state] => rule(formula, state),
        ["reach", formula, state, size] => reach(formula, state, size),
        ["alike", first, second] => alike(first, second),
        ["tell", first, second, size] => tell(first, second, size),
        ["rule", ..] => Err(Expected::Rule),
        ["reach", ..] => Err(Expected::Reach),
        ["alike", ..] => Err(Expected::Alike),
        ["tell", ..] => Err(Expected::Tell),
        _ => Err(Expected::Call),
    }
}

fn rule(formula: &str, state: &str) -> Result<Asking, Expected> {
    Ok(Asking::Rule {
        formula: formula_number(formula)?,
        state: state_number(state)?,
    })
}

fn reach(formula: &str, state: &str, size: &str) -> Result<Asking, Expected> {
    Ok(Asking::Reach {
        formula: formula_number(formula)?,
        state: state_number(state)?,
        size: read_size(size)?,
    })
}

fn alike(first: &str, second: &str) -> Result<Asking, Expected> {
    Ok(Asking::Alike {
        first: state_number(first)?,
        second: state_number(second)?,
    })
}

fn tell(first: &str, second: &str, size: &str) -> Result<Asking, Expected> {
    Ok(Asking::Tell {
        first: state_number(first)?,
        second: state_number(second)?,
        size: read_size(size)?,
    })
}

fn formula_number(word: &str) -> Result<u8, Expected> {
    decimal(word)
        .and_then(|number| u8::try_from(number).ok())
        .ok_or(Expected::FormulaNumber)
}

fn state_number(word: &str) -> Result<u16, Expected> {
    decimal(word).ok_or(Expected::StateNumber)
}

fn read_size(word: &str) -> Result<u16, Expected> {
    decimal(word)
        .filter(|size| *size <= MOST_RECORDS)
        .ok_or(Expected::Size)
}

// Digits alone: `parse` would take a sign too.
fn decimal(word: &str) -> Option<u16> {
    if word.bytes().all(|byte| byte.is_ascii_digit()) {
        word.parse().ok()
    } else {
        None
    }
}
