// Questions as they are handed in: with no answer, and with the memory that they ask for.
use crate::command::Asking;
use history::calls::{Comparing, Question, Reaching, Ruling, Telling};
use hml::line::{Line, Modality};
use hml::step::Step;
use std::alloc::{AllocError, Global};

pub(crate) fn question(alloc: Global, asking: Asking) -> Result<Question, AllocError> {
    Ok(match asking {
        Asking::Rule { formula, state } => Question::Rule(Ruling {
            formula,
            state,
            answer: None,
        }),
        Asking::Reach {
            formula,
            state,
            size,
        } => Question::Reach(Reaching {
            formula,
            state,
            path: path(alloc, size)?,
            answer: None,
        }),
        Asking::Alike { first, second } => Question::Alike(Comparing {
            first,
            second,
            answer: None,
        }),
        Asking::Tell {
            first,
            second,
            size,
        } => Question::Tell(Telling {
            first,
            second,
            lines: lines(alloc, size)?,
            answer: None,
        }),
    })
}

fn path(alloc: Global, size: u16) -> Result<Vec<Step>, AllocError> {
    (0..size)
        .map(|_| Step {
            action: 0,
            target: 0,
        })
        .collect(alloc)
}

fn lines(alloc: Global, size: u16) -> Result<Vec<Line>, AllocError> {
    (0..size)
        .map(|_| Line {
            modality: Modality::Must,
            action: 0,
            first: 0,
            count: 0,
        })
        .collect(alloc)
}
