// Questions as they are handed in: with no answer, and with memory that shows what a call leaves.
use history::calls::{Comparing, Question, Reaching, Ruling, Telling};
use hml::line::{Line, Modality};
use hml::step::Step;
use std::alloc::Global;

// One more than the last action, so that no call writes it.
const UNWRITTEN: u8 = 53;

pub(crate) fn rule(formula: &str, state: &str) -> anyhow::Result<Question> {
    Ok(Question::Rule(Ruling {
        formula: formula.parse()?,
        state: state.parse()?,
        answer: None,
    }))
}

pub(crate) fn reach(
    alloc: Global,
    formula: &str,
    state: &str,
    size: &str,
) -> anyhow::Result<Question> {
    let path = (0..size.parse::<u16>()?)
        .map(|place| Step {
            action: UNWRITTEN,
            target: place,
        })
        .collect(alloc)?;
    Ok(Question::Reach(Reaching {
        formula: formula.parse()?,
        state: state.parse()?,
        path,
        answer: None,
    }))
}

pub(crate) fn alike(first: &str, second: &str) -> anyhow::Result<Question> {
    Ok(Question::Alike(Comparing {
        first: first.parse()?,
        second: second.parse()?,
        answer: None,
    }))
}

pub(crate) fn tell(
    alloc: Global,
    first: &str,
    second: &str,
    size: &str,
) -> anyhow::Result<Question> {
    let lines = (0..size.parse::<u16>()?)
        .map(|place| Line {
            modality: Modality::May,
            action: UNWRITTEN,
            first: place,
            count: place,
        })
        .collect(alloc)?;
    Ok(Question::Tell(Telling {
        first: first.parse()?,
        second: second.parse()?,
        lines,
        answer: None,
    }))
}
