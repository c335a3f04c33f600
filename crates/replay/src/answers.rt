// The lines of each answer of a script that was run.
use actions::action::Action;
use anyhow::Context;
use formula_writing::lines::write_lines;
use history::calls::{
    Comparing, Ending, Entering, Question, Reaching, Round, Ruling, Script, Telling,
};
use hml::line::{Line, Modality};
use std::alloc::Global;

// A text for each call that has an answer, in the order of the calls.
pub(crate) fn answers(alloc: Global, script: &Script) -> anyhow::Result<Vec<String>> {
    let mut texts = Vec::new(alloc);
    for round in script.rounds.iter() {
        add_round(alloc, &mut texts, round)?;
    }
    match &script.ending {
        Ending::Open(lists) => add_lists(alloc, &mut texts, lists.as_slice())?,
        Ending::Settled(round) => add_round(alloc, &mut texts, round)?,
    }
    Ok(texts)
}

fn add_round(alloc: Global, texts: &mut Vec<String>, round: &Round) -> anyhow::Result<()> {
    add_lists(alloc, texts, round.lists.as_slice())?;
    for question in round.questions.iter() {
        let mut text = String::new(alloc);
        match question {
            Question::Rule(call) => write_rule(&mut text, call)?,
            Question::Reach(call) => write_reach(&mut text, call)?,
            Question::Alike(call) => write_alike(&mut text, call)?,
            Question::Tell(call) => write_tell(alloc, &mut text, call)?,
        }
        texts.push(text)?;
    }
    Ok(())
}

fn add_lists(alloc: Global, texts: &mut Vec<String>, lists: &[Entering]) -> anyhow::Result<()> {
    for call in lists {
        let mut text = String::new(alloc);
        write_enter(&mut text, call)?;
        texts.push(text)?;
    }
    Ok(())
}

fn write_enter(out: &mut String, call: &Entering) -> anyhow::Result<()> {
    match given(call.answer)? {
        Ok(last) => writeln!(out, "enter,{last}")?,
        Err(e) => writeln!(out, "refused,enter,{},{}", e.number(), e.place())?,
    }
    Ok(())
}

fn write_rule(out: &mut String, call: &Ruling) -> anyhow::Result<()> {
    match given(call.answer)? {
        Ok(holds) => writeln!(out, "rule,{}", yes_or_no(holds))?,
        Err(e) => writeln!(out, "refused,rule,{},0", e.number())?,
    }
    Ok(())
}

fn write_reach(out: &mut String, call: &Reaching) -> anyhow::Result<()> {
    match given(call.answer)? {
        Ok(Some(moves)) => {
            writeln!(out, "reach,{moves}")?;
            for step in call.path.iter().take(usize::from(moves)) {
                let action = Action::try_from(step.action)?;
                writeln!(out, "move,{action},{}", step.target)?;
            }
        }
        Ok(None) => writeln!(out, "reach,never")?,
        Err(e) => writeln!(out, "refused,reach,{},0", e.number())?,
    }
    Ok(())
}

fn write_alike(out: &mut String, call: &Comparing) -> anyhow::Result<()> {
    match given(call.answer)? {
        Ok(alike) => writeln!(out, "alike,{}", yes_or_no(alike))?,
        Err(e) => writeln!(out, "refused,alike,{},0", e.number())?,
    }
    Ok(())
}

fn write_tell(alloc: Global, out: &mut String, call: &Telling) -> anyhow::Result<()> {
    match given(call.answer)? {
        Ok(count) => {
            writeln!(out, "tell,{count}")?;
            let lines = call.lines.get(..usize::from(count));
            add_lines(alloc, out, lines.context("more lines than were lent")?)
        }
        Err(e) => {
            writeln!(out, "refused,tell,{},0", e.number())?;
            Ok(())
        }
    }
}

fn add_lines(alloc: Global, out: &mut String, lines: &[Line]) -> anyhow::Result<()> {
    for (number, line) in lines.iter().enumerate() {
        let modality = match line.modality {
            Modality::May => "may",
            Modality::Must => "must",
        };
        let action = Action::try_from(line.action)?;
        writeln!(
            out,
            "line,{number},{modality},{action},{},{}",
            line.first, line.count
        )?;
    }
    let text = write_lines(alloc, lines)?.context("lines without a formula")?;
    writeln!(out, "formula,{text}")?;
    Ok(())
}

// Each call of a script that was run has its answer.
fn given<T: Drop>(answer: Option<T>) -> anyhow::Result<T> {
    answer.context("a call without an answer")
}

fn yes_or_no(yes: bool) -> &'static str {
    if yes { "yes" } else { "no" }
}
