// Runs a case and prints it: a line for each call, with its answer or refusal and the memory that it left.
use crate::case::Case;
use anyhow::Context;
use history::calls::{Comparing, Ending, Entering, Question, Reaching, Round, Ruling, Telling};
use history::running::run;
use hml::line::{Line, Modality};
use hml::step::Step;
use lts::System;

pub(crate) fn print_case(rt: &HostRuntime, case: Case) -> anyhow::Result<()> {
    let Case {
        left,
        right,
        mut script,
    } = case;
    let (left, right) = run(left, right, &mut script);
    println!(rt; "open {},{}", left.states(), right.states())?;
    for round in script.rounds.iter() {
        print_round(rt, round)?;
        println!(rt; "reopen")?;
    }
    match &script.ending {
        Ending::Open(lists) => print_lists(rt, lists.as_slice()),
        Ending::Settled(round) => print_round(rt, round),
    }
}

fn print_round(rt: &HostRuntime, round: &Round) -> anyhow::Result<()> {
    print_lists(rt, round.lists.as_slice())?;
    println!(rt; "settle")?;
    for question in round.questions.iter() {
        match question {
            Question::Rule(call) => print_rule(rt, call)?,
            Question::Reach(call) => print_reach(rt, call)?,
            Question::Alike(call) => print_alike(rt, call)?,
            Question::Tell(call) => print_tell(rt, call)?,
        }
    }
    Ok(())
}

fn print_lists(rt: &HostRuntime, lists: &[Entering]) -> anyhow::Result<()> {
    for call in lists {
        match given(call.answer)? {
            Ok(last) => println!(rt; "enter {last}")?,
            Err(e) => println!(rt; "enter refused {},{}", e.number(), e.place())?,
        }
    }
    Ok(())
}

fn print_rule(rt: &HostRuntime, call: &Ruling) -> anyhow::Result<()> {
    match given(call.answer)? {
        Ok(holds) => println!(rt; "rule {}", yes_or_no(holds))?,
        Err(e) => println!(rt; "rule refused {}", e.number())?,
    }
    Ok(())
}

fn print_reach(rt: &HostRuntime, call: &Reaching) -> anyhow::Result<()> {
    match given(call.answer)? {
        Ok(Some(moves)) => print!(rt; "reach {moves}:")?,
        Ok(None) => print!(rt; "reach never:")?,
        Err(e) => print!(rt; "reach refused {}:", e.number())?,
    }
    for step in call.path.iter() {
        print_step(rt, *step)?;
    }
    println!(rt; "")?;
    Ok(())
}

fn print_alike(rt: &HostRuntime, call: &Comparing) -> anyhow::Result<()> {
    match given(call.answer)? {
        Ok(alike) => println!(rt; "alike {}", yes_or_no(alike))?,
        Err(e) => println!(rt; "alike refused {}", e.number())?,
    }
    Ok(())
}

fn print_tell(rt: &HostRuntime, call: &Telling) -> anyhow::Result<()> {
    match given(call.answer)? {
        Ok(count) => print!(rt; "tell {count}:")?,
        Err(e) => print!(rt; "tell refused {}:", e.number())?,
    }
    print_lines(rt, call.lines.as_slice())?;
    println!(rt; "")?;
    Ok(())
}

// Each call of a script that was run has its answer.
fn given<T: Drop>(answer: Option<T>) -> anyhow::Result<T> {
    answer.context("a call without an answer")
}

fn yes_or_no(yes: bool) -> &'static str {
    if yes { "yes" } else { "no" }
}

fn print_step(rt: &HostRuntime, step: Step) -> anyhow::Result<()> {
    print!(rt; " {},{}", step.action, step.target)?;
    Ok(())
}

// Of more than eight lines only the first three and the last three.
fn print_lines(rt: &HostRuntime, lines: &[Line]) -> anyhow::Result<()> {
    if lines.len() <= 8 {
        return print_each(rt, lines);
    }
    print_each(rt, &lines[..3])?;
    print!(rt; " ..")?;
    print_each(rt, &lines[lines.len() - 3..])
}

fn print_each(rt: &HostRuntime, lines: &[Line]) -> anyhow::Result<()> {
    for line in lines {
        print_line(rt, *line)?;
    }
    Ok(())
}

fn print_line(rt: &HostRuntime, line: Line) -> anyhow::Result<()> {
    let modality = match line.modality {
        Modality::May => "may",
        Modality::Must => "must",
    };
    print!(rt; " {modality},{},{},{}", line.action, line.first, line.count)?;
    Ok(())
}
