// Runs the script and prints what there is to say of each of its lines, in their order.
use crate::answers::answers;
use crate::gathering::{Gathered, Note};
use anyhow::Context;
use history::running::run;
use table::table::Table;

pub(crate) fn print_run(
    rt: &HostRuntime,
    left: Table,
    right: Table,
    gathered: Gathered,
) -> anyhow::Result<()> {
    let Gathered { mut script, notes } = gathered;
    run(left, right, &mut script);
    let answers = answers(rt.alloc(), &script)?;
    let mut answers = answers.iter();
    for note in notes.iter() {
        match *note {
            Note::Answer => {
                let answer = answers.next().context("a call without an answer")?;
                print!(rt; "{answer}")?;
            }
            Note::Settled => println!(rt; "settle")?,
            Note::Reopened => println!(rt; "reopen")?,
            Note::NoFormula(e) => println!(rt; "refused,enter,{},{}", e.number(), e.place())?,
            Note::Bad(number, expected) => println!(rt; "bad,{number},{expected}")?,
        }
    }
    Ok(())
}
