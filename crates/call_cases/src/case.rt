// Two systems, and the script of calls that is gathered for them.
use formula::entry::Entry;
use history::calls::{Ending, Entering, Question, Round, Script};
use std::alloc::Global;
use std::mem;
use table::table::Table;

// A call as it is read.
#[derive(Drop)]
pub(crate) enum Call {
    Enter(Vec<Entry>),
    Settle,
    Ask(Question),
    Reopen,
}

// The ending of the script has the calls since the last reopen, and its phase is that of the bench after them.
#[derive(Drop)]
pub(crate) struct Case {
    pub(crate) left: Table,
    pub(crate) right: Table,
    pub(crate) script: Script,
}

impl Case {
    pub(crate) fn new(alloc: Global, left: Table, right: Table) -> Case {
        Case {
            left,
            right,
            script: Script {
                rounds: Vec::new(alloc),
                ending: Ending::Open(Vec::new(alloc)),
            },
        }
    }

    // Adds a call to the script, unless it is out of turn.
    pub(crate) fn add(&mut self, alloc: Global, call: Call) -> anyhow::Result<()> {
        let script = &mut self.script;
        match (&mut script.ending, call) {
            (Ending::Open(lists), Call::Enter(list)) => {
                lists.push(Entering { list, answer: None })?;
            }
            (Ending::Open(lists), Call::Settle) => {
                let lists = mem::replace(lists, Vec::new(alloc));
                script.ending = Ending::Settled(Round {
                    lists,
                    questions: Vec::new(alloc),
                });
            }
            (Ending::Settled(round), Call::Ask(question)) => round.questions.push(question)?,
            (Ending::Settled(round), Call::Reopen) => {
                let empty = Round {
                    lists: Vec::new(alloc),
                    questions: Vec::new(alloc),
                };
                script.rounds.push(mem::replace(round, empty))?;
                script.ending = Ending::Open(Vec::new(alloc));
            }
            _ => anyhow::bail!("out of turn"),
        }
        Ok(())
    }
}
