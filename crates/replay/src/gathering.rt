// The script, gathered from its lines, and what is to be printed of each line.
use crate::command::Command;
use crate::expected::Expected;
use crate::questions::question;
use crate::reading::read_command;
use formula::entry::Entry;
use formula_text::reading::read;
use formula_text::refusal::TextRefusal;
use history::calls::{Ending, Entering, Round, Script};
use std::alloc::{AllocError, Global};
use std::{mem, str};

// The most entries that the text of a formula may have.
const PLACES: usize = 128;

// What is printed of a line of the script.
#[derive(Clone, Copy, Debug)]
pub(crate) enum Note {
    // the answer of the next call that has one
    Answer,
    Settled,
    Reopened,
    NoFormula(TextRefusal),
    // the line's number, and what was expected in its place
    Bad(u64, Expected),
}

// The ending of the script has the calls since the last reopen, and its phase is that of the bench after them.
#[derive(Drop)]
pub(crate) struct Gathered {
    pub(crate) script: Script,
    // in the order of the lines
    pub(crate) notes: Vec<Note>,
}

impl Gathered {
    pub(crate) fn new(alloc: Global) -> Gathered {
        Gathered {
            script: Script {
                rounds: Vec::new(alloc),
                ending: Ending::Open(Vec::new(alloc)),
            },
            notes: Vec::new(alloc),
        }
    }

    // Takes in a line of the script, the number of which is given.
    pub(crate) fn take(
        &mut self,
        alloc: Global,
        number: u64,
        line: &[u8],
    ) -> Result<(), AllocError> {
        if matches!(line.first(), None | Some(b';')) {
            return Ok(());
        }
        let command = match str::from_utf8(line) {
            Ok(line) => read_command(alloc, line)?,
            Err(_) => Err(Expected::Text),
        };
        let note = match command {
            Ok(command) => self.add(alloc, number, command)?,
            Err(expected) => Note::Bad(number, expected),
        };
        self.notes.push(note)?;
        Ok(())
    }

    // Adds a command to the script, unless it is out of turn or its text is no formula.
    fn add(
        &mut self,
        alloc: Global,
        number: u64,
        command: Command<'_>,
    ) -> Result<Note, AllocError> {
        let script = &mut self.script;
        match (&mut script.ending, command) {
            (Ending::Open(lists), Command::Enter(text)) => match read_list(alloc, text)? {
                Ok(list) => {
                    lists.push(Entering { list, answer: None })?;
                    Ok(Note::Answer)
                }
                Err(e) => Ok(Note::NoFormula(e)),
            },
            (Ending::Open(lists), Command::Settle) => {
                let lists = mem::replace(lists, Vec::new(alloc));
                script.ending = Ending::Settled(Round {
                    lists,
                    questions: Vec::new(alloc),
                });
                Ok(Note::Settled)
            }
            (Ending::Settled(round), Command::Ask(asking)) => {
                round.questions.push(question(alloc, asking)?)?;
                Ok(Note::Answer)
            }
            (Ending::Settled(round), Command::Reopen) => {
                let empty = Round {
                    lists: Vec::new(alloc),
                    questions: Vec::new(alloc),
                };
                script.rounds.push(mem::replace(round, empty))?;
                script.ending = Ending::Open(Vec::new(alloc));
                Ok(Note::Reopened)
            }
            (Ending::Open(_), _) => Ok(Note::Bad(number, Expected::SettledBench)),
            (Ending::Settled(_), _) => Ok(Note::Bad(number, Expected::OpenBench)),
        }
    }
}

// The entries of the formula that the text is.
fn read_list(alloc: Global, text: &str) -> Result<Result<Vec<Entry>, TextRefusal>, AllocError> {
    let mut places = [Entry::True; PLACES];
    match read(text.as_bytes(), &mut places) {
        Ok(count) => {
            let entries = places.iter().copied().take(usize::from(count));
            Ok(Ok(entries.collect(alloc)?))
        }
        Err(e) => Ok(Err(e)),
    }
}
