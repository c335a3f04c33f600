// The lines of a case, read from their texts.
use crate::case::Call;
use crate::questions::{alike, reach, rule, tell};
use formula::entry::Entry;
use std::alloc::Global;
use table::table::Table;

#[derive(Drop)]
pub(crate) enum Input {
    Open(Table, Table),
    Call(Call),
}

impl Input {
    pub(crate) fn read(alloc: Global, line: &str) -> anyhow::Result<Input> {
        let words: Vec<&str> = line.split_whitespace().collect(alloc)?;
        match *words.as_slice() {
            ["open", left, right] => Ok(Input::Open(
                read_table(alloc, left)?,
                read_table(alloc, right)?,
            )),
            _ => Ok(Input::Call(read_call(alloc, words.as_slice())?)),
        }
    }
}

fn read_table(alloc: Global, text: &str) -> anyhow::Result<Table> {
    let sheet: Vec<u8> = text
        .bytes()
        .map(|b| if b == b'/' { b'\n' } else { b })
        .collect(alloc)?;
    let mut table = Table::new(alloc)?;
    if table.read(sheet.as_slice()).is_err() {
        anyhow::bail!("no table");
    }
    Ok(table)
}

fn read_call(alloc: Global, words: &[&str]) -> anyhow::Result<Call> {
    match *words {
        ["enter", ..] => Ok(Call::Enter(read_list(alloc, &words[1..])?)),
        ["settle"] => Ok(Call::Settle),
        ["rule", formula, state] => Ok(Call::Ask(rule(formula, state)?)),
        ["reach", formula, state, size] => Ok(Call::Ask(reach(alloc, formula, state, size)?)),
        ["alike", first, second] => Ok(Call::Ask(alike(first, second)?)),
        ["tell", first, second, size] => Ok(Call::Ask(tell(alloc, first, second, size)?)),
        ["reopen"] => Ok(Call::Reopen),
        _ => anyhow::bail!("no call"),
    }
}

fn read_list(alloc: Global, words: &[&str]) -> anyhow::Result<Vec<Entry>> {
    let mut list = Vec::new(alloc);
    for word in words {
        let (count, entry) = word.split_once('*').unwrap_or(("1", word));
        let entry = read_entry(alloc, entry)?;
        for _ in 0..count.parse::<u8>()? {
            list.push(entry)?;
        }
    }
    Ok(list)
}

fn read_entry(alloc: Global, text: &str) -> anyhow::Result<Entry> {
    let parts: Vec<&str> = text.split('.').collect(alloc)?;
    match *parts.as_slice() {
        ["tt"] => Ok(Entry::True),
        ["ff"] => Ok(Entry::False),
        ["and", f, g] => Ok(Entry::And(f.parse()?, g.parse()?)),
        ["or", f, g] => Ok(Entry::Or(f.parse()?, g.parse()?)),
        ["may", action, f] => Ok(Entry::May(action.parse()?, f.parse()?)),
        ["must", action, f] => Ok(Entry::Must(action.parse()?, f.parse()?)),
        _ => anyhow::bail!("no entry"),
    }
}
