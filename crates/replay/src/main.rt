// Runs a script of calls, read from standard input, on a bench over two sheets: `replay [LEFT [RIGHT]]`, with design.txt
// and built.csv where they are not named.
#![tactic(auto)]

mod answers;
mod command;
mod expected;
mod gathering;
mod printing;
mod questions;
mod reading;
mod sheets;

use crate::gathering::Gathered;
use crate::printing::print_run;
use crate::sheets::read_sheet;
use std::env;
use std::io::BufRead;

fn gather(rt: &HostRuntime) -> anyhow::Result<Gathered> {
    let mut gathered = Gathered::new(rt.alloc());
    // as bytes: `lines` ends at a line that is no text, and takes a byte 13 away
    let lines = rt.reader().split(rt.alloc(), b'\n');
    for (number, line) in (1..=u64::MAX).zip(lines) {
        let line = line?;
        gathered.take(rt.alloc(), number, line.as_slice())?;
    }
    Ok(gathered)
}

fn run(rt: &HostRuntime) -> anyhow::Result<()> {
    let mut names = env::args(rt)?.skip(1);
    let left = names.next();
    let right = names.next();
    let Some(left) = read_sheet(rt, left.as_deref().unwrap_or("design.txt"))? else {
        return Ok(());
    };
    let Some(right) = read_sheet(rt, right.as_deref().unwrap_or("built.csv"))? else {
        return Ok(());
    };
    print_run(rt, left, right, gather(rt)?)
}

fn main(rt: HostRuntime) -> anyhow::Result<()> {
    run(&rt)
}
