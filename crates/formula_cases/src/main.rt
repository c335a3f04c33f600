// Reads formulas from standard input, one to a line, and prints for each the number of its entries and the list after
// it, or the number and the place of its refusal and the list after it.
//
// A line is the number of places of the list, a comma, and the text. Of a list of more than 8 places only the last entry
// of the formula is printed, and how many places hold true. An entry is printed as t, f, &i.j, |i.j, <a.i or [a.i. Before
// each reading every place holds false.
#![tactic(auto)]

use entering::held::Held;
use formula::entry::Entry;
use formula_text::reading::read;
use formula_writing::writing::write;

// The most places of a list.
const PLACES: usize = 200;

// The most places of a list that is printed whole.
const SHORT: usize = 8;

fn print_entry(rt: &HostRuntime, entry: Entry) -> anyhow::Result<()> {
    match entry {
        Entry::True => print!(rt; " t")?,
        Entry::False => print!(rt; " f")?,
        Entry::And(i, j) => print!(rt; " &{i}.{j}")?,
        Entry::Or(i, j) => print!(rt; " |{i}.{j}")?,
        Entry::May(a, i) => print!(rt; " <{a}.{i}")?,
        Entry::Must(a, i) => print!(rt; " [{a}.{i}")?,
    }
    Ok(())
}

// The list, or of a long one its last entry but for true and how many places hold true.
fn print_list(rt: &HostRuntime, list: &[Entry]) -> anyhow::Result<()> {
    if list.len() > SHORT {
        let kept = list.iter().filter(|e| **e == Entry::True).count();
        if let Some(last) = list.iter().rfind(|e| **e != Entry::True) {
            print_entry(rt, *last)?;
        }
        print!(rt; " and {kept} t")?;
        return Ok(());
    }
    for entry in list {
        print_entry(rt, *entry)?;
    }
    Ok(())
}

// The formula of the last of some entries, as text.
fn print_text(rt: &HostRuntime, entries: &[Entry]) -> anyhow::Result<()> {
    let mut held = Held::new();
    if let Ok(last) = held.enter(entries) {
        if let Some(text) = write(rt.alloc(), &held, last)? {
            print!(rt; " {}", text.as_str())?;
        }
    }
    Ok(())
}

fn run(rt: &HostRuntime) -> anyhow::Result<()> {
    for line in rt.lines(rt.alloc()) {
        let line = line?;
        let (places, text) = line.as_str().split_once(',').unwrap_or(("0", ""));
        let places = places.parse::<usize>()?.min(PLACES);
        let mut list = [Entry::False; PLACES];
        let list = &mut list[..places];
        match read(text.as_bytes(), list) {
            Ok(count) => {
                print!(rt; "{count}:")?;
                print_list(rt, list)?;
                if let Some((entries, _)) = list.split_at_checked(usize::from(count)) {
                    if places <= SHORT {
                        print_text(rt, entries)?;
                    }
                }
            }
            Err(e) => {
                print!(rt; "{},{}:", e.number(), e.place())?;
                print_list(rt, list)?;
            }
        }
        println!(rt; "")?;
    }
    Ok(())
}

fn main(rt: HostRuntime) -> anyhow::Result<()> {
    run(&rt)
}
