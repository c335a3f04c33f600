// Reads sheets from standard input, one to a line, and prints for each what its table is, or the number and the place
// of its refusal, one to a line.
//
// In a line \n, \r and \0 stand for bytes 10, 13 and 0, and \? for byte 255. A line of three parts with tabs between is
// a text, a count, and a text that is repeated so often behind it. Of a long table only its length is printed.
#![tactic(auto)]

use listing::list;
use table::table::Table;

// The byte that stands behind a backslash.
fn escaped(b: u8) -> u8 {
    match b {
        b'n' => 10,
        b'r' => 13,
        b'0' => 0,
        b'?' => 255,
        _ => b,
    }
}

// Adds a text, with its escapes resolved.
fn add(sheet: &mut Vec<u8>, text: &str) -> anyhow::Result<()> {
    let mut bytes = text.bytes();
    while let Some(b) = bytes.next() {
        if b != b'\\' {
            sheet.push(b)?;
        } else if let Some(b) = bytes.next() {
            sheet.push(escaped(b))?;
        }
    }
    Ok(())
}

fn sheet_of(rt: &HostRuntime, line: &str) -> anyhow::Result<Vec<u8>> {
    let mut sheet = Vec::new(rt.alloc());
    let (head, more) = line.split_once('\t').unwrap_or((line, ""));
    add(&mut sheet, head)?;
    if let Some((count, tail)) = more.split_once('\t') {
        for _ in 0..count.parse::<u16>()? {
            add(&mut sheet, tail)?;
        }
    }
    Ok(sheet)
}

// The lines of a listing, with spaces for their ends.
fn print_listing(rt: &HostRuntime, table: &Table) -> anyhow::Result<()> {
    let text = list(rt.alloc(), table)?;
    if text.len() > 200 {
        println!(rt; "{} bytes", text.len())?;
        return Ok(());
    }
    for line in text.as_str().lines() {
        print!(rt; "{line} ")?;
    }
    println!(rt; "")?;
    Ok(())
}

fn run(rt: &HostRuntime) -> anyhow::Result<()> {
    let mut table = Table::new(rt.alloc())?;
    for line in rt.lines(rt.alloc()) {
        let sheet = sheet_of(rt, line?.as_str())?;
        match table.read(sheet.as_slice()) {
            Ok(()) => print_listing(rt, &table)?,
            Err(e) => println!(rt; "{},{}", e.number(), e.place())?,
        }
    }
    print_listing(rt, &table)
}

fn main(rt: HostRuntime) -> anyhow::Result<()> {
    run(&rt)
}
