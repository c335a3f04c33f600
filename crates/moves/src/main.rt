// Lists the moves of a transition table: `moves [FILE]`, with built.csv where no file is named.
#![tactic(auto)]

use files::sheet_file::SheetFile;
use listing::list;
use std::env;
use table::table::Table;

// Prints the table, or the line of its refusal: the number, the place, and what was expected.
fn print_table(rt: &HostRuntime, path: &str) -> anyhow::Result<()> {
    let mut file = SheetFile::new(rt.alloc())?;
    if let Err(e) = file.read(rt, path) {
        println!(rt; "refused,{},0: {e}", e.number())?;
        return Ok(());
    }
    let mut table = Table::new(rt.alloc())?;
    if let Err(e) = table.read(file.bytes()) {
        println!(rt; "refused,{},{}: {e}", e.number(), e.place())?;
        return Ok(());
    }
    let text = list(rt.alloc(), &table)?;
    rt.print(text)?;
    Ok(())
}

fn run(rt: &HostRuntime) -> anyhow::Result<()> {
    let path = env::args(rt)?.nth(1);
    print_table(rt, path.as_deref().unwrap_or("built.csv"))
}

fn main(rt: HostRuntime) -> anyhow::Result<()> {
    run(&rt)
}
