// The two sheets, read by their names.
use files::sheet_file::SheetFile;
use table::table::Table;

// Reads the sheet of that name, or prints the line of its refusal: its name, the number, the place, and what was
// expected.
pub(crate) fn read_sheet(rt: &HostRuntime, name: &str) -> anyhow::Result<Option<Table>> {
    if !name.ends_with(".csv") {
        println!(rt; "refused,{name}: designs are not read yet, a table (.csv) was expected")?;
        return Ok(None);
    }
    let mut file = SheetFile::new(rt.alloc())?;
    if let Err(e) = file.read(rt, name) {
        println!(rt; "refused,{name},{},0: {e}", e.number())?;
        return Ok(None);
    }
    let mut table = Table::new(rt.alloc())?;
    if let Err(e) = table.read(file.bytes()) {
        println!(rt; "refused,{name},{},{}: {e}", e.number(), e.place())?;
        return Ok(None);
    }
    Ok(Some(table))
}
