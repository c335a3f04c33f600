// The lines of a sheet that are not empty.

// A line, as the part of the sheet that it is.
#[derive(Clone, Copy)]
pub enum Line<'a> {
    // begins with `;`, and says nothing
    Remark(&'a [u8]),
    // the first line that is neither empty nor a remark
    Header(&'a [u8]),
    // each such line after it
    Row(&'a [u8]),
}

// A line with its number: all lines of the sheet count, from 1.
#[derive(Clone, Copy)]
pub struct Numbered<'a> {
    pub number: usize,
    pub line: Line<'a>,
}
