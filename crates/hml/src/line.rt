// The lines of a distinguishing formula.

// How a line goes on: some move by its action leads on, or every one does.
#[derive(Clone, Copy, PartialEq, Eq, Debug)]
pub enum Modality {
    May,
    Must,
}

// One line: `count` lines from `first` on stand under it, and `first` is 0 where there are none. May is followed by all
// of them, must by any of them. The form is set, as callers lend the memory for lines: the action is its number, and a
// line is named by its place.
#[derive(Clone, Copy, PartialEq, Eq, Debug)]
pub struct Line {
    pub modality: Modality,
    pub action: u8,
    pub first: u16,
    pub count: u16,
}
