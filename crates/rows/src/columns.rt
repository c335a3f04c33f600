// What the header of a table says.
ghost use Rattle.std.specs.Prelude.{◌≤◌};

// How many fields a row has, at most 8, and which of them, counted from 0, are from, act and to.
#[derive(Clone, Copy)]
pub struct Columns {
    pub width: usize,
    pub from: usize,
    pub act: usize,
    pub to: usize,
    ghost few: { width ≤ 8 },
}
