// Sheets: a cursor over a sheet's bytes, and the lines of a sheet with their numbers. Nothing here makes a copy.
#![tactic(auto)]

pub mod cursor;
pub mod line;
pub mod lines;
mod moving;
mod numbering;
