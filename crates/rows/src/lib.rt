// The rows of a transition table, read from its sheet.
#![tactic(auto)]

pub mod columns;
mod fields;
mod header;
mod numerals;
pub mod reading;
pub mod refusal;
pub mod row;
pub mod rows;
mod splitting;
pub mod state;
