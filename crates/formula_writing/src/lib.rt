// Formulas that are held or told, written as text.
#![tactic(auto)]

mod level;
pub mod lines;
pub mod writing;
