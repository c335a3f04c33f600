// Transition tables: read from their sheets, and asked as transition systems.
#![tactic(auto)]

mod answering;
mod index;
mod reading;
pub mod table;
