// Signals, processes and actions of CCS: their numbers and their text.
#![tactic(auto)]

pub mod action;
pub mod process;
mod reading;
pub mod signal;
pub mod writing;
