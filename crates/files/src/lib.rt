// Sheets in files.
#![tactic(auto)]

pub mod reading;
pub mod sheet_file;
