// Formula text: read into a list of entries that the caller lends.
#![tactic(auto)]

mod depth;
mod marks;
mod modal;
mod phrases;
mod reader;
pub mod reading;
pub mod refusal;
