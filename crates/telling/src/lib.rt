// The distinguishing formula of two states that are not bisimilar, line by line.
#![tactic(auto)]

mod choosing;
mod queue;
pub mod writing;
