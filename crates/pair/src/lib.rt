// Two transition systems side by side, asked as one.
#![tactic(auto)]

pub mod graph;
pub mod pair;
pub mod ways;
