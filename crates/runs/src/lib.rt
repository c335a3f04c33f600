// Shortest runs of a transition system to a state where a formula holds.
#![tactic(auto)]

mod distances;
mod exploring;
mod layers;
mod search;
pub mod searching;
mod walking;
