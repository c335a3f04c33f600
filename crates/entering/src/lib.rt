// The entries that a bench holds, and how lists are entered.
#![tactic(auto)]

mod appending;
pub mod held;
mod holding;
mod soundness;
