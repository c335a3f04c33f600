// A bench: two transition systems side by side, formulas entered on it, and what it answers of them.
//
// A bench is open or settled, and is moved from the one to the other. An open bench takes formulas; a settled one
// answers. So a call that is out of turn does not compile.
#![tactic(auto)]

mod asking;
pub mod inner;
pub mod open_bench;
mod opening;
pub mod settled_bench;
