// Any list of calls, run on a bench and written down.
#![tactic(auto)]

mod asking;
pub mod calls;
mod lists;
mod rounds;
pub mod running;
