// Verdicts of formulas at the states of a transition system, kept as bits of words.
//
// Bit i of word s says whether formula i of a list of entries holds at state s.
#![tactic(auto)]

mod bits;
pub mod judging;
pub mod words;
