// What was expected in place of a bad line.
use std::fmt;

#[derive(Clone, Copy, Debug)]
pub(crate) enum Expected {
    Text,
    Call,
    Enter,
    Settle,
    Rule,
    Reach,
    Alike,
    Tell,
    Reopen,
    FormulaNumber,
    StateNumber,
    Size,
    OpenBench,
    SettledBench,
}

impl fmt::Display for Expected {
    fn fmt<W: fmt::Write>(&self, f: &mut fmt::Formatter<W>) -> fmt::Result {
        f.write_str(match self {
            Expected::Text => "a line of UTF-8 text was expected",
            Expected::Call => "enter, settle, rule, reach, alike, tell or reopen was expected",
            Expected::Enter => "enter FORMULA was expected",
            Expected::Settle => "settle alone was expected",
            Expected::Rule => "rule FORMULA STATE was expected",
            Expected::Reach => "reach FORMULA STATE SIZE was expected",
            Expected::Alike => "alike STATE STATE was expected",
            Expected::Tell => "tell STATE STATE SIZE was expected",
            Expected::Reopen => "reopen alone was expected",
            Expected::FormulaNumber => "the number of a formula, at most 255, was expected",
            Expected::StateNumber => "the number of a state, at most 65535, was expected",
            Expected::Size => "a number of records, at most 4200, was expected",
            Expected::OpenBench => "an open bench was expected",
            Expected::SettledBench => "a settled bench was expected",
        })
    }
}
