// The calls of a bench: why each may refuse, what each answers, and what holds of every history of calls.
#![tactic(auto)]

ghost use Rattle.law.specs.History.{EveryHistoryIsLawful};
ghost use Rattle.law.specs.Theorems.{AnswersAreOne};

pub mod refusals;

// Whatever calls a bench took since its opening, each answered as defined: all their answers keep the law.
pub fn every_history_is_lawful()
    ensures { EveryHistoryIsLawful }
{}

// The definitions leave each call one answer.
pub fn answers_are_one()
    ensures { AnswersAreOne }
{}
