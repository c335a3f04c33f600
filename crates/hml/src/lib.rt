// Hennessy-Milner logic, strong bisimilarity, shortest runs and distinguishing formulas of transition systems: the
// records that hold runs and formulas, and what is proved of the definitions.
//
// A function here that takes nothing states theorems: its contract is what it is for, and it answers nothing of use.
#![tactic(auto)]

ghost use Rattle.hml.specs.Examples.{WorkedFactsHold, TracesDoNotDecide};
ghost use Rattle.hml.specs.Theorems.{HennessyMilner, AgreementIsBySteps, BisimilarIsEveryDepth};
ghost use Rattle.hml.specs.Theorems.{ReachedOrNever, FirstNearerRunExists, FirstNearerRunIsOne, BisimilarReachAlike};
ghost use Rattle.hml.specs.Theorems.{LinesExist, LinesAreOne, LinesDistinguish};

pub mod line;
pub mod step;

// Bisimilarity is what the logic cannot tell apart, and agreement to a depth what its formulas of that depth cannot.
pub fn bisimilarity_is_characterised()
    ensures hennessy_milner { HennessyMilner }
    ensures by_steps { AgreementIsBySteps }
    ensures every_depth { BisimilarIsEveryDepth }
{}

// A formula is reached by one run that takes the first nearer way at each state, or never.
pub fn shortest_runs_are_defined()
    ensures reached { ReachedOrNever }
    ensures exists { FirstNearerRunExists }
    ensures one { FirstNearerRunIsOne }
    ensures alike { BisimilarReachAlike }
{}

// Two states that are not bisimilar have one list of lines, whose formula separates them with fewest nested steps.
pub fn distinguishing_formulas_are_defined()
    ensures exist { LinesExist }
    ensures one { LinesAreOne }
    ensures distinguish { LinesDistinguish }
{}

// The definitions give the facts of the worked examples.
pub fn worked_examples_hold()
    ensures facts { WorkedFactsHold }
    ensures traces { TracesDoNotDecide }
{}
