// The theory of reading formula text: which bytes are which formula, what a text is refused for, and a machine that
// decides it byte by byte.
//
// A function here that takes nothing states theorems: its contract is what it is for, and it answers nothing of use.
#![tactic(auto)]

ghost use Rattle.grammar.specs.Theorems.{TextIsOneFormula, EntriesAreCounted, MachineIsExact, VerdictIsOne};
ghost use Rattle.grammar.specs.Theorems.{AcceptedIsDerived, MalformedIsFirst, WrittenIsRead, ActionTextIsRead};

// Each text has one verdict, which the machine reads: the formula that it is, or the first refusal in byte order.
pub fn formula_text_is_decided()
    ensures unique { TextIsOneFormula }
    ensures counted { EntriesAreCounted }
    ensures exact { MachineIsExact }
    ensures decided { VerdictIsOne }
    ensures accepted { AcceptedIsDerived }
    ensures malformed { MalformedIsFirst }
    ensures written { WrittenIsRead }
    ensures acts { ActionTextIsRead }
{}
