// Formulas of Hennessy-Milner logic as lists of entries.
#![tactic(auto)]

ghost use Rattle.formula.specs.Theorems.{AppendingKeeps, AppendingAdds, AppendingIsSound};

pub mod entry;

// What it means to append a list behind the entries held: earlier formulas stay as they are, and each entry of the list
// stands for the same formula as before, under its raised number.
pub fn appending_keeps_meaning()
    ensures keeps { AppendingKeeps }
    ensures adds { AppendingAdds }
    ensures sound { AppendingIsSound }
{}
