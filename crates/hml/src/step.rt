// One move of a run, as a path has it. The form is set, as callers lend the path: the action is its number.
#[derive(Clone, Copy, PartialEq, Eq, Debug)]
pub struct Step {
    pub action: u8,
    pub target: u16,
}
