// One row of a table.
use crate::state::State;
use actions::action::Action;

// A move, by an action, from one state to another.
#[derive(Clone, Copy)]
pub struct Row {
    pub from: State,
    pub action: Action,
    pub to: State,
}
