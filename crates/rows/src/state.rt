// The numbers that name states in a table.
ghost use Rattle.std.specs.Prelude.{◌<◌};

pub const STATES: u16 = 1024;

// A state that a row can name: 0 to 1,023.
#[derive(Clone, Copy)]
pub struct State {
    pub(crate) number: u16,
    ghost below: { number < 1024 },
}
