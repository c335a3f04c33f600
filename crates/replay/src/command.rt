// A command of the script, as its line has it.

#[derive(Clone, Copy, Debug)]
pub(crate) enum Command<'a> {
    // with the text of a formula, which is read once it is its turn
    Enter(&'a str),
    Settle,
    Ask(Asking),
    Reopen,
}

// What is asked, before memory is lent for its answer.
#[derive(Clone, Copy, Debug)]
pub(crate) enum Asking {
    Rule { formula: u8, state: u16 },
    Reach { formula: u8, state: u16, size: u16 },
    Alike { first: u16, second: u16 },
    Tell { first: u16, second: u16, size: u16 },
}
