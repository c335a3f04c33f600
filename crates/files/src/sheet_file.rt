// The bytes of a file that holds a sheet.
use bounded::Bounded;

pub(crate) const MOST_BYTES: usize = 16384;

// At most 16,384 bytes, with the memory for all of them.
#[derive(Drop)]
pub struct SheetFile {
    pub(crate) bytes: Bounded<u8, MOST_BYTES>,
}

// Why a file is refused.
#[derive(Clone, Copy, PartialEq, Eq, Debug)]
pub enum FileRefusal {
    // it cannot be read as a file
    Unreadable = 41,
    // it has more than 16,384 bytes
    TooLarge = 42,
}
