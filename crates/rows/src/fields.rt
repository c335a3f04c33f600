// The fields of a line, as parts of the sheet.
use arrayvec::ArrayVec;

// At most 8 fields, in order.
#[derive(Drop)]
pub struct Fields<'a> {
    pub(crate) parts: ArrayVec<&'a [u8], 8>,
}
