// A place in a sheet that is lent.
ghost use Rattle.std.specs.Prelude.{◌^◌, ◌<◌, ◌≤◌, length};

// The bytes of a sheet, and how many of them are read.
#[derive(Drop)]
pub struct Cursor<'a> {
    pub(crate) sheet: &'a [u8],
    pub(crate) at: usize,
    ghost within: { at ≤ length sheet.now },
    ghost fits: { length sheet.now < 2 ^ 64 },
}
