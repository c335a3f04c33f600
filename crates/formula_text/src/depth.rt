// How deep round brackets are nested.
ghost use Rattle.std.specs.Prelude.{◌≡◌, ◌-◌, ◌<◌};

// The most round brackets that may be open.
pub(crate) const DEEPEST: u8 = 16;

// One bracket more is open while this is held: when it ends, on a closing mark as on a refusal, the depth is again what
// it was before the bracket.
pub(crate) struct Inside<'a>(pub(crate) &'a mut u8);

impl Drop for Inside<'_> {
    fn drop(self)
        requires { 0 < self.0.now }
        ensures { self.exit.0.now ≡ self.entry.0.now - 1 }
    {
        *self.0 -= 1;
        let Inside(_) = self;
    }
}
