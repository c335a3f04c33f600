// What a settled bench keeps.
use refine::classes::Classes;
use verdicts::words::Verdicts;

// The verdict of each formula at each state, and the classes of the states, in fixed arrays, since settling allocates
// nothing. The distances are for looking for runs, and mean nothing between calls.
#[derive(Drop)]
pub struct Inner {
    pub(crate) verdicts: Verdicts,
    pub(crate) classes: Classes,
    pub(crate) distances: [Option<u16>; 2048],
}
