// The classes of bisimilar states.

// The most states of a graph, and so the most classes.
pub const STATES: usize = 2048;

// The name from which a name parted, and the depth at which the two first disagree. Name 0 and what is no name have 0
// at depth 0, at which nothing parts.
#[derive(Clone, Copy, Default)]
pub(crate) struct Parting {
    pub(crate) parent: u16,
    pub(crate) depth: u16,
}

// For each state the lowest state of its class, which names it, and for each name but 0 how it parted. Two arrays,
// since a round replaces the names as they stand and leaves the partings; fixed ones, since settling allocates nothing.
// Which system they are those of is no part of them, as a bench moves its systems: contracts say it by `Refined`.
#[derive(Clone, Copy)]
pub struct Classes {
    pub(crate) names: [u16; STATES],
    pub(crate) partings: [Parting; STATES],
}
