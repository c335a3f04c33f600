// One entry of a formula list.

// A formula whose parts are earlier entries of the same list, by their numbers from 0. May and must name an action, by
// its number, and one entry. True is the default: it stands in the places of a list in fixed memory that are not used.
//
// Numbers, since lists are handed in and may be unsound: an action over 52 is refused when the list is entered.
#[derive(Clone, Copy, PartialEq, Eq, Debug, Default)]
pub enum Entry {
    #[default]
    True,
    False,
    And(u8, u8),
    Or(u8, u8),
    May(u8, u8),
    Must(u8, u8),
}
