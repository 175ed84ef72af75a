// Why a word is no name.

/// Why a word spells no part or pattern: the first of these that holds.
#[derive(Clone, Copy, Debug, PartialEq, Eq)]
pub enum NameFault {
    /// it has no characters
    Empty,
    /// it has more than 8
    TooLong,
    /// the place, from 0, of the first character that a name or a pattern can't have
    BadChar(u32),
}
