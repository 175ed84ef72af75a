// Why words are refused.
ghost use Rattle.std.specs.Prelude.{◌≡◌};
ghost use Rattle.cms_words.specs.Words.{number_of};

use thiserror::Error;

/// Why the program's words are refused: the first of these, in this order. Want of memory is apart.
#[derive(Clone, Copy, Debug, PartialEq, Eq, Error)]
pub enum WordFault {
    /// The words aren't of the command's form: there is no unit word, an option is unknown or given twice, or its value lacks.
    #[error("Syntax")]
    Syntax,
    /// The unit word of this number, from 1, isn't VDEV,BSIZE,ACCESS,NAME, or it is the 17th.
    #[error("Unit")]
    Unit(u32),
    /// The value of `-t` isn't 1 to 10 digits with a value from 1 to 1,000,000,000.
    #[error("Turns")]
    Turns,
    /// The value of `-z` isn't E or W and four digits, hours to 14 and minutes to 59.
    #[error("Zone")]
    Zone,
    /// Two unit words have this device; it is that of the first word whose device an earlier one has.
    #[error("Twice")]
    Twice(u16),
    /// The value of `-g` isn't 1 to 10 digits with a value to 2,147,483,647.
    #[error("Seed")]
    Seed,
    /// There is no memory.
    #[error("Memory")]
    Memory,
}

impl WordFault {
    /// The number of the reason, by which the program names it: 1 to 6 in the order above, and 0 for want of memory.
    pub fn number(&self) -> u32
        ensures { result ≡ number_of self.now }
    {
        match self {
            WordFault::Syntax => 1,
            WordFault::Unit(_) => 2,
            WordFault::Turns => 3,
            WordFault::Zone => 4,
            WordFault::Twice(_) => 5,
            WordFault::Seed => 6,
            WordFault::Memory => 0,
        }
    }
}
