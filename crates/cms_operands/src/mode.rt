// The mode of an input that is read.
ghost use Rattle.std.specs.Prelude.{◌≡◌};
ghost use Rattle.cms_operands.specs.ReadModes.{admits, base_of};

/// The disks that a search looks at, and the files that it admits. Letters are numbers, A is 0.
#[derive(Clone, Copy)]
pub enum ReadMode {
    /// all accessed disks, in the order of their letters
    Any,
    /// the disk of a letter, and then those whose parent it is
    Letter(u8),
    /// the same, and the files of this mode number alone, 0 to 6
    Numbered(u8, u8),
}

impl ReadMode {
    /// Whether it admits files of this mode number.
    pub fn admits(&self, number: u8) -> bool
        ensures { result ≡ admits self.now number }
    {
        match self {
            ReadMode::Any | ReadMode::Letter(_) => true,
            ReadMode::Numbered(_, wanted) => number == *wanted,
        }
    }

    /// The letter that is searched first, where there is one.
    pub fn base(&self) -> Option<u8>
        ensures { result ≡ base_of self.now }
    {
        match self {
            ReadMode::Any => None,
            ReadMode::Letter(letter) | ReadMode::Numbered(letter, _) => Some(*letter),
        }
    }
}
