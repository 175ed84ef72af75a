// The size of blocks.
ghost use Rattle.std.specs.Prelude.{◌≡◌, ◌≤◌, MatchOption};
ghost use Rattle.cms_journal.specs.Journal.{IsBlockSize};

use std::marker::Model;

/// The size of the blocks of a unit, in bytes: 512, 1024, 2048 or 4096 (VM/SP CMS Command and Macro Reference, FORMAT).
/// Contracts see the number.
#[derive(Clone, Copy)]
pub struct BlockSize {
    bytes: u32,
}

impl Model for BlockSize {
    ghost use Rattle.std.specs.Prelude.{ℕ};
    ghost use Rattle.cms_journal.specs.Journal.{IsBlockSize};

    ghost Value = { ℕ };

    ghost view = { λ s. s.bytes };

    ghost invariant = { λ s. IsBlockSize s.bytes };

    ghost inverse = { λ n. record { bytes = n } };
}

impl BlockSize {
    /// The size of so many bytes, which is one of the four.
    pub fn new(bytes: u32) -> Self
        requires { IsBlockSize bytes }
        ensures { result ≡ bytes }
    {
        BlockSize { bytes }
    }

    /// The size of so many bytes; none where they aren't 512, 1024, 2048 or 4096.
    pub fn of(bytes: u32) -> Option<Self>
        ensures { MatchOption result (IsBlockSize bytes → ⊥)
            (λ size. (size ≡ bytes) × IsBlockSize bytes) }
    {
        match bytes {
            512 | 1024 | 2048 | 4096 => Some(BlockSize { bytes }),
            _ => None,
        }
    }

    /// The bytes of a block.
    pub fn bytes(self) -> u32
        ensures value { result ≡ self }
        ensures size { IsBlockSize self }
        ensures least { 512 ≤ result }
        ensures most { result ≤ 4096 }
    {
        self.bytes
    }
}
