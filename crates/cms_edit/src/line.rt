// The lines of a file that is edited.
ghost use Rattle.std.specs.Prelude.{◌≡◌, ◌≤◌, length, IfOk};
ghost use Rattle.cms_text.specs.Limits.{longest_text};

use std::alloc::{AllocError, Global};
use std::marker::Model;

/// A line of a file that is edited: 1 to 255 bytes.
#[derive(Drop)]
pub struct FileLine {
    bytes: Vec<u8>,
}

impl Model for FileLine {
    ghost use Rattle.std.specs.Prelude.{List, ℕ, length, ◌≤◌};
    ghost use Rattle.cms_text.specs.Limits.{longest_text};

    ghost Value = { List ℕ };

    ghost view = { λ l. l.bytes.items };

    ghost invariant = { λ l. (1 ≤ length l.bytes.items) × (length l.bytes.items ≤ longest_text) };
}

impl FileLine {
    /// A line of these bytes.
    pub fn of(alloc: Global, bytes: &[u8]) -> Result<FileLine, AllocError>
        requires some { 1 ≤ length bytes.now }
        requires short { length bytes.now ≤ longest_text }
        ensures { IfOk result (λ line. line ≡ bytes.now) }
    {
        Ok(FileLine {
            bytes: bytes.to_vec(alloc)?,
        })
    }

    /// A line of these bytes. Takes no memory.
    pub fn take(bytes: Vec<u8>) -> FileLine
        requires some { 1 ≤ length bytes.items }
        requires short { length bytes.items ≤ longest_text }
        ensures { result ≡ bytes.items }
    {
        FileLine { bytes }
    }

    /// The bytes, 1 to 255.
    pub fn bytes(&self) -> &[u8]
        ensures bytes { result.now ≡ self.now }
        ensures some { 1 ≤ length self.now }
        ensures short { length self.now ≤ longest_text }
    {
        &self.bytes
    }
}
