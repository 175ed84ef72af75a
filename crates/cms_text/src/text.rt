// Small texts in EBCDIC.
ghost use Rattle.std.specs.Prelude.{◌≡◌, ◌≤◌, length, IfOk};
ghost use Rattle.cms_text.specs.Limits.{longest_text};

use std::alloc::{AllocError, Global};
use std::marker::Model;

/// The most bytes of a line or a word.
pub const LONGEST_TEXT: usize = 255;

/// A text of 0 to 255 bytes.
#[derive(Drop)]
pub struct ShortText {
    bytes: Vec<u8>,
}

impl Model for ShortText {
    ghost use Rattle.std.specs.Prelude.{List, ℕ, length, ◌≤◌};
    ghost use Rattle.cms_text.specs.Limits.{longest_text};

    ghost Value = { List ℕ };

    ghost view = { λ t. t.bytes.items };

    ghost invariant = { λ t. length t.bytes.items ≤ longest_text };
}

impl ShortText {
    /// A text of these bytes.
    pub fn of(alloc: Global, bytes: &[u8]) -> Result<Self, AllocError>
        requires { length bytes.now ≤ longest_text }
        ensures { IfOk result (λ text. text ≡ bytes.now) }
    {
        Ok(ShortText {
            bytes: bytes.to_vec(alloc)?,
        })
    }

    /// A text of these bytes. Takes no memory.
    pub fn take(bytes: Vec<u8>) -> Self
        requires { length bytes.items ≤ longest_text }
        ensures { result ≡ bytes.items }
    {
        ShortText { bytes }
    }

    /// The bytes, 0 to 255.
    pub fn bytes(&self) -> &[u8]
        ensures bytes { result.now ≡ self.now }
        ensures short { length self.now ≤ longest_text }
    {
        &self.bytes
    }

    /// The bytes, 0 to 255, moved out.
    pub fn into_bytes(self) -> Vec<u8>
        ensures bytes { result.items ≡ self }
        ensures short { length self ≤ longest_text }
    {
        self.bytes
    }
}

/// A line of the console, of a file or of the program stack.
pub type Line = ShortText;

/// A word of a line.
pub type Word = ShortText;
