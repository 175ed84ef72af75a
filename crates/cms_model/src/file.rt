// A file as it is handed about: its stored bytes and what is said of them.
ghost use Rattle.std.specs.Prelude.{◌≡◌};

use cms_fields::Stamp;
use cms_names::Format;
use std::marker::Model;

/// The stored bytes of a file, seen as a list.
#[derive(Drop)]
pub struct Stored {
    bytes: Vec<u8>,
}

impl Model for Stored {
    ghost use Rattle.std.specs.Prelude.{List, ℕ};

    ghost Value = { List ℕ };

    ghost view = { λ s. s.bytes.items };
}

impl Stored {
    /// These bytes. Takes no memory.
    pub fn take(bytes: Vec<u8>) -> Stored
        ensures { result ≡ bytes.items }
    {
        Stored { bytes }
    }

    /// The bytes.
    pub fn bytes(&self) -> &[u8]
        ensures { result.now ≡ self.now }
    {
        &self.bytes
    }
}

/// A file's records as they are stored, with its format, mode number and stamp.
#[derive(Drop)]
pub struct FileData {
    pub format: Format,
    /// the length of each record at F, of the longest at V, 1 to 65,535
    pub length: u32,
    /// the mode number, 0 to 6
    pub number: u8,
    pub stamp: Stamp,
    /// the number of records
    pub count: u32,
    /// at F the records one after another; at V before each its two-byte length
    pub bytes: Stored,
}
