// Records that are handed about one by one.
ghost use Rattle.std.specs.Prelude.{◌≡◌, ◌≤◌, length, IfOk};
ghost use Rattle.cms_fields.specs.Limits.{longest_record};

use cms_text::Series;
use std::alloc::{AllocError, Global};
use std::marker::Model;

/// A record of a file: 1 to 65,535 bytes.
#[derive(Drop)]
pub struct Record {
    bytes: Vec<u8>,
}

impl Model for Record {
    ghost use Rattle.std.specs.Prelude.{List, ℕ, length, ◌≤◌};
    ghost use Rattle.cms_fields.specs.Limits.{longest_record};

    ghost Value = { List ℕ };

    ghost view = { λ r. r.bytes.items };

    ghost invariant = { λ r. (1 ≤ length r.bytes.items) × (length r.bytes.items ≤ longest_record) };
}

impl Record {
    /// A record of these bytes.
    pub fn of(alloc: Global, bytes: &[u8]) -> Result<Record, AllocError>
        requires some { 1 ≤ length bytes.now }
        requires short { length bytes.now ≤ longest_record }
        ensures { IfOk result (λ made. made ≡ bytes.now) }
    {
        Ok(Record {
            bytes: bytes.to_vec(alloc)?,
        })
    }

    /// A record of these bytes. Takes no memory.
    pub fn take(bytes: Vec<u8>) -> Record
        requires some { 1 ≤ length bytes.items }
        requires short { length bytes.items ≤ longest_record }
        ensures { result ≡ bytes.items }
    {
        Record { bytes }
    }

    /// The bytes, 1 to 65,535.
    pub fn bytes(&self) -> &[u8]
        ensures bytes { result.now ≡ self.now }
        ensures some { 1 ≤ length self.now }
        ensures short { length self.now ≤ longest_record }
    {
        &self.bytes
    }
}

/// The records of a file.
pub type Records = Series<Record>;
