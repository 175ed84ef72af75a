// A host file that is open, and the bytes that are left of it.
ghost use Rattle.std.specs.Prelude.{◌≡◌, ◌≤◌, List, ℕ, length, take, drop, min, vec_len, IfOk};

use std::alloc::{AllocError, Global};
use std::marker::Model;

/// The bytes of an open file that are still to be read.
#[derive(Drop)]
pub struct Source {
    bytes: Vec<u8>,
    taken: usize,
}

impl Model for Source {
    ghost Value = { List ℕ };

    ghost view = { λ s. drop s.taken s.bytes.items };

    ghost invariant = { λ s. s.taken ≤ vec_len s.bytes };
}

impl Source {
    /// A copy of these bytes, of which none is read yet.
    pub fn of(alloc: Global, bytes: &[u8]) -> Result<Self, AllocError>
        ensures { IfOk result (λ source. source ≡ bytes.now) }
    {
        Ok(Source {
            bytes: bytes.to_vec(alloc)?,
            taken: 0,
        })
    }

    /// Reads the next bytes into the front, as many as there is room for, and says how many: none at the end.
    pub fn read(&mut self, into: &mut [u8]) -> usize
        ensures count { result ≡ min (length into.old) (length self.old) }
        ensures bytes { take result into.new ≡ take result self.old }
        ensures left { self.new ≡ drop result self.old }
    {
        let rest = &self.bytes[self.taken..];
        let count = into.len().min(rest.len());
        into[..count].copy_from_slice(&rest[..count]);
        self.taken += count;
        count
    }
}
