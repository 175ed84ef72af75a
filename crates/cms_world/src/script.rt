// The bytes of the console that are still to be read.
ghost use Rattle.std.specs.Prelude.{◌≡◌, ◌≤◌, List, ℕ, length, take, drop, min, vec_len};

use std::marker::Model;

/// The script, of which contracts see the bytes that are left.
#[derive(Drop)]
pub struct Script {
    bytes: Vec<u8>,
    taken: usize,
}

impl Model for Script {
    ghost Value = { List ℕ };

    ghost view = { λ s. drop s.taken s.bytes.items };

    ghost invariant = { λ s. s.taken ≤ vec_len s.bytes };
}

impl Script {
    /// A script of which nothing is taken yet.
    pub fn new(bytes: Vec<u8>) -> Self
        ensures { result ≡ bytes.items }
    {
        Script { bytes, taken: 0 }
    }

    /// Copies the next bytes to the front, as many as there is room for, and says how many: none at the end.
    pub fn copy(&self, into: &mut [u8]) -> usize
        ensures count { result ≡ min (length into.old) (length self.now) }
        ensures bytes { take result into.new ≡ take result self.now }
    {
        let rest = &self.bytes[self.taken..];
        let count = into.len().min(rest.len());
        into[..count].copy_from_slice(&rest[..count]);
        count
    }

    /// Goes on past so many bytes.
    pub fn advance(&mut self, count: usize)
        requires { count ≤ length self.old }
        ensures { self.new ≡ drop count self.old }
    {
        self.taken += count;
    }
}
