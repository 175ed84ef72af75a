// Standard output, gathered.
ghost use Rattle.std.specs.Prelude.{◌≡◌, ◌≤◌, ◌<◌, ◌↔◌, ◌++◌, [], length, take, IfSome, IfOk, IsTrue, IsNone, false};
ghost use Rattle.cms_host.specs.Deeds.{Prints, then_done, printing};

use crate::system::System;
use std::alloc::{AllocError, Global};
use std::marker::Model;

/// How many bytes are gathered.
const ROOM: usize = 65_536;

// Prints all bytes, or as many as it can: how many.
#[tactic(auto, using(crate::proofs::Printed::front_lemmas))]
fn print_front<S: System>(system: &mut S, from: &[u8]) -> usize
    ensures within { result ≤ length from.now }
    ensures printed { S.told system.new
        ≡ then_done (S.told system.old) (printing (take result from.now)) }
    ensures files { S.files system.new ≡ S.files system.old }
{
    let mut printed = 0;
    while printed < from.len() {
        match system.print(&from[printed..]) {
            Some(count) => printed += count,
            None => return printed,
        }
    }
    printed
}

/// What was typed and isn't printed yet. Contracts see its bytes.
#[derive(Drop)]
pub struct Gathered {
    bytes: Vec<u8>,
    printed: usize,
    lines: bool,
}

impl Model for Gathered {
    ghost use Rattle.std.specs.Prelude.{List, ℕ, length, drop, ◌≤◌};

    ghost Value = { List ℕ };

    ghost view = { λ g. drop g.printed g.bytes.items };

    ghost invariant = { λ g. g.printed ≤ length g.bytes.items };
}

impl Gathered {
    /// Nothing, with room for 65,536 bytes. Where output is taken line by line, as by a terminal, nothing is gathered.
    pub fn new(alloc: Global, lines: bool) -> Result<Gathered, AllocError>
        ensures { IfOk result (λ gathered. gathered ≡ []) }
    {
        Ok(Gathered {
            bytes: Vec::with_capacity(alloc, ROOM)?,
            printed: 0,
            lines,
        })
    }

    /// Prints all that was gathered, and says whether it could: what couldn't be printed stays. A printer may take some bytes before
    /// it fails, so what was printed then is any front of them.
    #[tactic(auto, using(crate::proofs::Printed::flush_lemmas))]
    pub fn flush<S: System>(&mut self, system: &mut S) -> bool
        ensures all { IsTrue result ↔ (self.new ≡ []) }
        ensures prints { Prints self.old self.new (S.told system.old) (S.told system.new) }
        ensures files { S.files system.new ≡ S.files system.old }
    {
        let count = print_front(system, &self.bytes[self.printed..]);
        self.printed += count;
        if self.printed < self.bytes.len() {
            return false;
        }
        self.bytes.clear();
        self.printed = 0;
        true
    }

    // Gathers bytes where there is room for them, and says whether there was.
    #[tactic(auto, using(crate::proofs::Printed::gather_lemmas))]
    fn gather(&mut self, from: &[u8]) -> bool
        ensures gathered { IsTrue result → self.new ≡ self.old ++ from.now }
        ensures full { result ≡ false → self.new ≡ self.old }
    {
        if self.lines {
            return false;
        }
        if from.len() > ROOM.saturating_sub(self.bytes.len()) {
            return false;
        }
        match self.bytes.extend_from_slice(from) {
            Ok(()) => true,
            Err(_) => false,
        }
    }

    /// Takes bytes of the front, at least one: how many, or none where they can't be printed.
    ///
    /// They are gathered where there is room for them, once all that was gathered is printed where there isn't. More than there
    /// is ever room for, or where nothing is gathered, they are printed at once.
    #[tactic(auto, using(crate::proofs::Printed::add_lemmas))]
    pub fn add<S: System>(&mut self, system: &mut S, from: &[u8]) -> Option<usize>
        requires { 0 < length from.now }
        ensures within { IfSome result (λ n. (0 < n) × (n ≤ length from.now)) }
        ensures taken { IfSome result (λ n.
            Prints (self.old ++ take n from.now) self.new (S.told system.old) (S.told system.new)) }
        ensures failed { IsNone result
            → Prints self.old self.new (S.told system.old) (S.told system.new) }
        ensures files { S.files system.new ≡ S.files system.old }
    {
        if self.gather(from) {
            return Some(from.len());
        }
        if !self.flush(system) {
            return None;
        }
        if self.gather(from) {
            return Some(from.len());
        }
        system.print(from)
    }
}
