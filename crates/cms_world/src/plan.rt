// The calls of a world in memory, and those that are to fail.
ghost use Rattle.std.specs.Prelude.{◌≡◌, ◌↔◌, ◌∷◌, ◌++◌, [], Some, true, OnOk, OnErr, IsTrue};

use std::alloc::{AllocError, Global};

/// The letter of an attach.
pub const ATTACH: u8 = b'a';

/// The letter of a read of a block.
pub const READ_BLOCK: u8 = b'r';

/// The letter of a write of a block.
pub const WRITE_BLOCK: u8 = b'w';

/// The letter of a sync.
pub const SYNC: u8 = b's';

/// The letter of a read of the script.
pub const READ: u8 = b'i';

/// The letter of typing.
pub const TYPE_OUT: u8 = b'o';

/// The letter of a look at the clock.
pub const NOW: u8 = b'n';

/// A call that is to fail.
#[derive(Clone, Copy)]
pub struct Planned {
    /// its number, from 1 over all calls
    pub call: u32,
    /// a write adds its event
    pub lands: bool,
}

/// What the plan says of a call.
#[derive(Clone, Copy)]
pub enum Next {
    /// it is done
    Goes,
    /// it fails
    Fails,
}

/// The calls so far, and those that are to fail.
#[derive(Drop)]
pub struct Plan {
    /// a letter for each call so far
    pub calls: Vec<u8>,
    /// in the order in which they were planned
    pub failing: Vec<Planned>,
}

impl Plan {
    ghost use Rattle.cms_world.specs.Plan.{planned_of, next_number, IsNext};

    /// A plan under which no call fails.
    pub fn new(alloc: Global) -> Self
        ensures calls { result.calls.items ≡ [] }
        ensures failing { result.failing.items ≡ [] }
    {
        Plan {
            calls: Vec::new(alloc),
            failing: Vec::new(alloc),
        }
    }

    /// The call with this number, from 0, is to fail; `lands` says whether what it writes stands all the same.
    pub fn fail_at(&mut self, call: u32, lands: bool) -> Result<(), AllocError>
        ensures ok { OnOk result (self.new.failing.items
            ≡ self.old.failing.items ++ record { call = call; lands = lands } ∷ []) }
        ensures err { OnErr result (self.new.failing.items ≡ self.old.failing.items) }
        ensures calls { self.new.calls.items ≡ self.old.calls.items }
    {
        self.failing.push(Planned { call, lands })?;
        Ok(())
    }

    /// Writes a call down, and says what comes of it.
    pub fn next(&mut self, letter: u8) -> Next
        ensures next { IsNext letter self.old self.new result }
        ensures failing { self.new.failing.items ≡ self.old.failing.items }
    {
        if self.write_down(letter).is_err() {
            return Next::Fails;
        }
        match self.planned(self.calls.len()) {
            None => Next::Goes,
            Some(_) => Next::Fails,
        }
    }

    /// Whether the next call is to fail, and what it writes stands all the same.
    pub fn lands_next(&self) -> bool
        ensures { IsTrue result
            ↔ (planned_of self.now.failing.items (next_number self.now) ≡ Some true) }
    {
        self.planned(self.calls.len() + 1) == Some(true)
    }

    /// Writes a call down by its letter.
    pub fn write_down(&mut self, letter: u8) -> Result<(), AllocError>
        ensures ok { OnOk result (self.new.calls.items ≡ self.old.calls.items ++ letter ∷ []) }
        ensures err { OnErr result (self.new.calls.items ≡ self.old.calls.items) }
        ensures failing { self.new.failing.items ≡ self.old.failing.items }
    {
        self.calls.push(letter)?;
        Ok(())
    }

    fn planned(&self, number: usize) -> Option<bool>
        ensures { result ≡ planned_of self.now.failing.items number }
    {
        self.failing
            .iter()
            .rev()
            .find(|p| p.call as usize == number)
            .map(|p| p.lands)
    }
}
