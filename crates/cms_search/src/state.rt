// What a session holds apart from its world.
ghost use Rattle.std.specs.Prelude.{◌≡◌, ◌≤◌, true, IfOk, OnErr, OnOk, drop};
ghost use Rattle.cms_fields.specs.Moments.{is_moment};
ghost use Rattle.cms_search.specs.Calls.{Acts, first_state, spot};
ghost use Rattle.cms_search.specs.Tables.{HaveDistinctDevices};
ghost use Rattle.cms_search.specs.Talks.{KeepsRead, ask_tree, asked_of};
ghost use Rattle.cms_search.specs.declared.state.End.TheVariants.{Memory};

use crate::asked_line::{Asked, ask};
use crate::places::Places;
use crate::table::{AccessTable, UnitList};
use cms_fields::{FIRST_MOMENT, Moment};
use cms_line::{Console, ProgStack};
use cms_words::Words;
use cms_world::World;
use std::alloc::{AllocError, AllocFailed, Global};

/// A unit's device.
#[derive(Clone, Copy)]
pub struct Device {
    /// its number, 1 to 0xFFF
    pub vdev: u16,
    /// its block size in bytes: 512, 1024, 2048 or 4096
    pub bsize: u32,
    /// how many blocks it has
    pub blocks: u32,
    /// it may be written
    pub writable: bool,
}

/// The session's state: all that it holds apart from its world.
#[derive(Drop)]
pub struct State {
    /// the units, and the letters as which their disks are accessed
    pub table: AccessTable,
    /// the lines that were left for the next command that asks for one
    pub stack: ProgStack,
    pub console: Console,
    /// where reading goes on, in files that were read in part
    pub places: Places,
    /// that of the last turn
    pub moment: Moment,
    /// by how many seconds civil time is ahead of UTC: at most 54,000 either way
    pub offset: i32,
    /// the turns that are left
    pub left: u64,
}

impl State {
    /// The state of a session that starts on units with distinct devices: nothing is accessed, no line is stacked, no reading place is
    /// kept, no script is given, and the moment is 1970-01-01 00:00:00.
    pub fn new(alloc: Global, words: &Words, units: UnitList) -> Result<State, AllocError>
        requires { HaveDistinctDevices units }
        ensures first { IfOk result (λ state. state ≡ first_state words.now units) }
        ensures moment { IfOk result (λ state. is_moment state.moment ≡ true) }
    {
        Ok(State {
            table: AccessTable::new(alloc, units)?,
            stack: ProgStack::new(alloc),
            console: Console::new(alloc, None)?,
            places: Places::new(alloc),
            moment: FIRST_MOMENT,
            offset: words.offset,
            left: words.turns,
        })
    }

    /// The line that a command asks for, as `ask` gives it. After an `Err` the stack is as before,
    /// what was dropped and spent stays so, and all else that was read is kept.
    pub fn ask<W: World>(&mut self, alloc: Global, world: &mut W) -> Result<Asked, End>
        ensures acts { Acts (spot W.World world.old self.old) (spot W.World world.new self.new)
            (ask_tree self.old) result (asked_of self.new) }
        ensures kept { self.new ≡ record self.old {
          stack = self.new.stack;
          console = self.new.console;
          left = self.new.left;
        } }
        ensures stack { OnErr result (self.new.stack ≡ self.old.stack) }
        ensures took { OnOk result (self.new.stack ≡ drop 1 self.old.stack) }
        ensures read { OnErr result (KeepsRead (W.told world.old) (W.told world.new)
            self.old.console self.new.console self.old.left self.new.left) }
        ensures left { self.new.left ≤ self.old.left }
    {
        ask(
            alloc,
            world,
            &mut self.stack,
            &mut self.console,
            &mut self.left,
        )
    }
}

/// Why a call is cut off.
#[derive(Clone, Copy)]
pub enum End {
    /// there is no memory
    Memory,
    /// the console or the clock failed
    Edge,
}

impl From<AllocError> for End {
    ghost from_gives = { λ _ e. e ≡ Memory };

    fn from(_: AllocError) -> Self {
        End::Memory
    }
}

impl<T: Drop> From<AllocFailed<T>> for End {
    ghost from_gives = { λ _ e. e ≡ Memory };

    fn from(_: AllocFailed<T>) -> Self {
        End::Memory
    }
}

/// How a command ends.
#[derive(Clone, Copy)]
pub enum Course {
    /// with this return code
    Went(i32),
    /// no turn is left for a line that it asks for
    OutOfTurns,
}
