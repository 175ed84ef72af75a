// The session: device 191 is accessed, and rounds follow until it ends.
ghost use Rattle.std.specs.Prelude.{◌≡◌, []};
ghost use Rattle.cms_search.specs.Calls.{spot, spot_with, Acts, IsUsable};
ghost use Rattle.cms_ext.specs.Objects.{objects_of};
ghost use Rattle.cms_search.specs.Turns.{machine_now};
ghost use Rattle.cms_fields.specs.Offsets.{IsOffset};
ghost use Rattle.cms_session.specs.RoundCalls.{decks_of, procedures_of};
ghost use Rattle.cms_session.specs.Calls.{access_tree, finished, rounds_tree, session_tree};

use crate::round::run_round;
use crate::state::{Finish, Round, Session};
use cms_ext::{ExtList, Extension};
use cms_search::{End, State};
use cms_world::World;
use std::alloc::Global;

// The device whose volume is disk A at the start.
const FIRST_DEVICE: u16 = 0x191;

const DISK_A: u8 = 0;

// Accesses the first device as A, where a unit has it and it holds a volume. Nothing is typed, and a fault leaves it without a letter.
fn access_first<W: World>(alloc: Global, world: &mut W, state: &mut State) -> Result<(), End>
    requires usable { IsUsable (spot W.World world.old state.old) }
    ensures acts { Acts (spot W.World world.old state.old) (spot W.World world.new state.new)
        (access_tree state.old) result (machine_now state.new) }
    ensures kept { state.new ≡ record state.old {
      table = state.new.table;
      places = state.new.places;
    } }
{
    state.access(alloc, world, FIRST_DEVICE, DISK_A, None)?;
    Ok(())
}

// Runs lines and statements until the session ends.
fn run_lines<W: World>(
    alloc: Global,
    world: &mut W,
    session: &mut Session,
    extensions: &mut ExtList,
) -> Result<Finish, End>
    requires usable { IsUsable (spot W.World world.old session.old.state) }
    requires offset { IsOffset session.old.state.offset }
    ensures { Acts (spot_with W.World world.old session.old.state
        (objects_of ⟦<dyn Extension as Extension>⟧ extensions.old))
        (spot_with W.World world.new session.new.state
        (objects_of ⟦<dyn Extension as Extension>⟧ extensions.new))
        (rounds_tree session.old (objects_of ⟦<dyn Extension as Extension>⟧ extensions.old)) result
        finished }
{
    loop {
        if let Round::Ended(finish) = run_round(alloc, world, session, extensions)? {
            return Ok(finish);
        }
    }
}

/// Runs a session in which no procedure runs yet and whose reader has no deck: the first device is accessed, and lines are run.
pub fn play<W: World>(
    alloc: Global,
    world: &mut W,
    session: &mut Session,
    extensions: &mut ExtList,
) -> Result<Finish, End>
    requires usable { IsUsable (spot W.World world.old session.old.state) }
    requires offset { IsOffset session.old.state.offset }
    requires idle { procedures_of session.old ≡ [] }
    requires empty { decks_of session.old ≡ [] }
    ensures { Acts (spot_with W.World world.old session.old.state
        (objects_of ⟦<dyn Extension as Extension>⟧ extensions.old))
        (spot_with W.World world.new session.new.state
        (objects_of ⟦<dyn Extension as Extension>⟧ extensions.new))
        (session_tree session.old.state (objects_of ⟦<dyn Extension as Extension>⟧ extensions.old))
        result finished }
{
    access_first(alloc, world, &mut session.state)?;
    run_lines(alloc, world, session, extensions)
}
