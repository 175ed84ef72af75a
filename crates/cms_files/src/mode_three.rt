// Files of mode number 3, which are erased once they are read to their end.
ghost use Rattle.std.specs.Prelude.{◌≡◌, true, Some, Ok};
ghost use Rattle.cms_fields.specs.Moments.{is_moment};
ghost use Rattle.cms_names.specs.declared.name.Name as names;
ghost use Rattle.cms_search.specs.Calls.{Acts, IsUsable, course_of, machine_of, spot};
ghost use Rattle.cms_search.specs.Machine.{Machine};
ghost use Rattle.cms_search.specs.Searches.{item_at};
ghost use Rattle.cms_search.specs.Shows.{Shows};
ghost use Rattle.cms_search.specs.Tables.{letters_of, writing};
ghost use Rattle.cms_files.specs.ModeThree as spec;
ghost use Rattle.cms_files.specs.Told as told;
ghost use Rattle.cms_files.specs.Updates.{updated_of};

use crate::told::info_named;
use crate::update::{Updated, update_disk};
use cms_disk::FileInfo;
use cms_edf::Change;
use cms_names::Name;
use cms_search::{AccessTable, Course, End, State};
use cms_world::World;
use std::alloc::Global;

// The mode number of files that are erased once they are read.
const READ_ONCE: u8 = 3;

/// Whether reading a file on the disk of a letter, of which this is told, to its end erases it: its mode number is 3, and the disk isn't
/// read-only.
pub fn is_consumed(table: &AccessTable, letter: u8, info: &FileInfo) -> bool
    ensures machine { (name : names.Name) (s : Machine)
        → Some info.now ≡ told.info_named table.now letter name → Shows table.now s
        → result ≡ spec.is_consumed s letter name }
    ensures writing { result ≡ true
        → writing (item_at (letters_of table.now) letter) letter ≡ Ok tt }
{
    info.number == READ_ONCE && table.find_write(letter).is_ok()
}

/// Ends the work on the file of a name on the disk of a letter, of which this is told and which was read to its end: where that erases it,
/// it goes by an update of its own. Want of room and a fault of the device are typed, and end the command; the file stays then, or its disk
/// is in doubt.
pub fn consume_told<W: World>(
    alloc: Global,
    world: &mut W,
    state: &mut State,
    letter: u8,
    name: &Name,
    info: &FileInfo,
) -> Result<Updated, End>
    requires usable { IsUsable (spot W.World world.old state.old) }
    requires moment { is_moment state.old.moment ≡ true }
    requires told { Some info.now ≡ told.info_named state.old.table letter name.now }
    ensures acts { Acts (spot W.World world.old state.old) (spot W.World world.new state.new)
        (spec.consuming_tree state.old letter name.now) result (updated_of state.new) }
    ensures kept { state.new ≡ record state.old {
      table = state.new.table;
      places = state.new.places;
    } }
{
    if !is_consumed(&state.table, letter, info) {
        return Ok(Updated::Done);
    }
    update_disk(alloc, world, state, letter, &Change::Drop { name })
}

/// The same, as the last thing of a command.
pub fn consume_last<W: World>(
    alloc: Global,
    world: &mut W,
    state: &mut State,
    letter: u8,
    name: &Name,
    info: &FileInfo,
) -> Result<Course, End>
    requires usable { IsUsable (spot W.World world.old state.old) }
    requires moment { is_moment state.old.moment ≡ true }
    requires told { Some info.now ≡ told.info_named state.old.table letter name.now }
    ensures acts { Acts (spot W.World world.old state.old) (spot W.World world.new state.new)
        (λ units. spec.last_consuming (machine_of state.old units) letter name.now) result
        (course_of state.new) }
    ensures kept { state.new ≡ record state.old {
      table = state.new.table;
      places = state.new.places;
    } }
{
    match consume_told(alloc, world, state, letter, name, info)? {
        Updated::Done => Ok(Course::Went(0)),
        Updated::Stopped(course) => Ok(course),
    }
}

/// The same behind an update, by which what was told of the file may be another: it is looked for anew.
pub fn consume<W: World>(
    alloc: Global,
    world: &mut W,
    state: &mut State,
    letter: u8,
    name: &Name,
) -> Result<Updated, End>
    requires usable { IsUsable (spot W.World world.old state.old) }
    requires moment { is_moment state.old.moment ≡ true }
    ensures acts { Acts (spot W.World world.old state.old) (spot W.World world.new state.new)
        (spec.consuming_tree state.old letter name.now) result (updated_of state.new) }
    ensures kept { state.new ≡ record state.old {
      table = state.new.table;
      places = state.new.places;
    } }
{
    match info_named(&state.table, letter, name) {
        Some(info) => consume_told(alloc, world, state, letter, name, &info),
        None => Ok(Updated::Done),
    }
}
