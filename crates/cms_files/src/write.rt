// Files that are put or added to.
ghost use Rattle.std.specs.Prelude.{◌≡◌, ℕ, List, [], ◌∷◌, true, Ok};
ghost use Rattle.std.specs.Option.{ForSome};
ghost use Rattle.cms_fields.specs.Moments.{is_moment};
ghost use Rattle.cms_model.specs.Changes as model;
ghost use Rattle.cms_model.specs.Records.{IsValid, StandsFor};
ghost use Rattle.cms_search.specs.Calls.{Acts, IsUsable, course_of, machine_of, spot};
ghost use Rattle.cms_search.specs.DeviceSteps.{changing_of};
ghost use Rattle.cms_search.specs.FileWrites.{FitsUpdate, change_with, data_of};
ghost use Rattle.cms_search.specs.Searches.{item_at};
ghost use Rattle.cms_search.specs.Tables.{letters_of, writing};
ghost use Rattle.cms_files.specs.Updates as spec;

use crate::update::{Updated, stopped};
use cms_names::Name;
use cms_search::{Changed, Course, End, FileWrite, PlaceEvent, State, tell_change, update_file};
use cms_world::World;
use std::alloc::Global;

/// Ends an update of the file of a name on the disk of a letter, which is that of this device; the update came to this. Where it is done no
/// reading place is kept in the file. A limit and want of room are typed; these end the command, as a fault of the device has.
pub fn end_writing<W: World>(
    alloc: Global,
    world: &mut W,
    state: &mut State,
    letter: u8,
    vdev: u16,
    name: &Name,
    changed: Changed,
) -> Result<Updated, End>
    ensures acts { (change : model.Change) → spec.names_of change ≡ name.now ∷ []
        → Acts (spot W.World world.old state.old) (spot W.World world.new state.new)
        (λ units. spec.updated letter vdev change (changing_of state.old units changed)) result
        (spec.updated_of state.new) }
    ensures kept { state.new ≡ record state.old { places = state.new.places } }
{
    match changed {
        Changed::Done => {
            state.places.after(PlaceEvent::Changed(vdev, *name));
            Ok(Updated::Done)
        }
        _ => stopped(tell_change(alloc, world, state, letter, changed)),
    }
}

/// One update of the disk of an accessed letter that may be written: a file is put, or records are added to one that is there. No reading
/// place is kept in the file then. A limit, want of room and a fault of the device are typed, and end the command.
pub fn write_file<W: World>(
    alloc: Global,
    world: &mut W,
    state: &mut State,
    letter: u8,
    name: &Name,
    update: FileWrite,
) -> Result<Updated, End>
    requires usable { IsUsable (spot W.World world.old state.old) }
    requires writing { writing (item_at (letters_of state.old.table) letter) letter ≡ Ok tt }
    requires fits { ForSome (item_at state.old.table.seats letter)
        (λ s. FitsUpdate s.disk.volume name.now update) }
    requires valid { IsValid (data_of update) }
    requires moment { is_moment state.old.moment ≡ true }
    ensures acts { (records : List (List ℕ)) → StandsFor (data_of update.entry) records
        → Acts (spot W.World world.old state.old) (spot W.World world.new state.new)
        (spec.updating_tree state.old letter (change_with name.now update.entry records)) result
        (spec.updated_of state.new) }
    ensures kept { state.new ≡ record state.old {
      table = state.new.table;
      places = state.new.places;
    } }
{
    let vdev = state.table.vdev(letter);
    let changed = update_file(alloc, world, state, letter, name, update)?;
    end_writing(alloc, world, state, letter, vdev, name, changed)
}

/// One update of a file, as `write_file` makes it, as the last thing of a command.
pub fn write_last<W: World>(
    alloc: Global,
    world: &mut W,
    state: &mut State,
    letter: u8,
    name: &Name,
    update: FileWrite,
) -> Result<Course, End>
    requires usable { IsUsable (spot W.World world.old state.old) }
    requires writing { writing (item_at (letters_of state.old.table) letter) letter ≡ Ok tt }
    requires fits { ForSome (item_at state.old.table.seats letter)
        (λ s. FitsUpdate s.disk.volume name.now update) }
    requires valid { IsValid (data_of update) }
    requires moment { is_moment state.old.moment ≡ true }
    ensures acts { (records : List (List ℕ)) → StandsFor (data_of update.entry) records
        → Acts (spot W.World world.old state.old) (spot W.World world.new state.new)
        (λ units. spec.last_update (machine_of state.old units) letter
        (change_with name.now update.entry records)) result
        (course_of state.new) }
    ensures kept { state.new ≡ record state.old {
      table = state.new.table;
      places = state.new.places;
    } }
{
    match write_file(alloc, world, state, letter, name, update)? {
        Updated::Done => Ok(Course::Went(0)),
        Updated::Stopped(course) => Ok(course),
    }
}
