// Updates of files.
ghost use Rattle.std.specs.Prelude.{◌≡◌, true, Ok};
ghost use Rattle.std.specs.Option.{ForSome};
ghost use Rattle.cms_edf.specs.ChangePlans.{CanChange, change_of};
ghost use Rattle.cms_fields.specs.Moments.{is_moment};
ghost use Rattle.cms_search.specs.Calls.{Acts, IsUsable, machine_of, spot};
ghost use Rattle.cms_search.specs.Searches.{item_at};
ghost use Rattle.cms_search.specs.Tables.{letters_of, writing};
ghost use Rattle.cms_files.specs.Files.{file_exists, search_refused};
ghost use Rattle.cms_files.specs.Updates as spec;

use crate::refusals::{refuse_exists, refuse_search};
use cms_edf::Change;
use cms_line::{Tokens, Word};
use cms_names::Name;
use cms_search::{
    Changed, Course, End, PlaceEvent, Places, SearchFault, State, change_disk, tell_change,
};
use cms_world::World;
use std::alloc::Global;

/// What an update of a file comes to.
#[derive(Clone, Copy)]
pub enum Updated {
    /// it is done
    Done,
    /// it was refused, or the device failed: the message was typed, and the command ended so
    Stopped(Course),
}

/// An update that was refused, by how typing its message ended.
pub fn stopped(course: Result<Course, End>) -> Result<Updated, End>
    ensures { result ≡ spec.with_stopped course }
{
    match course {
        Ok(course) => Ok(Updated::Stopped(course)),
        Err(end) => Err(end),
    }
}

/// An update isn't begun, since a search isn't answered, as `refuse_unfound` types it.
pub fn stop_search<W: World>(
    alloc: Global,
    world: &mut W,
    state: &State,
    words: &Tokens,
    place: u8,
    fault: SearchFault,
) -> Result<Updated, End>
    ensures { Acts (spot W.World world.old state.now) (spot W.World world.new state.now)
        (λ units. spec.stopping (search_refused (machine_of state.now units) words.now place fault))
        result
        (spec.updated_of state.now) }
{
    stopped(refuse_search(alloc, world, words.as_slice(), place, fault))
}

/// An update isn't begun, since a file of a name is there already, as `refuse_exists` types it.
pub fn stop_exists<W: World>(
    alloc: Global,
    world: &mut W,
    state: &State,
    name: &Name,
    mode: Word,
) -> Result<Updated, End>
    ensures { Acts (spot W.World world.old state.now) (spot W.World world.new state.now)
        (λ units. spec.stopping (file_exists (machine_of state.now units) name.now mode)) result
        (spec.updated_of state.now) }
{
    stopped(refuse_exists(alloc, world, name, mode))
}

// No reading place is kept in the files of a device that a change is of.
fn forget_places(places: &mut Places, vdev: u16, change: &Change)
    ensures { places.new ≡ spec.places_without vdev
        (spec.names_of (change_of change.now)) places.old }
{
    match change {
        Change::Drop { name } => places.after(PlaceEvent::Changed(vdev, **name)),
        Change::Rename { from, to, .. } => {
            places.after(PlaceEvent::Changed(vdev, **from));
            places.after(PlaceEvent::Changed(vdev, **to));
        }
        Change::Relabel { .. } | Change::Century { .. } => {}
    }
}

/// One update of the disk of an accessed letter that may be written; the file that is changed is there, and its new name is no other
/// file's. No reading place is kept in the file then. A limit, want of room and a fault of the device are typed, and end the command.
pub fn update_disk<W: World>(
    alloc: Global,
    world: &mut W,
    state: &mut State,
    letter: u8,
    change: &Change,
) -> Result<Updated, End>
    requires usable { IsUsable (spot W.World world.old state.old) }
    requires writing { writing (item_at (letters_of state.old.table) letter) letter ≡ Ok tt }
    requires there { ForSome (item_at state.old.table.seats letter)
        (λ s. CanChange s.disk.volume.files change.now) }
    requires moment { is_moment state.old.moment ≡ true }
    ensures acts { Acts (spot W.World world.old state.old) (spot W.World world.new state.new)
        (spec.updating_tree state.old letter (change_of change.now)) result
        (spec.updated_of state.new) }
    ensures kept { state.new ≡ record state.old {
      table = state.new.table;
      places = state.new.places;
    } }
{
    let vdev = state.table.vdev(letter);
    let changed = change_disk(alloc, world, state, letter, change)?;
    match changed {
        Changed::Done => {
            forget_places(&mut state.places, vdev, change);
            Ok(Updated::Done)
        }
        _ => stopped(tell_change(alloc, world, state, letter, changed)),
    }
}
