// Files that are put onto the disks of letters, and records that are added to files.
ghost use Rattle.std.specs.Prelude.{◌≡◌, ℕ, List, true, IfSome, IsSome, Ok};
ghost use Rattle.std.specs.Option.{ForSome};
ghost use Rattle.cms_fields.specs.Moments.{is_moment};
ghost use Rattle.cms_fields.specs.Stamps.{is_stamp};
ghost use Rattle.cms_model.specs.Records.{IsValid, StandsFor};
ghost use Rattle.cms_world.specs.Seen.{seen};
ghost use Rattle.cms_search.specs.Calls.{Acts, IsUsable, spot};
ghost use Rattle.cms_search.specs.DeviceSteps.{changing_of, changing_tree};
ghost use Rattle.cms_search.specs.FileWrites.{FitsUpdate, MayUpdate, UpdatesSeat, UpdatesTo, change_with, data_of};
ghost use Rattle.cms_search.specs.Searches.{item_at};
ghost use Rattle.cms_search.specs.Tables.{letters_of, writing};

use crate::device_step::{Changed, end_update};
use crate::state::{End, State};
use crate::table::AccessTable;
use cms_disk::{DiskFault, FileData, Minidisk};
use cms_fields::Stamp;
use cms_names::Name;
use cms_world::World;
use std::alloc::Global;

/// What is written of a file.
#[derive(Clone, Copy)]
pub enum FileWrite<'u> {
    /// the file: it takes the place of the one of its name, or stands last
    Put(&'u FileData),
    /// the file, of whose name there is none: it stands last
    New(&'u FileData),
    /// records that are added to the file of a name, which has this place, of its format and, where all have one length, its length
    Append(u32, &'u FileData),
}

// Updates a file of a minidisk.
fn update_minidisk<W: World>(
    alloc: Global,
    world: &mut W,
    disk: &mut Minidisk,
    name: &Name,
    update: FileWrite,
    stamp: &Stamp,
) -> Result<(), DiskFault>
    requires may { MayUpdate (W.told world.old) disk.old name.now update }
    requires valid { IsValid (data_of update) }
    requires stamp { is_stamp stamp.now ≡ true }
    ensures { (records : List (List ℕ)) → StandsFor (data_of update.entry) records
        → UpdatesTo (seen W.World world.old) (seen W.World world.new) disk.old disk.new
        (change_with name.now update.entry records)
        stamp.now result }
{
    match update {
        FileWrite::Put(file) => disk.put(alloc, world, name, file, stamp),
        FileWrite::New(file) => disk.put_at(alloc, world, None, name, file, stamp),
        FileWrite::Append(place, more) => disk.append_at(alloc, world, place, name, more, stamp),
    }
}

impl AccessTable {
    /// Updates a file of the disk of an accessed letter in place, as `Minidisk`'s call does; the directory has this stamp then.
    pub fn update<W: World>(
        &mut self,
        alloc: Global,
        world: &mut W,
        letter: u8,
        name: &Name,
        update: FileWrite,
        stamp: &Stamp,
    ) -> Result<(), DiskFault>
        requires accessed { IsSome (item_at self.old.seats letter) }
        requires may { ForSome (item_at self.old.seats letter)
            (λ s. MayUpdate (W.told world.old) s.disk name.now update) }
        requires valid { IsValid (data_of update) }
        requires stamp { is_stamp stamp.now ≡ true }
        ensures { (records : List (List ℕ)) → StandsFor (data_of update.entry) records
            → IfSome (item_at self.old.seats letter)
            (λ s. UpdatesSeat (seen W.World world.old) (seen W.World world.new)
            self.old self.new letter s
            (change_with name.now update.entry records) stamp.now result) }
    {
        match &mut self.seats[letter as usize] {
            Some(seat) => {
                drop(seat.reading.take());
                update_minidisk(alloc, world, &mut seat.disk, name, update, stamp)
            }
            None => unreachable!(),
        }
    }
}

/// Updates a file of the disk of an accessed letter that may be written; the file to which records are added is there. A new directory has
/// the stamp of the turn's moment.
///
/// Where the device fails that is typed, and the command ends: the disk is as before, or its unit is in doubt and the letter released.
pub fn update_file<W: World>(
    alloc: Global,
    world: &mut W,
    state: &mut State,
    letter: u8,
    name: &Name,
    update: FileWrite,
) -> Result<Changed, End>
    requires usable { IsUsable (spot W.World world.old state.old) }
    requires writing { writing (item_at (letters_of state.old.table) letter) letter ≡ Ok tt }
    requires fits { ForSome (item_at state.old.table.seats letter)
        (λ s. FitsUpdate s.disk.volume name.now update) }
    requires valid { IsValid (data_of update) }
    requires moment { is_moment state.old.moment ≡ true }
    ensures acts { (records : List (List ℕ)) → StandsFor (data_of update.entry) records
        → Acts (spot W.World world.old state.old) (spot W.World world.new state.new)
        (changing_tree state.old letter (change_with name.now update.entry records)) result
        (changing_of state.new) }
    ensures kept { state.new ≡ record state.old {
      table = state.new.table;
      places = state.new.places;
    } }
{
    let vdev = state.table.vdev(letter);
    let stamp = Stamp::of(&state.moment);
    let done = state
        .table
        .update(alloc, world, letter, name, update, &stamp);
    end_update(alloc, world, state, letter, vdev, done)
}
