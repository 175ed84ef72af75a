// What follows the update of the output's disk.
ghost use Rattle.std.specs.Prelude.{◌≡◌, ◌∷◌, List, [], IsSome, Result, ⊤};
ghost use Rattle.cms_line.specs.declared.token.Token as tokens;
ghost use Rattle.cms_model.specs.Slots.{Slot};
ghost use Rattle.cms_model.specs.Changes as model;
ghost use Rattle.cms_search.specs.Calls.{Acts, Spot, machine_of, spot, spot_at};
ghost use Rattle.cms_search.specs.FileWrites as putting;
ghost use Rattle.cms_search.specs.Refusals.{unread};
ghost use Rattle.cms_disk.specs.declared.fault.DiskFault.{DiskFault};
ghost use Rattle.cms_disk.specs.declared.fault.DiskFault.TheVariants.{Device};
ghost use Rattle.cms_copyfile.specs.declared.draft.Written.TheVariants.{Came, Unread};
ghost use Rattle.cms_search.specs.Searches.{item_at};
ghost use Rattle.cms_search.specs.Seats.{HasDevice};
ghost use Rattle.cms_search.specs.Tables.{Seated};
ghost use Rattle.cms_search.specs.DeviceSteps.{HasRead};
ghost use Rattle.cms_files.specs.Updates.{names_of, stopping, updated_of, updating};
ghost use Rattle.cms_copyfile.specs.Copyfile as spec;
ghost use Rattle.cms_copyfile.specs.Outcomes.{IsWritten};
ghost use Rattle.cms_copyfile.specs.declared.line.CopyLine as lines;
ghost use Rattle.cms_world.specs.Seen.{Seen};

use crate::copy::FileCopy;
use crate::draft::Written;
use crate::refusals::stop_unread;
use cms_disk::DiskFault;
use cms_files::{Updated, end_writing};
use cms_search::{End, State, end_update};
use cms_world::World;
use std::alloc::Global;

// Ends the update of the output's disk, which came to this.
fn end_output<W: World>(
    alloc: Global,
    world: &mut W,
    state: &mut State,
    file: &FileCopy,
    vdev: u16,
    done: Result<(), DiskFault>,
) -> Result<Updated, End>
    requires accessed { IsSome (item_at state.old.table.seats file.now.letter) }
    requires device { HasDevice state.old.table file.now.letter vdev }
    ensures acts { (old : Spot) (s : Seated) (change : List Slot → model.Change)
        → putting.Updated old (spot W.World world.old state.old) file.now.letter s change done
        → HasDevice old.state.table file.now.letter vdev
        → ((units : List Slot) → names_of (change units) ≡ file.now.name ∷ [])
        → Acts old (spot W.World world.new state.new)
        (λ units. updating (machine_of old.state units) file.now.letter (change units)) result
        (updated_of state.new) }
    ensures kept { state.new ≡ record state.old {
      table = state.new.table;
      places = state.new.places;
    } }
{
    let changed = end_update(alloc, world, state, file.letter, vdev, done)?;
    end_writing(alloc, world, state, file.letter, vdev, &file.name, changed)
}

// Ends the update of the output's disk, where the writing of the copies came to this; the file that is copied is on the device `input`,
// which is named where that one failed.
pub(crate) fn end_written<W: World>(
    alloc: Global,
    world: &mut W,
    state: &mut State,
    file: &FileCopy,
    vdev: u16,
    input: u16,
    written: Written,
) -> Result<Updated, End>
    requires accessed { IsSome (item_at state.old.table.seats file.now.letter) }
    requires device { HasDevice state.old.table file.now.letter vdev }
    ensures acts { (before : Seen) (mid : Spot) (words : List tokens.Token) (line : lines.CopyLine)
        → HasRead before mid.world
        → IsWritten mid (spot W.World world.old state.old) line file.now vdev input written
        → Acts (spot_at before mid.state) (spot W.World world.new state.new)
        (λ units. spec.with_copying words line (machine_of mid.state units) file.now.found
        (spec.copy_records (machine_of mid.state units) line)) result (updated_of state.new) }
    ensures unread { written ≡ Unread
        → Acts (spot W.World world.old state.old) (spot W.World world.new state.new)
        (λ units. stopping (unread (machine_of state.old units) input Device)) result
        (updated_of state.new) }
    ensures output { (done : Result ⊤ DiskFault) → written ≡ Came done
        → (old : Spot) (s : Seated) (change : List Slot → model.Change)
        → putting.Updated old (spot W.World world.old state.old) file.now.letter s change done
        → HasDevice old.state.table file.now.letter vdev
        → ((units : List Slot) → names_of (change units) ≡ file.now.name ∷ [])
        → Acts old (spot W.World world.new state.new)
        (λ units. updating (machine_of old.state units) file.now.letter (change units)) result
        (updated_of state.new) }
    ensures kept { state.new ≡ record state.old {
      table = state.new.table;
      places = state.new.places;
    } }
{
    match written {
        Written::Came(done) => end_output(alloc, world, state, file, vdev, done),
        Written::Unread => stop_unread(alloc, world, state, input, DiskFault::Device),
        Written::Altered => stop_unread(alloc, world, state, input, DiskFault::Altered),
    }
}
