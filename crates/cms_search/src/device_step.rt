// Device steps as commands do them.
ghost use Rattle.std.specs.Prelude.{◌≡◌, List, true, IfOk, IsSome, Ok, pos};
ghost use Rattle.std.specs.Option.{ForSome};
ghost use Rattle.cms_fields.specs.Moments.{is_moment};
ghost use Rattle.cms_model.specs.Changes as model;
ghost use Rattle.cms_model.specs.Acts.{saying, typed_line};
ghost use Rattle.cms_model.specs.Slots.{Slot};
ghost use Rattle.cms_world.specs.Seen.{seen};
ghost use Rattle.cms_line.specs.Messages.{message_text};
ghost use Rattle.cms_line.specs.declared.message.Message.TheVariants.{M105, M106};
ghost use Rattle.cms_edf.specs.ChangePlans.{CanChange, change_of};
ghost use Rattle.cms_search.specs.Calls.{Acts, Does, IsUsable, Spot, said, spot};
ghost use Rattle.cms_search.specs.DeviceSteps.{changing_by, changing_of, changing_tree};
ghost use Rattle.cms_search.specs.FileWrites.{Updated};
ghost use Rattle.cms_search.specs.Refusals.{unread_code, unread_message};
ghost use Rattle.cms_search.specs.Searches.{item_at};
ghost use Rattle.cms_search.specs.Seats.{HasDevice};
ghost use Rattle.cms_search.specs.Tables.{Seated, letters_of, writing};
ghost use Rattle.cms_search.specs.Texts.{device_text};
ghost use Rattle.cms_search.specs.declared.state.Course.TheVariants.{Went};

use crate::output::refuse;
use crate::place_event::PlaceEvent;
use crate::state::{Course, End, State};
use crate::texts::device_word;
use cms_disk::DiskFault;
use cms_edf::Change;
use cms_fields::Stamp;
use cms_line::Message;
use cms_world::World;
use std::alloc::Global;

// The return code of a device's fault, and that of a file whose bytes aren't its records any more.
const FAULT: i32 = 100;

const ALTERED: i32 = 104;

/// What a change of an accessed disk comes to.
#[derive(Clone, Copy)]
pub enum Changed {
    /// it is done
    Done,
    /// nothing was done, since it would pass a limit: 1, the files of a minidisk; 2, the records of a file; 3, its stored bytes
    Limited(u32),
    /// nothing was done, since it needs more blocks than are free
    Full { need: u32, free: u32 },
    /// the device failed: its message was typed, and the command ended so
    Failed(Course),
}

/// Types that a device failed, and gives the code.
pub fn refuse_device<W: World>(alloc: Global, world: &mut W, vdev: u16) -> Result<Course, End>
    ensures does { Does (seen W.World world.old) (seen W.World world.new)
        (saying (typed_line (message_text (M105 (device_text vdev))))) result said }
    ensures went { IfOk result (λ course. course ≡ Went (pos 100)) }
{
    let device = device_word(alloc, vdev)?;
    refuse(alloc, world, Message::M105(device), FAULT)
}

/// Types that the bytes of a file on a device aren't its records any more, which is never in a world that tells its journal, and gives the
/// code.
pub fn refuse_altered<W: World>(alloc: Global, world: &mut W, vdev: u16) -> Result<Course, End>
    ensures does { Does (seen W.World world.old) (seen W.World world.new)
        (saying (typed_line (message_text (M106 (device_text vdev))))) result said }
    ensures went { IfOk result (λ course. course ≡ Went (pos 104)) }
{
    let device = device_word(alloc, vdev)?;
    refuse(alloc, world, Message::M106(device), ALTERED)
}

/// Types why a file on a device isn't read to its end, and gives the code: its bytes aren't its records any more, or the device failed.
pub fn refuse_unread<W: World>(
    alloc: Global,
    world: &mut W,
    vdev: u16,
    fault: DiskFault,
) -> Result<Course, End>
    ensures does { Does (seen W.World world.old) (seen W.World world.new)
        (saying (typed_line (message_text (unread_message fault vdev)))) result said }
    ensures went { IfOk result (λ course. course ≡ Went (pos (unread_code fault))) }
{
    match fault {
        DiskFault::Altered => refuse_altered(alloc, world, vdev),
        _ => refuse_device(alloc, world, vdev),
    }
}

/// Ends an update of the disk of an accessed letter, which is that of this device; the update came to this.
///
/// Where the device failed that is typed, and the command ends: the disk is as before, or its unit is in doubt and the letter released.
pub fn end_update<W: World>(
    alloc: Global,
    world: &mut W,
    state: &mut State,
    letter: u8,
    vdev: u16,
    done: Result<(), DiskFault>,
) -> Result<Changed, End>
    requires accessed { IsSome (item_at state.old.table.seats letter) }
    requires device { HasDevice state.old.table letter vdev }
    ensures acts { (old : Spot) (s : Seated) (change : List Slot → model.Change)
        → Updated old (spot W.World world.old state.old) letter s change done
        → Acts old (spot W.World world.new state.new) (changing_by old.state letter change) result
        (changing_of state.new) }
    ensures kept { state.new ≡ record state.old {
      table = state.new.table;
      places = state.new.places;
    } }
{
    match done {
        Ok(()) => Ok(Changed::Done),
        Err(fault) => match fault {
            DiskFault::Limit(which) => Ok(Changed::Limited(which)),
            DiskFault::Full { need, free } => Ok(Changed::Full { need, free }),
            DiskFault::Device => Ok(Changed::Failed(refuse_device(alloc, world, vdev)?)),
            DiskFault::InDoubt => {
                state.table.doubt(letter);
                state.places.after(PlaceEvent::Doubted(vdev));
                Ok(Changed::Failed(refuse_device(alloc, world, vdev)?))
            }
            // the file is there, its new name is no other's, and the disk may be written, so this is want of memory
            _ => Err(End::Memory),
        },
    }
}

/// Changes the disk of an accessed letter that may be written; the file that is changed is there, and its new name is no other file's.
/// A new directory has the stamp of the turn's moment.
///
/// Where the device fails that is typed, and the command ends: the disk is as before, or its unit is in doubt and the letter released.
pub fn change_disk<W: World>(
    alloc: Global,
    world: &mut W,
    state: &mut State,
    letter: u8,
    change: &Change,
) -> Result<Changed, End>
    requires usable { IsUsable (spot W.World world.old state.old) }
    requires writing { writing (item_at (letters_of state.old.table) letter) letter ≡ Ok tt }
    requires there { ForSome (item_at state.old.table.seats letter)
        (λ s. CanChange s.disk.volume.files change.now) }
    requires moment { is_moment state.old.moment ≡ true }
    ensures acts { Acts (spot W.World world.old state.old) (spot W.World world.new state.new)
        (changing_tree state.old letter (change_of change.now)) result (changing_of state.new) }
    ensures kept { state.new ≡ record state.old {
      table = state.new.table;
      places = state.new.places;
    } }
{
    let vdev = state.table.vdev(letter);
    let stamp = Stamp::of(&state.moment);
    let done = state.table.change(alloc, world, letter, change, &stamp);
    end_update(alloc, world, state, letter, vdev, done)
}
