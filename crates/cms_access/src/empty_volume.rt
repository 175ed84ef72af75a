// FORMAT makes an empty volume.
ghost use Rattle.std.specs.Prelude.{◌≡◌, ◌≤◌, ◌<◌, true, Some, IfOk, pos};
ghost use Rattle.cms_fields.specs.Moments.{is_moment};
ghost use Rattle.cms_model.specs.Acts.{saying, typed_line};
ghost use Rattle.cms_line.specs.Messages.{message_text};
ghost use Rattle.cms_line.specs.declared.message.Message.TheVariants.{M733};
ghost use Rattle.cms_text.specs.Numbers.{decimal_of};
ghost use Rattle.cms_search.specs.Calls.{Acts, Does, IsUsable, course_of, machine_of, said, spot};
ghost use Rattle.cms_search.specs.Places.{after};
ghost use Rattle.cms_search.specs.Tables.{unit_of_device};
ghost use Rattle.cms_search.specs.Texts.{device_text, letter_text};
ghost use Rattle.cms_search.specs.declared.place_event.PlaceEvent.TheVariants as event;
ghost use Rattle.cms_search.specs.declared.state.Course.TheVariants.{Went};
ghost use Rattle.cms_world.specs.Seen.{seen};
ghost use Rattle.cms_access.specs.EmptyVolume.{MayRemake, forgotten_in, made_of};
ghost use Rattle.cms_access.specs.Format as spec;

use crate::format::FormatLine;
use cms_disk::{DiskFault, UnitInfo};
use cms_fields::Stamp;
use cms_line::Message;
use cms_search::{
    Course, End, PlaceEvent, Places, Seat, State, device_word, letter_word, refuse_device,
    say_message,
};
use cms_text::decimal;
use cms_world::World;
use std::alloc::Global;

// Whether the volume was made, or the device failed.
fn is_made(made: Result<(), DiskFault>) -> Result<bool, End>
    ensures { result ≡ made_of made }
{
    match made {
        Ok(()) => Ok(true),
        Err(DiskFault::Device | DiskFault::InDoubt) => Ok(false),
        Err(_) => Err(End::Memory),
    }
}

// Forgets the reading places on a device, and on the disk of a letter.
fn forget(places: &mut Places, seat: Option<Seat>, vdev: u16)
    ensures { places.new ≡ after (event.Formatted vdev) (forgotten_in seat places.old) }
{
    if let Some(seat) = seat {
        places.after(PlaceEvent::Left(seat.vdev));
    }
    places.after(PlaceEvent::Formatted(vdev));
}

// Types that so many blocks were formatted, and gives the code.
fn tell_made<W: World>(
    alloc: Global,
    world: &mut W,
    line: FormatLine,
    blocks: u32,
) -> Result<Course, End>
    ensures does { Does (seen W.World world.old) (seen W.World world.new)
        (saying (typed_line
        (message_text
        (M733 (decimal_of blocks) (letter_text line.letter) (device_text line.vdev))))) result
        said }
    ensures went { IfOk result (λ course. course ≡ Went (pos 0)) }
{
    let blocks = decimal(alloc, blocks)?;
    let letter = letter_word(alloc, line.letter)?;
    let device = device_word(alloc, line.vdev)?;
    say_message(alloc, world, Message::M733(blocks, letter, device))?;
    Ok(Course::Went(0))
}

/// Makes an empty volume with this volume id, in EBCDIC, on the unit of the line's device, and accesses it as the line's letter. The unit
/// and the letter are released first. Where the device fails that is typed.
pub fn remake_disk<W: World>(
    alloc: Global,
    world: &mut W,
    state: &mut State,
    line: FormatLine,
    unit: &UnitInfo,
    volid: [u8; 6],
) -> Result<Course, End>
    requires usable { IsUsable (spot W.World world.old state.old) }
    requires may { MayRemake state.old line unit.now }
    requires moment { is_moment state.old.moment ≡ true }
    ensures acts { Acts (spot W.World world.old state.old) (spot W.World world.new state.new)
        (λ units. spec.remaking line (machine_of state.old units) volid) result
        (course_of state.new) }
    ensures kept { state.new ≡ record state.old {
      table = state.new.table;
      places = state.new.places;
    } }
{
    let seat = state.table.seat(line.letter);
    let stamp = Stamp::of(&state.moment);
    let made = state
        .table
        .format(alloc, world, line.vdev, line.letter, volid, &stamp);
    let is_made = is_made(made)?;
    forget(&mut state.places, seat, line.vdev);
    if is_made {
        tell_made(alloc, world, line, unit.unit.blocks)
    } else {
        refuse_device(alloc, world, line.vdev)
    }
}
