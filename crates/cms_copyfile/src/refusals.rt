// COPYFILE's own refusal.
ghost use Rattle.std.specs.Prelude.{◌≡◌, IfOk, pos};
ghost use Rattle.cms_text.specs.Numbers.{decimal_of};
ghost use Rattle.cms_model.specs.Acts.{saying, typed_line};
ghost use Rattle.cms_line.specs.Messages.{message_text};
ghost use Rattle.cms_line.specs.declared.message.Message.TheVariants.{M121};
ghost use Rattle.cms_search.specs.Calls.{Acts, Does, machine_of, said, spot};
ghost use Rattle.cms_search.specs.Refusals.{unread};
ghost use Rattle.cms_search.specs.declared.state.Course.TheVariants.{Went};
ghost use Rattle.cms_world.specs.Seen.{seen};
ghost use Rattle.cms_files.specs.Updates.{stopping, updated_of};
ghost use Rattle.cms_copyfile.specs.Copyfile as spec;

use cms_disk::DiskFault;
use cms_files::{Updated, stopped};
use cms_line::Message;
use cms_search::{Course, End, State, refuse, refuse_unread};
use cms_text::decimal;
use cms_world::World;
use std::alloc::Global;

// The code of a first record that isn't there.
const NO_RECORD: i32 = 24;

// Types that a file has only so many records, and gives the code.
fn refuse_too_few<W: World>(alloc: Global, world: &mut W, count: u32) -> Result<Course, End>
    ensures does { Does (seen W.World world.old) (seen W.World world.new)
        (saying (typed_line (message_text (M121 (decimal_of count))))) result said }
    ensures went { IfOk result (λ course. course ≡ Went (pos spec.no_record_code)) }
{
    let count = decimal(alloc, count)?;
    refuse(alloc, world, Message::M121(count), NO_RECORD)
}

/// A file isn't copied, since its device failed, or since its records aren't those that were measured, which is never in a world that tells
/// its journal.
pub fn stop_unread<W: World>(
    alloc: Global,
    world: &mut W,
    state: &State,
    vdev: u16,
    fault: DiskFault,
) -> Result<Updated, End>
    ensures { Acts (spot W.World world.old state.now) (spot W.World world.new state.now)
        (λ units. stopping (unread (machine_of state.now units) vdev fault)) result
        (updated_of state.now) }
{
    stopped(refuse_unread(alloc, world, vdev, fault))
}

/// A file isn't copied, since it has only so many records.
pub fn stop_too_few<W: World>(
    alloc: Global,
    world: &mut W,
    state: &State,
    count: u32,
) -> Result<Updated, End>
    ensures { Acts (spot W.World world.old state.now) (spot W.World world.new state.now)
        (λ units. stopping (spec.too_few (machine_of state.now units) count)) result
        (updated_of state.now) }
{
    stopped(refuse_too_few(alloc, world, count))
}
