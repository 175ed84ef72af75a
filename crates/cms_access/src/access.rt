// ACCESS.
ghost use Rattle.cms_operands.specs.Choices.{AnswersLine};
ghost use Rattle.std.specs.Prelude.{◌≡◌, ◌<◌, IfOk, pos};
ghost use Rattle.cms_model.specs.Acts.{saying, typed_line};
ghost use Rattle.cms_line.specs.Messages.{message_text};
ghost use Rattle.cms_line.specs.declared.message.Message.TheVariants.{M112, M723};
ghost use Rattle.cms_search.specs.Calls.{Acts, Does, IsUsable, course_of, machine_of, said, spot};
ghost use Rattle.cms_search.specs.Refusals.{no_disk};
ghost use Rattle.cms_search.specs.Texts.{device_text, letter_text};
ghost use Rattle.cms_search.specs.declared.state.Course.TheVariants.{Went};
ghost use Rattle.cms_text.specs.Numbers.{decimal_of};
ghost use Rattle.cms_world.specs.Seen.{seen};
ghost use Rattle.cms_access.specs.Access as spec;

use cms_line::{Message, Token, Tokens};
use cms_operands::{
    AccessMode, CommandFault, Refusal, access_mode_or_a, device_or, ended, operands,
    without_options,
};
use cms_search::{
    AccessEnd, Course, End, NO_DISK, State, device_word, letter_word, refuse, refuse_command,
    refuse_device, refuse_no_device, refuse_not_accessed, say_message,
};
use cms_text::decimal;
use cms_world::World;
use std::alloc::Global;

/// What ACCESS's line says: a device, and the letter as which its volume is accessed.
#[derive(Clone, Copy)]
pub struct AccessLine {
    pub vdev: u16,
    pub mode: AccessMode,
}

#[tactic(auto, unfolding(crate::specs::Access::access_operands))]
fn access_operands(operands: &[Token]) -> Result<AccessLine, Refusal>
    ensures { result ≡ spec.access_operands operands.now }
{
    let vdev = device_or(operands, 1, 0x191)?;
    let mode = access_mode_or_a(operands, 2)?;
    ended(operands, 3)?;
    Ok(AccessLine { vdev, mode })
}

/// What ACCESS's line says, or why it is refused.
pub fn access_line(alloc: Global, words: &Tokens) -> Result<AccessLine, CommandFault>
    ensures { AnswersLine (spec.access_line words.now) result }
{
    without_options(alloc, words, access_operands(operands(words.as_slice())))
}

// Types that a device holds no volume, for this reason, and gives the code.
fn refuse_no_volume<W: World>(
    alloc: Global,
    world: &mut W,
    vdev: u16,
    reason: u32,
) -> Result<Course, End>
    ensures does { Does (seen W.World world.old) (seen W.World world.new)
        (saying (typed_line (message_text (M112 (device_text vdev) (decimal_of reason))))) result
        said }
    ensures went { IfOk result (λ course. course ≡ Went (pos no_disk)) }
{
    let device = device_word(alloc, vdev)?;
    let number = decimal(alloc, reason)?;
    refuse(alloc, world, Message::M112(device, number), NO_DISK)
}

// Types that the disk which took a letter may only be read.
fn tell_read_only<W: World>(
    alloc: Global,
    world: &mut W,
    vdev: u16,
    letter: u8,
) -> Result<Course, End>
    ensures does { Does (seen W.World world.old) (seen W.World world.new)
        (saying (typed_line (message_text (M723 (letter_text letter) (device_text vdev))))) result
        said }
    ensures went { IfOk result (λ course. course ≡ Went (pos 0)) }
{
    let word = letter_word(alloc, letter)?;
    let device = device_word(alloc, vdev)?;
    say_message(alloc, world, Message::M723(word, device))?;
    Ok(Course::Went(0))
}

// Tells of the disk that took a letter, where it may only be read.
fn tell_done<W: World>(
    alloc: Global,
    world: &mut W,
    state: &State,
    vdev: u16,
    letter: u8,
    read_only: bool,
) -> Result<Course, End>
    ensures { Acts (spot W.World world.old state.now) (spot W.World world.new state.now)
        (λ units. spec.told (machine_of state.now units) vdev letter read_only) result
        (course_of state.now) }
{
    if read_only {
        return tell_read_only(alloc, world, vdev, letter);
    }
    Ok(Course::Went(0))
}

// Types what the access of a device as a letter came to, and gives the code.
fn tell<W: World>(
    alloc: Global,
    world: &mut W,
    state: &State,
    vdev: u16,
    letter: u8,
    end: AccessEnd,
) -> Result<Course, End>
    ensures { Acts (spot W.World world.old state.now) (spot W.World world.new state.now)
        (λ units. spec.answered (machine_of state.now units) vdev letter end) result
        (course_of state.now) }
{
    match end {
        AccessEnd::NoUnit => refuse_no_device(alloc, world, vdev),
        AccessEnd::NoParent(parent) => refuse_not_accessed(alloc, world, parent),
        AccessEnd::Failed => refuse_device(alloc, world, vdev),
        AccessEnd::NoVolume(reason) => refuse_no_volume(alloc, world, vdev, reason),
        AccessEnd::Done { read_only } => tell_done(alloc, world, state, vdev, letter, read_only),
    }
}

// Accesses the volume that a line names.
fn access_disk<W: World>(
    alloc: Global,
    world: &mut W,
    state: &mut State,
    line: AccessLine,
) -> Result<Course, End>
    requires usable { IsUsable (spot W.World world.old state.old) }
    requires letter { line.mode.letter < 26 }
    ensures acts { Acts (spot W.World world.old state.old) (spot W.World world.new state.new)
        (λ units. spec.access_disk (machine_of state.old units) line) result (course_of state.new) }
    ensures kept { state.new ≡ record state.old {
      table = state.new.table;
      places = state.new.places;
    } }
{
    let letter = line.mode.letter;
    let end = state.access(alloc, world, line.vdev, letter, line.mode.ext)?;
    tell(alloc, world, state, line.vdev, letter, end)
}

/// ACCESS: the volume of a device is accessed as a letter. It is told where it may only be read.
pub fn run_access<W: World>(
    alloc: Global,
    world: &mut W,
    state: &mut State,
    words: &Tokens,
) -> Result<Course, End>
    requires { IsUsable (spot W.World world.old state.old) }
    ensures acts { Acts (spot W.World world.old state.old) (spot W.World world.new state.new)
        (λ units. spec.access (machine_of state.old units) words.now) result (course_of state.new) }
    ensures kept { state.new ≡ record state.old {
      table = state.new.table;
      places = state.new.places;
    } }
{
    match access_line(alloc, words) {
        Ok(line) => access_disk(alloc, world, state, line),
        Err(fault) => refuse_command(alloc, world, words, fault),
    }
}
