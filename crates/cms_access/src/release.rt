// RELEASE.
ghost use Rattle.cms_operands.specs.Choices.{AnswersLine};
ghost use Rattle.std.specs.Prelude.{◌≡◌, None};
ghost use Rattle.cms_search.specs.Calls.{Acts, course_of, machine_of, spot};
ghost use Rattle.cms_search.specs.Machine.{letter_at};
ghost use Rattle.cms_search.specs.Units.{unit_with};
ghost use Rattle.cms_access.specs.Release as spec;

use cms_line::{Message, Token, Tokens};
use cms_operands::{
    CommandFault, Refusal, Target, device_or_letter, ended, needed, operands, without_options,
};
use cms_search::{
    Course, End, NO_DISK, State, device_word, refuse, refuse_command, refuse_no_device,
    refuse_not_accessed,
};
use cms_world::World;
use std::alloc::Global;

#[tactic(auto, unfolding(crate::specs::Release::release_operands))]
fn release_operands(operands: &[Token]) -> Result<Target, Refusal>
    ensures { result ≡ spec.release_operands operands.now }
{
    let target = device_or_letter(1, needed(operands, 1)?)?;
    ended(operands, 2)?;
    Ok(target)
}

/// What RELEASE's line says, or why it is refused.
pub fn release_line(alloc: Global, words: &Tokens) -> Result<Target, CommandFault>
    ensures { AnswersLine (spec.release_line words.now) result }
{
    without_options(alloc, words, release_operands(operands(words.as_slice())))
}

// The disk of a letter is released.
fn release_letter<W: World>(
    alloc: Global,
    world: &mut W,
    state: &mut State,
    letter: u8,
) -> Result<Course, End>
    ensures acts { Acts (spot W.World world.old state.old) (spot W.World world.new state.new)
        (λ units. spec.release_letter (machine_of state.old units) letter
        (letter_at (machine_of state.old units) letter))
        result (course_of state.new) }
    ensures kept { state.new ≡ record state.old {
      table = state.new.table;
      places = state.new.places;
    } }
{
    match state.release(letter) {
        Ok(()) => Ok(Course::Went(0)),
        Err(_) => refuse_not_accessed(alloc, world, letter),
    }
}

// A device isn't accessed: it is shown in place of the letter.
fn refuse_unaccessed<W: World>(
    alloc: Global,
    world: &mut W,
    state: &State,
    vdev: u16,
) -> Result<Course, End>
    ensures { Acts (spot W.World world.old state.now) (spot W.World world.new state.now)
        (λ units. spec.release_unit (machine_of state.now units) vdev None) result
        (course_of state.now) }
{
    let device = device_word(alloc, vdev)?;
    refuse(alloc, world, Message::M069(device), NO_DISK)
}

// The disk of a device is released.
fn release_device<W: World>(
    alloc: Global,
    world: &mut W,
    state: &mut State,
    vdev: u16,
) -> Result<Course, End>
    ensures acts { Acts (spot W.World world.old state.old) (spot W.World world.new state.new)
        (λ units. spec.release_device (machine_of state.old units) vdev
        (unit_with vdev (machine_of state.old units).devices))
        result (course_of state.new) }
    ensures kept { state.new ≡ record state.old {
      table = state.new.table;
      places = state.new.places;
    } }
{
    if let None = state.table.unit(vdev) {
        return refuse_no_device(alloc, world, vdev);
    }
    match state.table.letter_on(vdev) {
        Some(letter) => release_letter(alloc, world, state, letter),
        None => refuse_unaccessed(alloc, world, state, vdev),
    }
}

// The disk that the line names is released.
fn release_disk<W: World>(
    alloc: Global,
    world: &mut W,
    state: &mut State,
    target: Target,
) -> Result<Course, End>
    ensures acts { Acts (spot W.World world.old state.old) (spot W.World world.new state.new)
        (λ units. spec.release_disk (machine_of state.old units) target) result
        (course_of state.new) }
    ensures kept { state.new ≡ record state.old {
      table = state.new.table;
      places = state.new.places;
    } }
{
    match target {
        Target::Device(vdev) => release_device(alloc, world, state, vdev),
        Target::Letter(letter) => release_letter(alloc, world, state, letter),
    }
}

/// RELEASE: the disk of a device or a letter is accessed no more.
pub fn run_release<W: World>(
    alloc: Global,
    world: &mut W,
    state: &mut State,
    words: &Tokens,
) -> Result<Course, End>
    ensures acts { Acts (spot W.World world.old state.old) (spot W.World world.new state.new)
        (λ units. spec.release (machine_of state.old units) words.now) result
        (course_of state.new) }
    ensures kept { state.new ≡ record state.old {
      table = state.new.table;
      places = state.new.places;
    } }
{
    match release_line(alloc, words) {
        Ok(target) => release_disk(alloc, world, state, target),
        Err(fault) => refuse_command(alloc, world, words, fault),
    }
}
