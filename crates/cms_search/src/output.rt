// Lines, messages, refusals and the ready line.
ghost use Rattle.std.specs.Prelude.{◌≡◌, ◌<◌, ◌+◌, ◌/◌, ◌%◌, IfOk};
ghost use Rattle.cms_model.specs.Acts.{Done, saying, typed_line};
ghost use Rattle.cms_line.specs.Messages.{message_text};
ghost use Rattle.cms_search.specs.Ready.{ready_line, ready_with};
ghost use Rattle.cms_search.specs.Calls.{Does, itself, said};
ghost use Rattle.cms_search.specs.Machine.{typing};
ghost use Rattle.cms_world.specs.Seen.{seen};
ghost use Rattle.cms_search.specs.declared.state.Course.TheVariants.{Went};

use crate::state::{Course, End};
use cms_line::{Message, type_line, write_message};
use cms_text::{Lines, ZERO};
use cms_world::World;
use std::alloc::{AllocError, Global};

// The characters of ready lines in EBCDIC.
const R: u8 = 0xD9;

const OPENS: u8 = 0x4D;

const MINUS: u8 = 0x60;

const CLOSES: u8 = 0x5D;

const SEMICOLON: u8 = 0x5E;

/// Types a line of EBCDIC.
pub fn say<W: World>(world: &mut W, line: &[u8]) -> Result<(), End>
    ensures { Does (seen W.World world.old) (seen W.World world.new)
        (saying (typed_line line.now)) result itself }
{
    match type_line(world, line) {
        Ok(()) => Ok(()),
        Err(_) => Err(End::Edge),
    }
}

/// Types lines.
pub fn say_lines<W: World>(world: &mut W, lines: &Lines) -> Result<(), End>
    ensures { Does (seen W.World world.old) (seen W.World world.new)
        (typing lines.now (Done tt)) result said }
{
    for line in lines.as_slice() {
        say(world, line.bytes())?;
    }
    Ok(())
}

// The text of a message, which goes.
fn text_of(alloc: Global, message: Message) -> Result<Vec<u8>, AllocError>
    ensures { IfOk result (λ text. text.items ≡ message_text message) }
{
    let mut text = Vec::new(alloc);
    let written = write_message(&mut text, &message);
    drop(message);
    written?;
    Ok(text)
}

/// Types a message.
pub fn say_message<W: World>(alloc: Global, world: &mut W, message: Message) -> Result<(), End>
    ensures { Does (seen W.World world.old) (seen W.World world.new)
        (saying (typed_line (message_text message))) result itself }
{
    let text = text_of(alloc, message)?;
    say(world, &text)
}

/// Types a message, and gives its code: a command is refused.
pub fn refuse<W: World>(
    alloc: Global,
    world: &mut W,
    message: Message,
    code: i32,
) -> Result<Course, End>
    ensures does { Does (seen W.World world.old) (seen W.World world.new)
        (saying (typed_line (message_text message))) result said }
    ensures went { IfOk result (λ course. course ≡ Went code) }
{
    say_message(alloc, world, message)?;
    Ok(Course::Went(code))
}

// A decimal digit of a number, in EBCDIC: how often `unit`, a power of ten, goes into it.
fn digit(number: u32, unit: u32) -> u8
    requires { 0 < unit }
    ensures { result ≡ 0xF0 + number / unit % 10 }
{
    ZERO + (number / unit % 10) as u8
}

// The ready line of a code that isn't 0.
fn ready_with(code: i32) -> [u8; 9]
    ensures { result ≡ ready_with code }
{
    let number = code.unsigned_abs();
    [
        R,
        OPENS,
        if code < 0 {
            MINUS
        } else {
            digit(number, 10_000)
        },
        digit(number, 1_000),
        digit(number, 100),
        digit(number, 10),
        digit(number, 1),
        CLOSES,
        SEMICOLON,
    ]
}

/// Types the ready line of a return code, -9999 to 99999.
pub fn say_ready<W: World>(world: &mut W, code: i32) -> Result<(), End>
    ensures { Does (seen W.World world.old) (seen W.World world.new)
        (saying (typed_line (ready_line code))) result itself }
{
    if code == 0 {
        return say(world, &[R, SEMICOLON]);
    }
    say(world, &ready_with(code))
}
