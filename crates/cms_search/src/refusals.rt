// The refusals that several commands have.
ghost use Rattle.std.specs.Prelude.{◌≡◌, IfOk, pos};
ghost use Rattle.cms_model.specs.Acts.{saying, typed_line};
ghost use Rattle.cms_line.specs.Messages.{message_text};
ghost use Rattle.cms_line.specs.declared.message.Message.TheVariants.{M037, M069, M113};
ghost use Rattle.cms_operands.specs.Refusals.{code_of, message_of};
ghost use Rattle.cms_search.specs.Calls.{Does, said};
ghost use Rattle.cms_search.specs.LineRefused.{RefusesLine};
ghost use Rattle.cms_search.specs.Refusals.{no_disk};
ghost use Rattle.cms_search.specs.Texts.{device_text, letter_text};
ghost use Rattle.cms_world.specs.Seen.{seen};
ghost use Rattle.cms_search.specs.declared.state.Course.TheVariants.{Went};

use crate::output::refuse;
use crate::state::{Course, End};
use crate::texts::{device_word, letter_word};
use cms_line::{Message, Token, Tokens};
use cms_operands::{CommandFault, Refusal};
use cms_world::World;
use std::alloc::Global;

/// The code of a disk that doesn't serve.
pub const NO_DISK: i32 = 36;

/// Types why a command's line is refused, and gives the code.
pub fn refuse_line<W: World>(
    alloc: Global,
    world: &mut W,
    words: &[Token],
    why: Refusal,
) -> Result<Course, End>
    ensures does { Does (seen W.World world.old) (seen W.World world.new)
        (saying (typed_line (message_text (message_of words.now why)))) result said }
    ensures went { IfOk result (λ course. course ≡ Went (pos (code_of why))) }
{
    let message = why.message(alloc, words)?;
    refuse(alloc, world, message, why.code())
}

/// Types why a command's line isn't taken, and gives the code; there is no memory where there was none to read it.
pub fn refuse_command<W: World>(
    alloc: Global,
    world: &mut W,
    words: &Tokens,
    fault: CommandFault,
) -> Result<Course, End>
    ensures { RefusesLine (seen W.World world.old) (seen W.World world.new) words.now fault result }
{
    match fault {
        CommandFault::Refused(why) => refuse_line(alloc, world, words.as_slice(), why),
        CommandFault::Memory => Err(End::Memory),
    }
}

/// Types that no unit has the device, and gives the code.
pub fn refuse_no_device<W: World>(alloc: Global, world: &mut W, vdev: u16) -> Result<Course, End>
    ensures does { Does (seen W.World world.old) (seen W.World world.new)
        (saying (typed_line (message_text (M113 (device_text vdev))))) result said }
    ensures went { IfOk result (λ course. course ≡ Went (pos no_disk)) }
{
    let device = device_word(alloc, vdev)?;
    refuse(alloc, world, Message::M113(device), NO_DISK)
}

/// Types that no disk has the letter, A is 0, and gives the code.
pub fn refuse_not_accessed<W: World>(
    alloc: Global,
    world: &mut W,
    letter: u8,
) -> Result<Course, End>
    ensures does { Does (seen W.World world.old) (seen W.World world.new)
        (saying (typed_line (message_text (M069 (letter_text letter))))) result said }
    ensures went { IfOk result (λ course. course ≡ Went (pos no_disk)) }
{
    let word = letter_word(alloc, letter)?;
    refuse(alloc, world, Message::M069(word), NO_DISK)
}

/// Types that the disk of the letter, A is 0, may only be read, and gives the code.
pub fn refuse_read_only<W: World>(alloc: Global, world: &mut W, letter: u8) -> Result<Course, End>
    ensures does { Does (seen W.World world.old) (seen W.World world.new)
        (saying (typed_line (message_text (M037 (letter_text letter))))) result said }
    ensures went { IfOk result (λ course. course ≡ Went (pos no_disk)) }
{
    let word = letter_word(alloc, letter)?;
    refuse(alloc, world, Message::M037(word), NO_DISK)
}
