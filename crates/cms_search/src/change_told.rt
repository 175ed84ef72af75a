// What a change of a disk came to, as commands tell it.
ghost use Rattle.std.specs.Prelude.{◌≡◌, IfOk, pos};
ghost use Rattle.cms_text.specs.Numbers.{decimal_of};
ghost use Rattle.cms_model.specs.Acts.{saying, typed_line};
ghost use Rattle.cms_line.specs.Messages.{message_text};
ghost use Rattle.cms_line.specs.declared.message.Message.TheVariants.{M107, M120};
ghost use Rattle.cms_search.specs.Calls.{Acts, Does, course_of, said, spot};
ghost use Rattle.cms_search.specs.ChangeTold.{limited, told_tree};
ghost use Rattle.cms_search.specs.Refusals.{fault};
ghost use Rattle.cms_search.specs.Texts.{letter_text};
ghost use Rattle.cms_search.specs.declared.state.Course.TheVariants.{Went};
ghost use Rattle.cms_world.specs.Seen.{seen};

use crate::device_step::Changed;
use crate::output::refuse;
use crate::state::{Course, End, State};
use crate::texts::letter_word;
use cms_line::Message;
use cms_text::decimal;
use cms_world::World;
use std::alloc::{AllocError, Global};

// The code of a disk that is full.
const FULL: i32 = 100;

/// The code of a limit.
pub const LIMITED: i32 = 40;

// A disk has too few free blocks.
fn no_room(alloc: Global, letter: u8, need: u32, free: u32) -> Result<Message, AllocError>
    ensures { IfOk result (λ message. message
        ≡ M107 (letter_text letter) (decimal_of need) (decimal_of free)) }
{
    Ok(Message::M107(
        letter_word(alloc, letter)?,
        decimal(alloc, need)?,
        decimal(alloc, free)?,
    ))
}

/// Types that the disk of a letter, A is 0, has too few free blocks, and gives the code.
pub fn refuse_full<W: World>(
    alloc: Global,
    world: &mut W,
    letter: u8,
    need: u32,
    free: u32,
) -> Result<Course, End>
    ensures does { Does (seen W.World world.old) (seen W.World world.new)
        (saying (typed_line
        (message_text (M107 (letter_text letter) (decimal_of need) (decimal_of free))))) result
        said }
    ensures went { IfOk result (λ course. course ≡ Went (pos fault)) }
{
    let message = no_room(alloc, letter, need, free)?;
    refuse(alloc, world, message, FULL)
}

/// Types that a limit is reached, and gives the code.
pub fn refuse_limit<W: World>(alloc: Global, world: &mut W, which: u32) -> Result<Course, End>
    ensures does { Does (seen W.World world.old) (seen W.World world.new)
        (saying (typed_line (message_text (M120 (decimal_of which))))) result said }
    ensures went { IfOk result (λ course. course ≡ Went (pos limited)) }
{
    let limit = decimal(alloc, which)?;
    refuse(alloc, world, Message::M120(limit), LIMITED)
}

/// Types what a change of the disk of a letter, A is 0, came to where it was refused, and gives the code of a command that ends with it.
pub fn tell_change<W: World>(
    alloc: Global,
    world: &mut W,
    state: &State,
    letter: u8,
    changed: Changed,
) -> Result<Course, End>
    ensures { Acts (spot W.World world.old state.now) (spot W.World world.new state.now)
        (told_tree state.now letter changed) result (course_of state.now) }
{
    match changed {
        Changed::Done => Ok(Course::Went(0)),
        Changed::Limited(which) => refuse_limit(alloc, world, which),
        Changed::Full { need, free } => refuse_full(alloc, world, letter, need, free),
        Changed::Failed(course) => Ok(course),
    }
}
