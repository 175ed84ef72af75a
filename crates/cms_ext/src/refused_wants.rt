// Refusals of what an extension wants: the message is typed, and the extension is told the code.
ghost use Rattle.std.specs.Prelude.{◌≡◌, IfOk, pos};
ghost use Rattle.cms_line.specs.Messages.{message_text};
ghost use Rattle.cms_line.specs.declared.message.Message.TheVariants.{M002};
ghost use Rattle.cms_model.specs.Acts.{saying, typed_line};
ghost use Rattle.cms_search.specs.Calls.{Does, said, spot};
ghost use Rattle.cms_search.specs.Texts.{letter_text};
ghost use Rattle.cms_search.specs.declared.state.Course.TheVariants.{Went};
ghost use Rattle.cms_world.specs.Seen.{seen};
ghost use Rattle.cms_files.specs.Files.{no_file_code};
ghost use Rattle.cms_ext.specs.Calls.{Meets, met_with};
ghost use Rattle.cms_ext.specs.Extensions as spec;

use crate::extension::ExtReply;
use crate::wants::Met;
use cms_files::NO_FILE;
use cms_line::{Message, Word};
use cms_names::Name;
use cms_search::{
    Course, End, SearchFault, State, letter_word, refuse, refuse_not_accessed, refuse_read_only,
};
use cms_world::World;
use std::alloc::{AllocError, Global};

/// A want that was refused, by how typing its message ended.
pub(crate) fn refused(course: Result<Course, End>) -> Result<Met, End>
    ensures { result ≡ met_with course }
{
    match course {
        Ok(Course::Went(code)) => Ok(Met::Told(ExtReply::Refused(code))),
        Ok(Course::OutOfTurns) => Ok(Met::NoTurns),
        Err(end) => Err(end),
    }
}

// The file of a name isn't found by a letter.
fn missing(alloc: Global, name: &Name, letter: u8) -> Result<Message, AllocError>
    ensures { IfOk result (λ message.
        message ≡ M002 name.now.file name.now.kind (letter_text letter)) }
{
    Ok(Message::M002(
        Word::of(alloc, name.file.as_bytes())?,
        Word::of(alloc, name.kind.as_bytes())?,
        letter_word(alloc, letter)?,
    ))
}

// Types that the file of a name isn't found by a letter, and gives the code.
fn refuse_missing<W: World>(
    alloc: Global,
    world: &mut W,
    name: &Name,
    letter: u8,
) -> Result<Course, End>
    ensures does { Does (seen W.World world.old) (seen W.World world.new)
        (saying (typed_line (message_text (M002 name.now.file name.now.kind (letter_text letter)))))
        result said }
    ensures went { IfOk result (λ course. course ≡ Went (pos no_file_code)) }
{
    let message = missing(alloc, name, letter)?;
    refuse(alloc, world, message, NO_FILE)
}

// Types why the file of a name isn't found by a letter, or may not be written there, and gives the code.
fn refuse_search<W: World>(
    alloc: Global,
    world: &mut W,
    name: &Name,
    letter: u8,
    fault: SearchFault,
) -> Result<Course, End>
    ensures does { Does (seen W.World world.old) (seen W.World world.new)
        (saying (typed_line (message_text (spec.unfound_message name.now letter fault))))
        result said }
    ensures went { IfOk result (λ course. course ≡ Went (pos (spec.unfound_code fault))) }
{
    match fault {
        SearchFault::NotAccessed(missing) => refuse_not_accessed(alloc, world, missing),
        SearchFault::ReadOnly(kept) => refuse_read_only(alloc, world, kept),
        SearchFault::NoUnit(_)
        | SearchFault::NotFound
        | SearchFault::Volume(_)
        | SearchFault::Memory => refuse_missing(alloc, world, name, letter),
    }
}

/// The file of a name isn't found by a letter, or may not be written there.
pub(crate) fn refuse_unfound<W: World>(
    alloc: Global,
    world: &mut W,
    state: &State,
    name: &Name,
    letter: u8,
    fault: SearchFault,
) -> Result<Met, End>
    ensures { Meets (spot W.World world.old state.now) (spot W.World world.new state.now)
        (λ d. spec.unfound d name.now letter fault) result }
{
    refused(refuse_search(alloc, world, name, letter, fault))
}
