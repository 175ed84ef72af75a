// Searches that aren't answered, and the refusals of files.
ghost use Rattle.std.specs.Prelude.{◌≡◌, IfOk, pos};
ghost use Rattle.cms_model.specs.Acts.{saying, typed_line};
ghost use Rattle.cms_line.specs.Messages.{message_text};
ghost use Rattle.cms_line.specs.declared.message.Message.TheVariants.{M024};
ghost use Rattle.cms_operands.specs.Operands.{given_or};
ghost use Rattle.cms_search.specs.Calls.{Does, said};
ghost use Rattle.cms_search.specs.declared.state.Course.TheVariants.{Went};
ghost use Rattle.cms_world.specs.Seen.{seen};
ghost use Rattle.cms_files.specs.Files as spec;
ghost use Rattle.cms_files.specs.Unfound.{RefusesSearch};

use cms_line::{Message, Token, Tokens, Word};
use cms_names::Name;
use cms_operands::{coded, operands};
use cms_search::{Course, End, NO_DISK, SearchFault, device_word, letter_word, refuse};
use cms_world::World;
use std::alloc::{AllocError, Global};

/// The code of a file that isn't there, or is there already.
pub const NO_FILE: i32 = 28;

// An operand, or the word that stands for it where it isn't given.
#[tactic(auto, unfolding(cms_operands::specs::Operands::given_or, cms_operands::specs::Operands::given))]
fn word_or(
    alloc: Global,
    operands: &[Token],
    place: usize,
    default: &[u8; 1],
) -> Result<Word, AllocError>
    ensures { IfOk result (λ word. word ≡ given_or operands.now place default.now) }
{
    match operands.get(place) {
        Some(operand) => Word::of(alloc, operand.text.bytes()),
        None => Word::of(alloc, default),
    }
}

// A file isn't found: it is shown as the line has it, from a place among the operands on.
fn missing_file(alloc: Global, operands: &[Token], place: u8) -> Result<Message, AllocError>
    ensures { IfOk result (λ message. message ≡ spec.missing_file operands.now place) }
{
    let place = usize::from(place);
    Ok(Message::M002(
        word_or(alloc, operands, place, &coded(b"*"))?,
        word_or(alloc, operands, place + 1, &coded(b"*"))?,
        word_or(alloc, operands, place + 2, &coded(b"A"))?,
    ))
}

// What is typed of a search that isn't answered.
fn search_message(
    alloc: Global,
    words: &[Token],
    place: u8,
    fault: SearchFault,
) -> Result<Message, AllocError>
    ensures { IfOk result (λ message. message ≡ spec.search_message words.now place fault) }
{
    match fault {
        SearchFault::NotAccessed(letter) => Ok(Message::M069(letter_word(alloc, letter)?)),
        SearchFault::ReadOnly(letter) => Ok(Message::M037(letter_word(alloc, letter)?)),
        SearchFault::NoUnit(vdev) => Ok(Message::M113(device_word(alloc, vdev)?)),
        SearchFault::NotFound | SearchFault::Volume(_) | SearchFault::Memory => {
            missing_file(alloc, operands(words), place)
        }
    }
}

fn search_code(fault: SearchFault) -> i32
    ensures { result ≡ pos (spec.search_code fault) }
{
    match fault {
        SearchFault::NotAccessed(_) | SearchFault::ReadOnly(_) | SearchFault::NoUnit(_) => NO_DISK,
        SearchFault::NotFound | SearchFault::Volume(_) | SearchFault::Memory => NO_FILE,
    }
}

// Types why a search isn't answered, as there was memory, and gives the code.
pub(crate) fn refuse_search<W: World>(
    alloc: Global,
    world: &mut W,
    words: &[Token],
    place: u8,
    fault: SearchFault,
) -> Result<Course, End>
    ensures does { Does (seen W.World world.old) (seen W.World world.new)
        (saying (typed_line (message_text (spec.search_message words.now place fault)))) result
        said }
    ensures went { IfOk result (λ course. course ≡ Went (pos (spec.search_code fault))) }
{
    let message = search_message(alloc, words, place, fault)?;
    refuse(alloc, world, message, search_code(fault))
}

/// Types why a search isn't answered, and gives the code: a disk that isn't accessed or may only be read, or that no file is found. That
/// file is shown as the line has it, from a place among its operands on. There is no memory where there was none to search.
pub fn refuse_unfound<W: World>(
    alloc: Global,
    world: &mut W,
    words: &Tokens,
    place: u8,
    fault: SearchFault,
) -> Result<Course, End>
    ensures { RefusesSearch (seen W.World world.old)
        (seen W.World world.new) words.now place fault result }
{
    match fault {
        SearchFault::Memory => Err(End::Memory),
        _ => refuse_search(alloc, world, words.as_slice(), place, fault),
    }
}

/// Types that a file of this name is there already, whose mode is shown so, and gives the code.
pub fn refuse_exists<W: World>(
    alloc: Global,
    world: &mut W,
    name: &Name,
    mode: Word,
) -> Result<Course, End>
    ensures does { Does (seen W.World world.old) (seen W.World world.new)
        (saying (typed_line (message_text (M024 name.now.file name.now.kind mode)))) result said }
    ensures went { IfOk result (λ course. course ≡ Went (pos spec.no_file_code)) }
{
    let file = Word::of(alloc, name.file.as_bytes())?;
    let kind = Word::of(alloc, name.kind.as_bytes())?;
    refuse(alloc, world, Message::M024(file, kind, mode), NO_FILE)
}
