// NUCXDROP and NUCXMAP.
ghost use Rattle.std.specs.Prelude.{◌≡◌, pos};
ghost use Rattle.cms_line.specs.declared.message.Message.TheVariants.{M122};
ghost use Rattle.cms_model.specs.Acts.{Done};
ghost use Rattle.cms_operands.specs.Choices.{AnswersLine};
ghost use Rattle.cms_search.specs.Calls.{Acts, Does, course_of, refusal_tree, said, spot, spot_with};
ghost use Rattle.cms_search.specs.Machine.{typing};
ghost use Rattle.cms_world.specs.Seen.{seen};
ghost use Rattle.cms_ext.specs.Calls.{desk_of, ended_of};
ghost use Rattle.cms_ext.specs.Objects.{objects_of, place_of, words_of};
ghost use Rattle.cms_session.specs.RoundCalls.{nucxdrop_tree, nucxmap_tree};
ghost use Rattle.cms_session.specs.Nucleus as spec;

use cms_ext::{ExtList, Extension};
use cms_line::{Message, Token, Tokens, Word};
use cms_names::Part;
use cms_operands::{CommandFault, Refusal, ended, name, needed, operands, without_options};
use cms_search::{Course, End, State, refuse, refuse_command, say};
use cms_world::World;
use std::alloc::Global;

// The code where no extension stands under a word.
const NONE_THERE: i32 = 28;

// ---- NUCXDROP

#[tactic(auto, unfolding(crate::specs::Nucleus::drop_operands))]
fn drop_operands(operands: &[Token]) -> Result<Part, Refusal>
    ensures { result ≡ spec.drop_operands operands.now }
{
    let word = name(1, needed(operands, 1)?)?;
    ended(operands, 2)?;
    Ok(word)
}

// What NUCXDROP's line says, or why it is refused.
fn drop_line(alloc: Global, words: &Tokens) -> Result<Part, CommandFault>
    ensures { AnswersLine (spec.drop_line words.now) result }
{
    without_options(alloc, words, drop_operands(operands(words.as_slice())))
}

/// Types that no extension stands under a word, and gives the code.
pub fn refuse_absent<W: World>(
    alloc: Global,
    world: &mut W,
    state: &State,
    word: Word,
) -> Result<Course, End>
    ensures { Acts (spot W.World world.old state.now) (spot W.World world.new state.now)
        (refusal_tree state.now (M122 word) (pos spec.none_there)) result (course_of state.now) }
{
    refuse(alloc, world, Message::M122(word), NONE_THERE)
}

// The extension under a word is dropped.
fn drop_extension<W: World>(
    alloc: Global,
    world: &mut W,
    state: &State,
    extensions: &mut ExtList,
    word: &Part,
) -> Result<Course, End>
    ensures { Acts (spot_with W.World world.old state.now
        (objects_of ⟦<dyn Extension as Extension>⟧ extensions.old))
        (spot_with W.World world.new state.now
        (objects_of ⟦<dyn Extension as Extension>⟧ extensions.new))
        (λ units. spec.dropping
        (desk_of state.now (objects_of ⟦<dyn Extension as Extension>⟧ extensions.old) units)
        word.now (place_of word.now (objects_of ⟦<dyn Extension as Extension>⟧ extensions.old)))
        result (ended_of state.now (objects_of ⟦<dyn Extension as Extension>⟧ extensions.new)) }
{
    match extensions.find(word) {
        Some(place) => {
            extensions.drop_at(place);
            Ok(Course::Went(0))
        }
        None => {
            let word = Word::of(alloc, word.as_bytes())?;
            refuse_absent(alloc, world, state, word)
        }
    }
}

/// NUCXDROP: an extension is taken out of the list and dropped.
pub fn run_nucxdrop<W: World>(
    alloc: Global,
    world: &mut W,
    state: &State,
    extensions: &mut ExtList,
    words: &Tokens,
) -> Result<Course, End>
    ensures { Acts (spot_with W.World world.old state.now
        (objects_of ⟦<dyn Extension as Extension>⟧ extensions.old))
        (spot_with W.World world.new state.now
        (objects_of ⟦<dyn Extension as Extension>⟧ extensions.new))
        (nucxdrop_tree state.now
        (objects_of ⟦<dyn Extension as Extension>⟧ extensions.old) words.now)
        result (ended_of state.now (objects_of ⟦<dyn Extension as Extension>⟧ extensions.new)) }
{
    match drop_line(alloc, words) {
        Ok(word) => drop_extension(alloc, world, state, extensions, &word),
        Err(fault) => refuse_command(alloc, world, words, fault),
    }
}

// ---- NUCXMAP

// What NUCXMAP's line says, which is nothing, or why it is refused.
fn map_line(alloc: Global, words: &Tokens) -> Result<(), CommandFault>
    ensures { AnswersLine (spec.map_line words.now) result }
{
    without_options(alloc, words, ended(operands(words.as_slice()), 1))
}

// Types the words of the extensions.
fn say_words<W: World>(world: &mut W, extensions: &ExtList) -> Result<(), End>
    ensures { Does (seen W.World world.old) (seen W.World world.new)
        (typing (words_of (objects_of ⟦<dyn Extension as Extension>⟧ extensions.now)) (Done tt))
        result said }
{
    for place in 0..extensions.len() as u32 {
        say(world, extensions.word(place).as_bytes())?;
    }
    Ok(())
}

/// NUCXMAP: the words of the extensions are typed in their order, one per line.
pub fn run_nucxmap<W: World>(
    alloc: Global,
    world: &mut W,
    state: &State,
    extensions: &ExtList,
    words: &Tokens,
) -> Result<Course, End>
    ensures { Acts (spot W.World world.old state.now) (spot W.World world.new state.now)
        (nucxmap_tree state.now
        (words_of (objects_of ⟦<dyn Extension as Extension>⟧ extensions.now)) words.now)
        result (course_of state.now) }
{
    match map_line(alloc, words) {
        Ok(()) => {
            say_words(world, extensions)?;
            Ok(Course::Went(0))
        }
        Err(fault) => refuse_command(alloc, world, words, fault),
    }
}
