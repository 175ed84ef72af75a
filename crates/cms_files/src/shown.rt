// Files as commands show them.
ghost use Rattle.std.specs.Prelude.{◌≡◌, IfOk};
ghost use Rattle.cms_search.specs.Calls.{Acts, spot};
ghost use Rattle.cms_files.specs.Files.{file_text};
ghost use Rattle.cms_files.specs.Updates.{telling, updated_of};

use crate::update::Updated;
use cms_names::Name;
use cms_search::{End, State, letter_text, say};
use cms_text::{BLANK, ZERO};
use cms_world::World;
use std::alloc::{AllocError, Global};

/// A file's name, its type, and the letter, A is 0, with its mode number, with one blank between.
pub fn file_text(alloc: Global, letter: u8, name: &Name, number: u8) -> Result<Vec<u8>, AllocError>
    ensures { IfOk result (λ text. text.items ≡ file_text letter name.now number) }
{
    let mut text = name.file.as_bytes().to_vec(alloc)?;
    text.push(BLANK)?;
    text.extend_from_slice(name.kind.as_bytes())?;
    text.push(BLANK)?;
    text.extend_from_slice(&letter_text(letter))?;
    text.push(ZERO + number % 10)?;
    Ok(text)
}

/// Behind an update that is done a line is typed, where the option TYPE was given.
pub fn tell_updated<W: World>(
    world: &mut W,
    state: &State,
    updated: Updated,
    types: bool,
    line: &[u8],
) -> Result<Updated, End>
    ensures { Acts (spot W.World world.old state.now) (spot W.World world.new state.now)
        (λ units. telling types line.now (updated_of state.now units updated)) result
        (updated_of state.now) }
{
    match updated {
        Updated::Done if types => {
            say(world, line)?;
            Ok(Updated::Done)
        }
        Updated::Done => Ok(Updated::Done),
        Updated::Stopped(course) => Ok(Updated::Stopped(course)),
    }
}
