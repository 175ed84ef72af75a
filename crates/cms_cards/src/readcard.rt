// READCARD: the cards of the first deck are written as a file.
ghost use Rattle.std.specs.Prelude.{◌≡◌, slice_get, true};
ghost use Rattle.cms_fields.specs.Moments.{is_moment};
ghost use Rattle.cms_search.specs.Calls.{Acts, IsUsable, course_of, machine_of, spot};
ghost use Rattle.cms_cards.specs.Calls.{dealt_of};
ghost use Rattle.cms_cards.specs.Cards as spec;

use crate::first_deck::{read_cards, take_deck};
use crate::line::read_line;
use crate::reader::Reader;
use cms_line::Tokens;
use cms_search::{Course, End, State, refuse_command};
use cms_world::World;
use std::alloc::Global;

// Writes the file that the line says; the deck stays.
fn read_line_cards<W: World>(
    alloc: Global,
    world: &mut W,
    state: &mut State,
    reader: &Reader,
    words: &Tokens,
) -> Result<Course, End>
    requires usable { IsUsable (spot W.World world.old state.old) }
    requires moment { is_moment state.old.moment ≡ true }
    ensures acts { Acts (spot W.World world.old state.old) (spot W.World world.new state.new)
        (λ units. spec.read_first (machine_of state.old units) words.now (slice_get reader.now 0))
        result
        (course_of state.new) }
    ensures kept { state.new ≡ record state.old {
      table = state.new.table;
      places = state.new.places;
    } }
{
    match read_line(alloc, words) {
        Ok(target) => read_cards(alloc, world, state, reader, words, &target),
        Err(fault) => refuse_command(alloc, world, words, fault),
    }
}

/// READCARD: the cards of the first deck are written as a file, each as a record, and the deck goes.
pub(crate) fn run_readcard<W: World>(
    alloc: Global,
    world: &mut W,
    state: &mut State,
    reader: &mut Reader,
    words: &Tokens,
) -> Result<Course, End>
    requires usable { IsUsable (spot W.World world.old state.old) }
    requires moment { is_moment state.old.moment ≡ true }
    ensures acts { Acts (spot W.World world.old state.old) (spot W.World world.new state.new)
        (λ units. spec.readcard (machine_of state.old units) reader.old words.now) result
        (dealt_of state.new reader.new) }
    ensures kept { state.new ≡ record state.old {
      table = state.new.table;
      places = state.new.places;
    } }
{
    let course = read_line_cards(alloc, world, state, reader, words)?;
    take_deck(reader, course);
    Ok(course)
}
