// DISK: a file is dumped onto a deck, or loaded from one.
ghost use Rattle.std.specs.Prelude.{◌≡◌, true};
ghost use Rattle.cms_fields.specs.Moments.{is_moment};
ghost use Rattle.cms_search.specs.Calls.{Acts, IsUsable, machine_of, spot};
ghost use Rattle.cms_cards.specs.Calls.{dealt_of};
ghost use Rattle.cms_cards.specs.Cards as spec;

use crate::dump::write_deck;
use crate::fetch::{Bounds, Fetched, fetch};
use crate::first_deck::{load_file, take_deck};
use crate::line::{DiskLine, disk_line};
use crate::reader::Reader;
use cms_files::FileInput;
use cms_line::Tokens;
use cms_operands::WriteMode;
use cms_search::{Course, End, State, refuse_command};
use cms_world::World;
use std::alloc::Global;

// Dumps the file that the line says.
fn dump<W: World>(
    alloc: Global,
    world: &mut W,
    state: &State,
    reader: &mut Reader,
    words: &Tokens,
    input: &FileInput,
) -> Result<Course, End>
    requires usable { IsUsable (spot W.World world.old state.now) }
    ensures { Acts (spot W.World world.old state.now) (spot W.World world.new state.now)
        (λ units. spec.dump_file (machine_of state.now units) reader.old words.now input.now) result
        (dealt_of state.now reader.new) }
{
    let bounds = Bounds {
        narrow: false,
        full: reader.is_full(),
    };
    let fetched = fetch(alloc, world, state, words, 2, bounds, input)?;
    match fetched {
        Fetched::File(_, file) => {
            let deck = write_deck(alloc, &file, &input.name)?;
            reader.push(deck)?;
            Ok(Course::Went(0))
        }
        Fetched::Refused(course) => Ok(course),
    }
}

// Loads the first deck onto the disk that the line says.
fn load<W: World>(
    alloc: Global,
    world: &mut W,
    state: &mut State,
    reader: &mut Reader,
    words: &Tokens,
    mode: &WriteMode,
) -> Result<Course, End>
    requires usable { IsUsable (spot W.World world.old state.old) }
    requires moment { is_moment state.old.moment ≡ true }
    ensures acts { Acts (spot W.World world.old state.old) (spot W.World world.new state.new)
        (λ units. spec.load_deck (machine_of state.old units) reader.old words.now mode.now) result
        (dealt_of state.new reader.new) }
    ensures kept { state.new ≡ record state.old {
      table = state.new.table;
      places = state.new.places;
    } }
{
    let course = load_file(alloc, world, state, reader, words, mode)?;
    take_deck(reader, course);
    Ok(course)
}

/// DISK: a file is dumped onto a deck, or the file whose dump the first deck is, is written.
pub(crate) fn run_disk<W: World>(
    alloc: Global,
    world: &mut W,
    state: &mut State,
    reader: &mut Reader,
    words: &Tokens,
) -> Result<Course, End>
    requires usable { IsUsable (spot W.World world.old state.old) }
    requires moment { is_moment state.old.moment ≡ true }
    ensures acts { Acts (spot W.World world.old state.old) (spot W.World world.new state.new)
        (λ units. spec.disk (machine_of state.old units) reader.old words.now) result
        (dealt_of state.new reader.new) }
    ensures kept { state.new ≡ record state.old {
      table = state.new.table;
      places = state.new.places;
    } }
{
    match disk_line(alloc, words) {
        Ok(DiskLine::Dump(input)) => dump(alloc, world, state, reader, words, &input),
        Ok(DiskLine::Load(mode)) => load(alloc, world, state, reader, words, &mode),
        Err(fault) => refuse_command(alloc, world, words, fault),
    }
}
