// A file that is found and read whole, so that it can be punched.
ghost use Rattle.std.specs.Prelude.{◌≡◌, ◌&&◌, IfOk, IsSome, false, nat_lt};
ghost use Rattle.cms_search.specs.Calls.{Acts, IsUsable, machine_of, spot};
ghost use Rattle.cms_files.specs.Files.{file_on};
ghost use Rattle.cms_files.specs.Told.{IsFoundAt, info_found};
ghost use Rattle.cms_names.specs.declared.name.Name as names;
ghost use Rattle.cms_search.specs.Machine.{letter_at};
ghost use Rattle.cms_cards.specs.Calls.{IsTaken, fetched_of, with_refused};
ghost use Rattle.cms_cards.specs.Fetch as spec;

use crate::deck::CARD;
use cms_disk::{DiskFault, FileData, FileInfo};
use cms_files::{FileInput, info_found, refuse_unfound};
use cms_line::{Message, Tokens};
use cms_search::{Course, End, Found, State, refuse, refuse_limit, refuse_unread};
use cms_world::World;
use std::alloc::Global;

/// The code of a file that isn't punched, or of a deck that isn't loaded.
pub(crate) const NOT_TAKEN: i32 = 32;

/// The number of the limit of decks.
const DECK_LIMIT: u32 = 6;

/// What fetching a file comes to.
#[derive(Drop)]
pub(crate) enum Fetched {
    /// its data, on the disk of this letter
    File(u8, FileData),
    /// it was refused, and the command ended so
    Refused(Course),
}

/// Where a file is to be punched.
#[derive(Clone, Copy)]
pub(crate) struct Bounds {
    /// each of its records onto a card
    pub narrow: bool,
    /// into a reader that has no room for a deck
    pub full: bool,
}

impl Bounds {
    // The records of a file of which this is told are longer than a card.
    fn exceeds(&self, info: &FileInfo) -> bool
        ensures { result ≡ (self.now.narrow && nat_lt 80 info.now.length) }
    {
        self.narrow && info.length > CARD as u32
    }
}

// A file that was refused.
fn refused(course: Result<Course, End>) -> Result<Fetched, End>
    ensures { result ≡ with_refused course }
{
    match course {
        Ok(course) => Ok(Fetched::Refused(course)),
        Err(end) => Err(end),
    }
}

// Reads a file that a search found whole.
fn read_whole<W: World>(
    alloc: Global,
    world: &mut W,
    state: &State,
    found: Found,
) -> Result<Fetched, End>
    requires usable { IsUsable (spot W.World world.old state.now) }
    requires there { IsSome (info_found state.now.table found) }
    ensures acts { (name : names.Name) → IsFoundAt state.now.table found name
        → Acts (spot W.World world.old state.now) (spot W.World world.new state.now)
        (λ units. spec.read_there (machine_of state.now units) found.letter
        (file_on (machine_of state.now units) name
        (letter_at (machine_of state.now units) found.letter)))
        result (fetched_of state.now name) }
    ensures taken { IfOk result (IsTaken false) }
{
    let vdev = state.table.vdev(found.letter);
    let Some(disk) = state.table.disk(found.letter) else {
        return Err(End::Memory);
    };
    match disk.get_at(alloc, world, found.place) {
        Ok(file) => Ok(Fetched::File(found.letter, file)),
        Err(fault) => match fault {
            DiskFault::Device | DiskFault::Altered => {
                refused(refuse_unread(alloc, world, vdev, fault))
            }
            // the file is there, so this is want of memory
            _ => Err(End::Memory),
        },
    }
}

// The file that a search found.
fn fetch_on<W: World>(
    alloc: Global,
    world: &mut W,
    state: &State,
    words: &Tokens,
    place: u8,
    bounds: Bounds,
    found: Found,
) -> Result<Fetched, End>
    requires usable { IsUsable (spot W.World world.old state.now) }
    requires there { IsSome (info_found state.now.table found) }
    ensures acts { (name : names.Name) → IsFoundAt state.now.table found name
        → Acts (spot W.World world.old state.now) (spot W.World world.new state.now)
        (λ units. spec.fetch_on
        (machine_of state.now units) words.now place bounds.narrow bounds.full name found.letter)
        result (fetched_of state.now name) }
    ensures taken { IfOk result (IsTaken bounds.full) }
{
    let info = info_found(&state.table, found).unwrap();
    if bounds.exceeds(&info) {
        return refused(refuse(alloc, world, Message::M123, NOT_TAKEN));
    }
    if bounds.full {
        return refused(refuse_limit(alloc, world, DECK_LIMIT));
    }
    read_whole(alloc, world, state, found)
}

/// The file that a command reads, whose words stand from a place on. It is refused, in this order, where no disk has the letter, where
/// no file is found, where its records are to go onto cards and are longer, where the reader has no room, and where the device fails.
pub(crate) fn fetch<W: World>(
    alloc: Global,
    world: &mut W,
    state: &State,
    words: &Tokens,
    place: u8,
    bounds: Bounds,
    input: &FileInput,
) -> Result<Fetched, End>
    requires usable { IsUsable (spot W.World world.old state.now) }
    ensures acts { Acts (spot W.World world.old state.now) (spot W.World world.new state.now)
        (λ units. spec.fetching
        (machine_of state.now units) words.now place bounds.narrow bounds.full input.now)
        result (fetched_of state.now input.now.name) }
    ensures taken { IfOk result (IsTaken bounds.full) }
{
    match state.table.find_read(&input.name, &input.mode) {
        Ok(found) => fetch_on(alloc, world, state, words, place, bounds, found),
        Err(fault) => refused(refuse_unfound(alloc, world, words, place, fault)),
    }
}
