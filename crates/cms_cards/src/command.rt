// The commands on cards.
ghost use Rattle.std.specs.Prelude.{◌≡◌, true};
ghost use Rattle.cms_fields.specs.Moments.{is_moment};
ghost use Rattle.cms_search.specs.Calls.{Acts, IsUsable, spot};
ghost use Rattle.cms_cards.specs.Calls.{cards_tree, dealt_of};

use crate::disk::run_disk;
use crate::punch::run_punch;
use crate::readcard::run_readcard;
use crate::reader::Reader;
use cms_line::Tokens;
use cms_search::{Course, End, State};
use cms_world::World;
use std::alloc::Global;

/// A command on cards.
#[derive(Clone, Copy)]
pub enum CardCommand {
    /// the records of a file are punched
    Punch,
    /// the cards of the first deck are written as a file
    Readcard,
    /// a file is dumped onto a deck, or loaded from the first
    Disk,
}

/// Runs the command on cards that these words are.
///
/// - PUNCH punches the records of a file, each onto a card, behind a card that tells of the file unless NOHEADER is given. It is refused, in
///   this order, as its line is, where no disk has the letter (069), where no file is found (002), where its records are longer than a card
///   (123), where the reader has 20 decks (120 with 6), and where the device fails (105).
/// - DISK DUMP dumps a file of any records onto a deck, which tells all of it.
/// - READCARD writes the cards of the first deck as a file of records of 80 bytes, without a first card that tells of a file where another
///   follows. A file that is there keeps its mode number. It is refused, in this order, as its line is, where no disk has the letter
///   (069), where the disk may only be read (037), where no deck is there (124), and as an update is (120, 107, 105).
/// - DISK LOAD writes the file whose dump the first deck is, with its name, mode number and stamp; where it is none: 125, behind 124.
///
/// The first deck goes only where the file was written. Nothing is erased, whatever its mode number.
pub fn run<W: World>(
    alloc: Global,
    world: &mut W,
    state: &mut State,
    reader: &mut Reader,
    words: &Tokens,
    command: CardCommand,
) -> Result<Course, End>
    requires usable { IsUsable (spot W.World world.old state.old) }
    requires moment { is_moment state.old.moment ≡ true }
    ensures acts { Acts (spot W.World world.old state.old) (spot W.World world.new state.new)
        (cards_tree state.old reader.old words.now command) result (dealt_of state.new reader.new) }
    ensures kept { state.new ≡ record state.old {
      table = state.new.table;
      places = state.new.places;
    } }
{
    match command {
        CardCommand::Punch => run_punch(alloc, world, state, reader, words),
        CardCommand::Readcard => run_readcard(alloc, world, state, reader, words),
        CardCommand::Disk => run_disk(alloc, world, state, reader, words),
    }
}
