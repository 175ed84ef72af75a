// A file is written from the first deck of the reader, which goes then.
ghost use Rattle.std.specs.Prelude.{◌≡◌, ◌≤◌, ◌&&◌, true, [], Ok, IfOk, IfSome, length, map, nat_lt, slice_get, slice_index_or};
ghost use Rattle.cms_names.specs.declared.name.Format.TheVariants.{F};
ghost use Rattle.cms_fields.specs.Moments.{is_moment};
ghost use Rattle.cms_fields.specs.Stamps.{is_stamp};
ghost use Rattle.cms_search.specs.Calls.{Acts, IsUsable, course_of, machine_of, spot};
ghost use Rattle.cms_search.specs.Searches.{item_at};
ghost use Rattle.cms_search.specs.Tables.{letters_of, writing};
ghost use Rattle.cms_files.specs.Gathered.{AreData, IsGathered};
ghost use Rattle.cms_files.specs.Told.{info_named};
ghost use Rattle.cms_cards.specs.Calls.{decks_left, number_told};
ghost use Rattle.cms_cards.specs.FirstDeck as spec;
ghost use Rattle.cms_cards.specs.PunchedCards.{card_of, record_cards, tells};

use crate::deck::{CARD, Card, Deck};
use crate::fetch::NOT_TAKEN;
use crate::line::ReadTarget;
use crate::load::read_deck;
use crate::reader::Reader;
use cms_disk::FileData;
use cms_fields::Stamp;
use cms_files::{Gathered, NO_FILE, refuse_unfound, write_last};
use cms_line::{Message, Tokens};
use cms_names::Format;
use cms_operands::{WriteMode, coded};
use cms_search::{AccessTable, Course, End, FileWrite, State, refuse};
use cms_world::World;
use std::alloc::{AllocError, Global};

/// The first deck goes, where the command that wrote a file from it came to code 0.
pub(crate) fn take_deck(reader: &mut Reader, course: Course)
    ensures { reader.new ≡ decks_left reader.old course }
{
    match course {
        Course::Went(0) => reader.drop_first(),
        Course::Went(_) | Course::OutOfTurns => {}
    }
}

// ---- READCARD

// A card tells of the file behind it.
fn tells(card: &Card) -> bool
    ensures { result ≡ tells card.now }
{
    card.starts_with(&coded(b":READ  "))
}

// The first of some cards tells of the file behind it, and another follows.
fn has_header(cards: &[Card]) -> bool
    ensures header { result ≡ (nat_lt 1 (length cards.now) && tells
        (slice_index_or cards.now 0 [])) }
    ensures some { result ≡ true → 1 ≤ length cards.now }
{
    cards.len() > 1 && tells(&cards[0])
}

// The cards of a deck that are records.
fn record_cards(deck: &Deck) -> &[Card]
    ensures { result.now ≡ record_cards deck.now }
{
    let cards = deck.as_slice();
    if has_header(cards) {
        return &cards[1..];
    }
    cards
}

// Cards, as records of a file.
fn gather(alloc: Global, cards: &[Card]) -> Result<Gathered, AllocError>
    ensures { IfOk result (IsGathered F 80 (map card_of cards.now)) }
{
    let mut gathered = Gathered::new(alloc, Format::F, CARD as u32);
    for card in cards {
        gathered.push(card)?;
    }
    Ok(gathered)
}

// The data of the file that a deck's cards are.
fn cards_data(alloc: Global, deck: &Deck, number: u8, stamp: &Stamp) -> Result<FileData, AllocError>
    requires number { number ≤ 6 }
    requires stamp { is_stamp stamp.now ≡ true }
    ensures { IfOk result (AreData F 80 number stamp.now (map card_of (record_cards deck.now))) }
{
    let gathered = gather(alloc, record_cards(deck))?;
    gathered.data(number, stamp).ok_or(AllocError)
}

// The mode number of the file: that of the one that is there, else the operand's, or 1.
fn number_for(table: &AccessTable, target: &ReadTarget) -> u8
    requires { IfSome target.now.mode.number (λ k. k ≤ 6) }
    ensures told { result ≡ number_told target.now.mode.number
        (info_named table.now target.now.mode.letter target.now.name) }
    ensures number { result ≤ 6 }
{
    let Some(disk) = table.disk(target.mode.letter) else {
        return target.mode.number.unwrap_or(1);
    };
    let Some(place) = disk.find(&target.name) else {
        return target.mode.number.unwrap_or(1);
    };
    disk.mode_number(place)
}

// Writes the cards of a deck.
fn write_cards<W: World>(
    alloc: Global,
    world: &mut W,
    state: &mut State,
    deck: &Deck,
    target: &ReadTarget,
) -> Result<Course, End>
    requires usable { IsUsable (spot W.World world.old state.old) }
    requires writing { writing (item_at (letters_of state.old.table) target.now.mode.letter)
        target.now.mode.letter ≡ Ok tt }
    requires number { IfSome target.now.mode.number (λ k. k ≤ 6) }
    requires moment { is_moment state.old.moment ≡ true }
    ensures acts { Acts (spot W.World world.old state.old) (spot W.World world.new state.new)
        (λ units. spec.write_cards (machine_of state.old units) target.now deck.now) result
        (course_of state.new) }
    ensures kept { state.new ≡ record state.old {
      table = state.new.table;
      places = state.new.places;
    } }
{
    let number = number_for(&state.table, target);
    let stamp = Stamp::of(&state.moment);
    let file = cards_data(alloc, deck, number, &stamp)?;
    write_last(
        alloc,
        world,
        state,
        target.mode.letter,
        &target.name,
        FileWrite::Put(&file),
    )
}

// Writes the cards of the first deck, on a disk that may be written.
fn write_first<W: World>(
    alloc: Global,
    world: &mut W,
    state: &mut State,
    reader: &Reader,
    target: &ReadTarget,
) -> Result<Course, End>
    requires usable { IsUsable (spot W.World world.old state.old) }
    requires writing { writing (item_at (letters_of state.old.table) target.now.mode.letter)
        target.now.mode.letter ≡ Ok tt }
    requires number { IfSome target.now.mode.number (λ k. k ≤ 6) }
    requires moment { is_moment state.old.moment ≡ true }
    ensures acts { Acts (spot W.World world.old state.old) (spot W.World world.new state.new)
        (λ units. spec.on_deck (machine_of state.old units)
        (spec.write_cards (machine_of state.old units) target.now)
        (slice_get reader.now 0)) result (course_of state.new) }
    ensures kept { state.new ≡ record state.old {
      table = state.new.table;
      places = state.new.places;
    } }
{
    match reader.first() {
        Some(deck) => write_cards(alloc, world, state, deck, target),
        None => refuse(alloc, world, Message::M124, NO_FILE),
    }
}

/// Writes the cards of the first deck as a file. It is refused, in this order, where no disk has the letter, where the disk may only be
/// read, where no deck is there, and as an update is.
pub(crate) fn read_cards<W: World>(
    alloc: Global,
    world: &mut W,
    state: &mut State,
    reader: &Reader,
    words: &Tokens,
    target: &ReadTarget,
) -> Result<Course, End>
    requires usable { IsUsable (spot W.World world.old state.old) }
    requires number { IfSome target.now.mode.number (λ k. k ≤ 6) }
    requires moment { is_moment state.old.moment ≡ true }
    ensures acts { Acts (spot W.World world.old state.old) (spot W.World world.new state.new)
        (λ units. spec.reading_cards (machine_of state.old units) words.now
        (slice_get reader.now 0) target.now) result
        (course_of state.new) }
    ensures kept { state.new ≡ record state.old {
      table = state.new.table;
      places = state.new.places;
    } }
{
    match state.table.find_write(target.mode.letter) {
        Ok(()) => write_first(alloc, world, state, reader, target),
        Err(fault) => refuse_unfound(alloc, world, words, 1, fault),
    }
}

// ---- DISK LOAD

// Writes the file whose dump a deck is.
fn write_dump<W: World>(
    alloc: Global,
    world: &mut W,
    state: &mut State,
    deck: &Deck,
    letter: u8,
) -> Result<Course, End>
    requires usable { IsUsable (spot W.World world.old state.old) }
    requires writing { writing (item_at (letters_of state.old.table) letter) letter ≡ Ok tt }
    requires moment { is_moment state.old.moment ≡ true }
    ensures acts { Acts (spot W.World world.old state.old) (spot W.World world.new state.new)
        (λ units. spec.write_dump (machine_of state.old units) letter deck.now) result
        (course_of state.new) }
    ensures kept { state.new ≡ record state.old {
      table = state.new.table;
      places = state.new.places;
    } }
{
    let read = read_deck(alloc, deck)?;
    match read {
        Some((name, file)) => {
            write_last(alloc, world, state, letter, &name, FileWrite::Put(&file))
        }
        None => refuse(alloc, world, Message::M125, NOT_TAKEN),
    }
}

// Writes the file whose dump the first deck is, on a disk that may be written.
fn load_first<W: World>(
    alloc: Global,
    world: &mut W,
    state: &mut State,
    reader: &Reader,
    letter: u8,
) -> Result<Course, End>
    requires usable { IsUsable (spot W.World world.old state.old) }
    requires writing { writing (item_at (letters_of state.old.table) letter) letter ≡ Ok tt }
    requires moment { is_moment state.old.moment ≡ true }
    ensures acts { Acts (spot W.World world.old state.old) (spot W.World world.new state.new)
        (λ units. spec.on_deck (machine_of state.old units)
        (spec.write_dump (machine_of state.old units) letter)
        (slice_get reader.now 0)) result (course_of state.new) }
    ensures kept { state.new ≡ record state.old {
      table = state.new.table;
      places = state.new.places;
    } }
{
    match reader.first() {
        Some(deck) => write_dump(alloc, world, state, deck, letter),
        None => refuse(alloc, world, Message::M124, NO_FILE),
    }
}

/// Writes the file whose dump the first deck is, with its name, mode number and stamp. It is refused, in this order, where no disk has the
/// letter, where the disk may only be read, where no deck is there, where it is no dump, and as an update is.
pub(crate) fn load_file<W: World>(
    alloc: Global,
    world: &mut W,
    state: &mut State,
    reader: &Reader,
    words: &Tokens,
    mode: &WriteMode,
) -> Result<Course, End>
    requires usable { IsUsable (spot W.World world.old state.old) }
    requires moment { is_moment state.old.moment ≡ true }
    ensures acts { Acts (spot W.World world.old state.old) (spot W.World world.new state.new)
        (λ units. spec.loading (machine_of state.old units) words.now
        (slice_get reader.now 0) mode.now) result
        (course_of state.new) }
    ensures kept { state.new ≡ record state.old {
      table = state.new.table;
      places = state.new.places;
    } }
{
    match state.table.find_write(mode.letter) {
        Ok(()) => load_first(alloc, world, state, reader, mode.letter),
        Err(fault) => refuse_unfound(alloc, world, words, 2, fault),
    }
}
