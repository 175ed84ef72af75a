// PUNCH: the records of a file on cards.
ghost use Rattle.std.specs.Prelude.{◌≡◌, ◌++◌, map, IfOk, OnOk};
ghost use Rattle.cms_model.specs.Records.{IsValid};
ghost use Rattle.cms_records.specs.Stored.{records_in};
ghost use Rattle.cms_search.specs.Calls.{Acts, IsUsable, machine_of, spot};
ghost use Rattle.cms_cards.specs.Dumps.{file_with};
ghost use Rattle.cms_cards.specs.Readers.{most_decks};
ghost use Rattle.cms_cards.specs.Calls.{dealt_of};
ghost use Rattle.cms_cards.specs.Cards as spec;
ghost use Rattle.cms_cards.specs.PunchedCards as cards;

use crate::deck::{CARD, Card, Deck};
use crate::fetch::{Bounds, Fetched, fetch};
use crate::line::{PunchLine, punch_line};
use crate::reader::Reader;
use cms_disk::FileData;
use cms_line::Tokens;
use cms_names::Name;
use cms_operands::coded;
use cms_records::Records;
use cms_search::{Course, End, State, letter_text, refuse_command};
use cms_text::bytes::put;
use cms_text::{BLANK, ZERO};
use cms_world::World;
use std::alloc::{AllocError, Global};

// A text on a card, with blanks behind it.
fn card_of(text: &[u8]) -> Card
    ensures { result ≡ cards.card_of text.now }
{
    let mut card = [BLANK; CARD];
    put(&mut card, 0, &text[..CARD.min(text.len())]);
    card
}

// What the card says that tells of the file behind it, which is on the disk of a letter.
fn read_text(alloc: Global, letter: u8, name: &Name, number: u8) -> Result<Vec<u8>, AllocError>
    ensures { IfOk result (λ text. text.items ≡ cards.read_text letter name.now number) }
{
    let mut text = coded(b":READ  ").to_vec(alloc)?;
    text.extend_from_slice(name.file.padded())?;
    text.push(BLANK)?;
    text.extend_from_slice(name.kind.padded())?;
    text.push(BLANK)?;
    text.extend_from_slice(&letter_text(letter))?;
    text.push(ZERO + number % 10)?;
    Ok(text)
}

// A deck with the card that tells of a file, where one is wanted.
fn header_deck(
    alloc: Global,
    header: bool,
    letter: u8,
    name: &Name,
    file: &FileData,
) -> Result<Deck, AllocError>
    ensures { IfOk result (λ deck. deck
        ≡ cards.header_cards header letter (file_with name.now file.now (records_in file.now))) }
{
    let mut deck = Deck::new(alloc);
    if header {
        deck.push(card_of(&read_text(alloc, letter, name, file.number)?))?;
    }
    Ok(deck)
}

// The records of a file come behind the cards of a deck.
fn add_records(deck: &mut Deck, file: &FileData) -> Result<(), AllocError>
    requires { IsValid file.now }
    ensures { OnOk result (deck.new ≡ deck.old ++ map cards.card_of (records_in file.now)) }
{
    for record in Records::of(file) {
        deck.push(card_of(record))?;
    }
    Ok(())
}

// The deck onto which a file of the disk of a letter is punched.
fn punched(
    alloc: Global,
    header: bool,
    letter: u8,
    name: &Name,
    file: &FileData,
) -> Result<Deck, AllocError>
    requires { IsValid file.now }
    ensures { IfOk result (λ deck. deck
        ≡ cards.punched header letter (file_with name.now file.now (records_in file.now))) }
{
    let mut deck = header_deck(alloc, header, letter, name, file)?;
    add_records(&mut deck, file)?;
    Ok(deck)
}

// Punches the file that the line says.
fn punch_file<W: World>(
    alloc: Global,
    world: &mut W,
    state: &State,
    reader: &mut Reader,
    words: &Tokens,
    line: &PunchLine,
) -> Result<Course, End>
    requires usable { IsUsable (spot W.World world.old state.now) }
    ensures { Acts (spot W.World world.old state.now) (spot W.World world.new state.now)
        (λ units. spec.punch_file (machine_of state.now units) reader.old words.now line.now) result
        (dealt_of state.now reader.new) }
{
    let bounds = Bounds {
        narrow: true,
        full: reader.is_full(),
    };
    let fetched = fetch(alloc, world, state, words, 1, bounds, &line.input)?;
    match fetched {
        Fetched::File(letter, file) => {
            let deck = punched(alloc, line.header, letter, &line.input.name, &file)?;
            reader.push(deck)?;
            Ok(Course::Went(0))
        }
        Fetched::Refused(course) => Ok(course),
    }
}

/// PUNCH: the records of a file are punched, each onto a card.
pub(crate) fn run_punch<W: World>(
    alloc: Global,
    world: &mut W,
    state: &State,
    reader: &mut Reader,
    words: &Tokens,
) -> Result<Course, End>
    requires usable { IsUsable (spot W.World world.old state.now) }
    ensures { Acts (spot W.World world.old state.now) (spot W.World world.new state.now)
        (λ units. spec.punch (machine_of state.now units) reader.old words.now) result
        (dealt_of state.now reader.new) }
{
    match punch_line(alloc, words) {
        Ok(line) => punch_file(alloc, world, state, reader, words, &line),
        Err(fault) => refuse_command(alloc, world, words, fault),
    }
}
