// A file that is dumped onto a deck.
ghost use Rattle.std.specs.Prelude.{◌≡◌, ◌≤◌, IfOk, take, true};
ghost use Rattle.cms_fields.specs.Numbers.{up};
ghost use Rattle.cms_fields.specs.Stamps.{is_stamp};
ghost use Rattle.cms_model.specs.Records.{IsValid};
ghost use Rattle.cms_cards.specs.Dumps as spec;

use crate::deck::{CARD, Card, Deck};
use crate::header::Header;
use cms_model::FileData;
use cms_names::Name;
use cms_text::bytes::{put, put_word};
use std::alloc::{AllocError, Global};

/// The first bytes of each card of a dump: CMSD.
const MARK: [u8; 4] = [0xC3, 0xD4, 0xE2, 0xC4];

/// The bytes of a card behind the mark and the card's number.
const PIECE: usize = 72;

// A card of a dump, with its number and the piece with which the rest of the text begins.
fn dump_card(number: u32, rest: &[u8]) -> Card
    ensures { result ≡ spec.dump_card number (take spec.piece_size rest.now) }
{
    let piece = &rest[..PIECE.min(rest.len())];
    let mut card = [0; CARD];
    put(&mut card, 0, &MARK);
    put_word(&mut card, 4, number);
    put(&mut card, 8, piece);
    card
}

// How many cards a text of so many bytes needs.
fn card_count(size: usize) -> Result<u32, AllocError>
    ensures { IfOk result (λ count. count ≡ up size spec.piece_size) }
{
    u32::try_from(size.div_ceil(PIECE)).map_err(|_| AllocError)
}

// A text on cards.
fn cards_of(alloc: Global, text: &[u8]) -> Result<Deck, AllocError>
    ensures { IfOk result (λ deck. deck ≡ spec.cards_of text.now) }
{
    let count = card_count(text.len())?;
    let mut deck = Deck::new(alloc);
    for number in 0..count {
        let start = number as usize * PIECE;
        deck.push(dump_card(number, &text[start..]))?;
    }
    Ok(deck)
}

// What a dump says of a file.
fn header_with(name: &Name, file: &FileData) -> Result<Header, AllocError>
    ensures { IfOk result (λ header. header ≡ spec.header_with name.now file.now) }
{
    Ok(Header {
        name: *name,
        number: file.number,
        format: file.format,
        length: file.length,
        count: file.count,
        stored: u32::try_from(file.bytes.bytes().len()).map_err(|_| AllocError)?,
        stamp: file.stamp,
    })
}

// A file's header and its stored bytes.
fn data_text(alloc: Global, name: &Name, file: &FileData) -> Result<Vec<u8>, AllocError>
    requires number { file.now.number ≤ 6 }
    requires stamp { is_stamp file.now.stamp ≡ true }
    ensures { IfOk result (λ text. text.items ≡ spec.data_text name.now file.now) }
{
    let header = header_with(name, file)?;
    let mut text = header.bytes().to_vec(alloc)?;
    text.extend_from_slice(file.bytes.bytes())?;
    Ok(text)
}

/// The deck onto which a file is dumped, as DISK DUMP punches it. Its text is the name and the type, 8
/// bytes each, the digit of the mode number, the byte of the format, the records' length, the number of records and of stored bytes, 4 bytes
/// each, the date and the flags as in an entry of a directory, and the stored bytes; each card has CMSD, its number from 0 in 4 bytes, and
/// the next 72 bytes of the text, zeros behind the last.
pub fn write_deck(alloc: Global, file: &FileData, name: &Name) -> Result<Deck, AllocError>
    requires { IsValid file.now }
    ensures { IfOk result (spec.IsDumpOf name.now file.now) }
{
    let text = data_text(alloc, name, file)?;
    cards_of(alloc, &text)
}
