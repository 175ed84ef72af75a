// Decks that are made by hand, and read as dumps.
use cms_cards::{CARD, Card, Deck, read_deck, write_deck};
use cms_cases::{Report, number, word};
use std::alloc::Global;
use std::process::Abort;

/// `fixed/SIZE/COUNT`: the size and the number of the records of the file that is read from so many cards, on which a file with one record
/// of so many bytes stands. `changed/read`: the places of a deck of one card at which another byte makes it the dump of another file;
/// `changed/dumped`: those where the dump of the file that is read is the changed deck.
pub const ROWS: &str = "\
fixed/35/0 => None
fixed/35/1 => Some((35, 1))
fixed/35/2 => None
fixed/36/1 => None
fixed/36/2 => Some((36, 1))
fixed/36/3 => None
fixed/107/2 => Some((107, 1))
fixed/108/2 => None
fixed/108/3 => Some((108, 1))
fixed/179/3 => Some((179, 1))
fixed/180/3 => None
changed/read => [16, 17, 18, 19, 24, 38, 41, 42, 43, 47, 48, 49, 50, 51]
changed/dumped => [16, 17, 18, 19, 24, 38, 41, 42, 43, 47, 48, 49, 50, 51]";

// The bytes of a card behind the mark and the card's number.
const PIECE: usize = 72;

// A name and a type.
const NAME: [u8; 16] = *b"\xC1\x40\x40\x40\x40\x40\x40\x40\xC6\xC9\xD3\xC5\x40\x40\x40\x40";

// A card with its number and a piece of a text.
fn card(number: u8, piece: &[u8]) -> Card {
    let mark = [0xC3, 0xD4, 0xE2, 0xC4, 0, 0, 0, number];
    let mut card = [0; CARD];
    for (to, from) in card.iter_mut().zip(mark.iter().chain(piece)) {
        *to = *from;
    }
    card
}

// So many cards of a text, those behind its end without any of it.
fn deck_of<R: Abort>(rt: &R, alloc: Global, text: &[u8], count: u8) -> Deck {
    let mut deck = Deck::new(alloc);
    let mut rest = text;
    for number in 0..count {
        let (piece, behind) = rest.split_at(PIECE.min(rest.len()));
        deck.push(card(number, piece)).expect(rt, "memory");
        rest = behind;
    }
    deck
}

// The text of a file A FILE A1 of 1900-01-01 00:00:02, with one record of F of so many letters.
fn fixed<R: Abort>(rt: &R, alloc: Global, size: u32) -> Vec<u8> {
    let length = size.to_be_bytes();
    let head: [&[u8]; 6] = [
        &NAME,
        &[0xF1, 0xC6],
        &length,
        &[0, 0, 0, 1],
        &length,
        &[0, 1, 1, 0, 0, 2, 0],
    ];
    let mut text = head.concat(alloc).expect(rt, "memory");
    let end = text.len().saturating_add(size as usize);
    text.resize(end, 0xE7).expect(rt, "memory");
    text
}

fn tell_fixed<R: Abort>(into: &mut Report, rt: &R, alloc: Global, case: &str) {
    let text = fixed(rt, alloc, number(word(case, 1)).min(1000));
    let count = u8::try_from(number(word(case, 2))).unwrap_or(0);
    let deck = deck_of(rt, alloc, &text, count);
    let read = read_deck(alloc, &deck).expect(rt, "memory");
    into.value(&read.map(|(_, file)| (file.length, file.count)))
}

// The text of a file A FILE A1 of 1900-01-01 00:00:02, with the record HELLO of V.
const HELLO: [u8; 44] = [
    0xC1, 0x40, 0x40, 0x40, 0x40, 0x40, 0x40, 0x40, 0xC6, 0xC9, 0xD3, 0xC5, 0x40, 0x40, 0x40, 0x40,
    0xF1, 0xE5, 0, 0, 0, 5, 0, 0, 0, 1, 0, 0, 0, 7, 0, 1, 1, 0, 0, 2, 0, 0, 5, 0xC8, 0xC5, 0xD3,
    0xD3, 0xD6,
];

// Whether a file is read from a deck of this card, and whether its dump is that deck.
fn is_read<R: Abort>(rt: &R, alloc: Global, card: Card) -> (bool, bool) {
    let mut deck = Deck::new(alloc);
    deck.push(card).expect(rt, "memory");
    match read_deck(alloc, &deck).expect(rt, "memory") {
        Some((name, file)) => {
            let again = write_deck(alloc, &file, &name).expect(rt, "memory");
            (true, again.as_slice() == deck.as_slice())
        }
        None => (false, false),
    }
}

// The places of a card at which another byte makes it the dump of another file; or those where that file's dump is the changed card.
fn tell_places<R: Abort>(into: &mut Report, rt: &R, alloc: Global, dumped: bool) {
    let mut places = Vec::new(alloc);
    for place in 0..CARD {
        let mut changed = card(0, &HELLO);
        changed[place] ^= 1;
        let (read, same) = is_read(rt, alloc, changed);
        if read && (same || !dumped) {
            places.push(place).expect(rt, "memory");
        }
    }
    into.value(&places)
}

/// Tells what a case comes to.
pub fn tell<R: Abort>(into: &mut Report, rt: &R, alloc: Global, case: &str) {
    match word(case, 0) {
        "fixed" => tell_fixed(into, rt, alloc, case),
        _ => tell_places(into, rt, alloc, word(case, 1) == "dumped"),
    }
}
