// A file that is loaded from a deck.
ghost use Rattle.std.specs.Prelude.{◌≡◌, IfOk, List, Some, ℕ};
ghost use Rattle.cms_cards.specs.Dumps as spec;
ghost use Rattle.cms_cards.specs.Headers.{header_in};

use crate::deck::Deck;
use crate::dump::write_deck;
use crate::header::{HEADER, Header};
use crate::stored::are_filled;
use cms_model::{FileData, Stored};
use cms_names::Name;
use std::alloc::{AllocError, Global};

/// The bytes of a card in front of its piece of the text.
const FRONT: usize = 8;

// What stands on the cards behind mark and number.
fn deck_text(alloc: Global, deck: &Deck) -> Result<Vec<u8>, AllocError>
    ensures { IfOk result (λ text. text.items ≡ spec.deck_text deck.now) }
{
    let mut text = Vec::new(alloc);
    for card in deck.as_slice() {
        text.extend_from_slice(&card[FRONT..])?;
    }
    Ok(text)
}

// The file of a header whose stored bytes stand first in a text.
fn file_behind(
    alloc: Global,
    bytes: &[u8],
    header: &Header,
) -> Result<Option<(Name, FileData)>, AllocError>
    requires { (text : List ℕ) × (header_in text ≡ Some header.now) }
    ensures { IfOk result (spec.AreOf (spec.file_behind bytes.now header.now)) }
{
    let end = (header.stored as usize).min(bytes.len());
    let stored = &bytes[..end];
    if !are_filled(header.format, header.length, header.count, stored) {
        return Ok(None);
    }
    let file = FileData {
        format: header.format,
        length: header.length,
        number: header.number,
        stamp: header.stamp,
        count: header.count,
        bytes: Stored::take(stored.to_vec(alloc)?),
    };
    Ok(Some((header.name, file)))
}

// The file of which a text tells, whatever follows it.
#[tactic(auto, unfolding(crate::specs::Dumps::file_in))]
fn file_in(alloc: Global, text: &[u8]) -> Result<Option<(Name, FileData)>, AllocError>
    ensures { IfOk result (spec.AreOf (spec.file_in text.now)) }
{
    match Header::read(text) {
        Some(header) => file_behind(alloc, &text[HEADER..], &header),
        None => Ok(None),
    }
}

/// The file whose dump a deck is, with its name, as DISK LOAD takes it; none exactly where it is the dump of no file: also where zeros don't
/// fill its last card.
#[tactic(auto, unfolding(crate::specs::Dumps::load))]
pub fn read_deck(alloc: Global, deck: &Deck) -> Result<Option<(Name, FileData)>, AllocError>
    ensures { IfOk result (spec.AreOf (spec.load deck.now)) }
{
    let text = deck_text(alloc, deck)?;
    let Some((name, file)) = file_in(alloc, &text)? else {
        return Ok(None);
    };
    let again = write_deck(alloc, &file, &name)?;
    if again.as_slice() != deck.as_slice() {
        return Ok(None);
    }
    Ok(Some((name, file)))
}
