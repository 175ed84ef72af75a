// Short texts in fields of eight bytes.
ghost use Rattle.std.specs.Prelude.{◌≡◌, ◌<◌, ◌≤◌, true, not, length, position, IfOk, IfSome};
ghost use Rattle.cms_names.specs.Names.{filled, is_text_of, text_of};
ghost use Rattle.cms_names.specs.Alphabets.{is_of};

use crate::character::{BLANK, is_name_character, is_pattern_character};
use crate::fault::NameFault;
use std::marker::Model;

/// The characters that a text may have.
#[derive(Clone, Copy)]
pub(crate) enum Alphabet {
    /// those of file names and file types
    Names,
    /// those of patterns
    Patterns,
}

impl Alphabet {
    fn has(self, character: u8) -> bool
        ensures { result ≡ is_of self character }
    {
        match self {
            Alphabet::Names => is_name_character(character),
            Alphabet::Patterns => is_pattern_character(character),
        }
    }

    // The place of the first character of the word that isn't in the alphabet.
    fn first_outside(self, word: &[u8]) -> Option<usize>
        ensures place { result ≡ position (λ c. not (is_of self c)) word.now }
        ensures within { IfSome result (λ place. place < length word.now) }
    {
        word.iter().position(|c| !self.has(*c))
    }
}

/// 1 to 8 bytes of EBCDIC, filled with blanks.
#[derive(Clone, Copy, Debug)]
pub(crate) struct Text {
    bytes: [u8; 8],
    len: u8,
}

impl Model for Text {
    ghost use Rattle.std.specs.Prelude.{◌≡◌, ◌≤◌, List, ℕ, take, length};
    ghost use Rattle.cms_names.specs.Names.{filled};

    ghost Value = { List ℕ };

    ghost view = { λ t. take t.len t.bytes };

    ghost invariant = { λ t. (1 ≤ t.len) × (length (take t.len t.bytes) ≡ t.len) × (filled (take t.len t.bytes) ≡ t.bytes) };

    ghost inverse = { λ text. record { bytes = filled text; len = length text } };

    ghost inverse_ok = { λ t h i. record { bytes = h.2 i; len = h.1 i } };
}

impl Text {
    /// The word, where it has 1 to 8 bytes and all are in the alphabet.
    #[tactic(auto, unfolding(crate::specs::Names::text_of))]
    pub(crate) fn read(word: &[u8], alphabet: Alphabet) -> Result<Text, NameFault>
        ensures value { result ≡ text_of (is_of alphabet) word.now }
        ensures allowed { IfOk result (λ text. is_text_of (is_of alphabet) text ≡ true) }
    {
        if word.is_empty() {
            return Err(NameFault::Empty);
        }
        if word.len() > 8 {
            return Err(NameFault::TooLong);
        }
        match alphabet.first_outside(word) {
            Some(place) => Err(NameFault::BadChar(place as u32)),
            None => Ok(Text::of(word)),
        }
    }

    // A word of 1 to 8 bytes.
    fn of(word: &[u8]) -> Text
        requires some { 1 ≤ length word.now }
        requires few { length word.now ≤ 8 }
        ensures { result ≡ word.now }
    {
        let mut bytes = [BLANK; 8];
        bytes[..word.len()].copy_from_slice(word);
        Text {
            bytes,
            len: word.len() as u8,
        }
    }

    /// The bytes, without the blanks behind them.
    pub(crate) fn as_bytes(&self) -> &[u8]
        ensures { result.now ≡ self.now }
    {
        &self.bytes[..self.len as usize]
    }

    /// The bytes with the blanks.
    pub(crate) fn padded(&self) -> &[u8; 8]
        ensures { result.now ≡ filled self.now }
    {
        &self.bytes
    }
}
