// Patterns of file names and file types.
ghost use Rattle.std.specs.Prelude.{◌≡◌, ℕ, ◌≤◌, List, [], ◌∷◌, Bool, length, IsTrue, ◌↔◌};
ghost use Rattle.cms_names.specs.Names.{pattern_of};
ghost use Rattle.cms_names.specs.Patterns.{fits, Fits, some_suffix, one_and_then, is_wanted, IsRow};

use crate::character::{ASTERISK, PERCENT};
use crate::fault::NameFault;
use crate::name::Part;
use crate::text::{Alphabet, Text};
use std::marker::Model;

/// A pattern of file names or file types: 1 to 8 name characters, `*` and `%`, in EBCDIC
/// (VM/SP CMS Command and Macro Reference, LISTFILE).
#[derive(Clone, Copy)]
pub struct Pattern {
    text: Text,
}

impl Model for Pattern {
    ghost use Rattle.std.specs.Prelude.{◌≡◌, true, List, ℕ};
    ghost use Rattle.cms_names.specs.Names.{is_pattern};

    ghost Value = { List ℕ };

    ghost view = { λ p. p.text };

    ghost invariant = { λ p. is_pattern p.text ≡ true };

    ghost inverse = { λ text. record { text = text } };
}

impl Pattern {
    /// The pattern that a word spells.
    pub fn read(word: &[u8]) -> Result<Pattern, NameFault>
        ensures { result ≡ pattern_of word.now }
    {
        let text = Text::read(word, Alphabet::Patterns)?;
        Ok(Pattern { text })
    }

    /// Whether the part is one that the pattern stands for: `*` stands for any characters, also
    /// none, `%` for one, and any other character for itself.
    #[tactic(auto, using(crate::proofs::Words::short))]
    pub fn fits(&self, part: &Part) -> bool
        ensures value { result ≡ fits self.now part.now }
        ensures relation { IsTrue result ↔ Fits self.now part.now }
    {
        fits_text(self.text.as_bytes(), part.as_bytes())
    }
}

// Whether the pattern fits the text. It goes over the pattern from its end, with a row that says for
// each place of the text whether the rest of the pattern fits from there on. So it takes no more
// steps than the product of the two lengths.
fn fits_text(pattern: &[u8], text: &[u8]) -> bool
    requires { length text.now ≤ 8 }
    ensures { result ≡ fits pattern.now text.now }
{
    let mut rests = end_row(text);
    for place in (0..pattern.len()).rev() {
        rests = row_before(pattern[place], text, &rests);
    }
    rests[0]
}

// The row of the empty pattern, which fits at the end alone.
#[tactic(auto, using(crate::proofs::Rows::end))]
fn end_row(text: &[u8]) -> [bool; 9]
    requires { length text.now ≤ 8 }
    ensures { IsRow (fits []) text.now result }
{
    let mut row = [false; 9];
    row[text.len()] = true;
    row
}

// The row of a pattern that begins with the sign, from that of its rest.
#[tactic(auto, unfolding(crate::specs::Patterns::fits))]
fn row_before(sign: u8, text: &[u8], rests: &[bool; 9]) -> [bool; 9]
    requires { length text.now ≤ 8 }
    ensures { (rest : List ℕ) → IsRow (fits rest) text.now rests.now
        → IsRow (fits (sign ∷ rest)) text.now result }
{
    match sign {
        ASTERISK => suffix_row(text, rests),
        PERCENT => character_row(None, text, rests),
        _ => character_row(Some(sign), text, rests),
    }
}

// Where some suffix passes.
fn suffix_row(text: &[u8], rests: &[bool; 9]) -> [bool; 9]
    requires { length text.now ≤ 8 }
    ensures { (test : List ℕ → Bool) → IsRow test text.now rests.now
        → IsRow (some_suffix test) text.now result }
{
    let mut row = *rests;
    for place in (0..text.len()).rev() {
        row[place] = row[place] || row[place + 1];
    }
    row
}

// Where the wanted character, or any where none is wanted, stands before a text that passes.
fn character_row(wanted: Option<u8>, text: &[u8], rests: &[bool; 9]) -> [bool; 9]
    requires { length text.now ≤ 8 }
    ensures { (test : List ℕ → Bool) → IsRow test text.now rests.now
        → IsRow (one_and_then (is_wanted wanted) test) text.now result }
{
    let mut row = [false; 9];
    for (place, character) in text.iter().enumerate() {
        row[place] = is_wanted(wanted, *character) && rests[place + 1];
    }
    row
}

fn is_wanted(wanted: Option<u8>, character: u8) -> bool
    ensures { result ≡ is_wanted wanted character }
{
    match wanted {
        Some(only) => character == only,
        None => true,
    }
}
