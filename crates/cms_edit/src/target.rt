// The file that is edited.
ghost use Rattle.std.specs.Prelude.{◌≡◌, ◌<◌};
ghost use Rattle.cms_operands.specs.Operands as operands;
ghost use Rattle.cms_edit.specs.Editors as spec;

use cms_line::Token;
use cms_names::Name;
use cms_operands::{Refusal, ended, given_or, letter, name, needed};
use std::marker::Model;

/// The letter A in EBCDIC.
const A: u8 = 0xC1;

/// A disk's letter: its number from 0 for A to 25 for Z.
#[derive(Clone, Copy)]
pub struct Letter {
    number: u8,
}

impl Model for Letter {
    ghost use Rattle.std.specs.Prelude.{ℕ, ◌<◌};

    ghost Value = { ℕ };

    ghost view = { λ l. l.number };

    ghost invariant = { λ l. l.number < 26 };

    ghost inverse = { λ n. record { number = n } };
}

impl Letter {
    /// Its number, 0 to 25.
    pub fn number(&self) -> u8
        ensures value { result ≡ self.now }
        ensures within { result < 26 }
    {
        self.number
    }
}

/// A file by its name and its disk's letter.
#[derive(Clone, Copy)]
pub struct Target {
    pub name: Name,
    pub letter: Letter,
}

#[tactic(auto, using(crate::proofs::Targets::letter_below))]
fn letter_at(place: usize, text: &[u8]) -> Result<Letter, Refusal>
    ensures { result ≡ operands.letter place text.now }
{
    let number = letter(place, text)?;
    Ok(Letter { number })
}

/// The file that the words of EDIT's line name; its disk is A where no letter is given.
#[tactic(auto, unfolding(crate::specs::Editors::target_of))]
pub fn target_of(words: &[Token]) -> Result<Target, Refusal>
    ensures { result ≡ spec.target_of words.now }
{
    let file = name(1, needed(words, 1)?)?;
    let kind = name(2, needed(words, 2)?)?;
    let letter = letter_at(3, given_or(words, 3, &[A]))?;
    ended(words, 4)?;
    Ok(Target {
        name: Name { file, kind },
        letter,
    })
}
