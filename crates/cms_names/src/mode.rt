// The words of file modes.
ghost use Rattle.std.specs.Prelude.{◌≡◌};
ghost use Rattle.cms_names.specs.Modes.{mode_word_of, short_mode_of};

use crate::character::{ASTERISK, EQUAL_SIGN, letter_number, mode_number};

/// What a word says of the mode of files (VM/SP CMS Command and Macro Reference, "File
/// identifiers"). A letter is its number, from 0 for A to 25 for Z.
#[derive(Clone, Copy, Debug)]
pub enum ModeWord {
    /// `*`: every letter
    Any,
    /// `=`: the input's letter
    Same,
    Letter(u8),
    /// a letter, and a mode number from 0 to 6
    Numbered(u8, u8),
}

impl ModeWord {
    /// The mode that a word spells: `*`, `=`, a letter, or a letter and a digit from 0 to 6. None
    /// where it spells none.
    #[tactic(auto, using(crate::proofs::Words::one, crate::proofs::Words::two), unfolding(crate::specs::Modes::mode_word_of))]
    pub fn read(word: &[u8]) -> Option<ModeWord>
        ensures { result ≡ mode_word_of word.now }
    {
        match word {
            [sign] => short_mode(*sign),
            [letter, digit] => Some(ModeWord::Numbered(
                letter_number(*letter)?,
                mode_number(*digit)?,
            )),
            _ => None,
        }
    }
}

#[tactic(auto, unfolding(crate::specs::Modes::short_mode_of))]
fn short_mode(sign: u8) -> Option<ModeWord>
    ensures { result ≡ short_mode_of sign }
{
    match sign {
        ASTERISK => Some(ModeWord::Any),
        EQUAL_SIGN => Some(ModeWord::Same),
        _ => Some(ModeWord::Letter(letter_number(sign)?)),
    }
}
