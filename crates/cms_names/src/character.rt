// The characters that names, patterns and modes are made of, in EBCDIC code page 037.
ghost use Rattle.std.specs.Prelude.{◌≡◌};
ghost use Rattle.cms_names.specs.Names.{is_name_character, is_pattern_character};
ghost use Rattle.cms_names.specs.Modes.{letter_of, mode_number_of};

/// Fills up a name of fewer than 8 characters.
pub(crate) const BLANK: u8 = 0x40;

/// Stands for any characters in a pattern, and for every mode.
pub(crate) const ASTERISK: u8 = 0x5C;

/// Stands for one character in a pattern.
pub(crate) const PERCENT: u8 = 0x6C;

/// Stands for the input's part or mode in an output identifier.
pub(crate) const EQUAL_SIGN: u8 = 0x7E;

/// Whether file names and file types may have the character: A to Z, 0 to 9 and $ # @ + - : _
/// (VM/SP CMS Command and Macro Reference, "File identifiers").
#[tactic(auto, unfolding(crate::specs::Names::is_name_character))]
pub fn is_name_character(character: u8) -> bool
    ensures { result ≡ is_name_character character }
{
    matches!(
        character,
        0xC1..=0xC9
            | 0xD1..=0xD9
            | 0xE2..=0xE9
            | 0xF0..=0xF9
            | 0x5B
            | 0x7B
            | 0x7C
            | 0x4E
            | 0x60
            | 0x7A
            | 0x6D
    )
}

/// Whether patterns may have the character: a name character, `*` or `%`.
#[tactic(auto, unfolding(crate::specs::Names::is_pattern_character))]
pub(crate) fn is_pattern_character(character: u8) -> bool
    ensures { result ≡ is_pattern_character character }
{
    is_name_character(character) || character == ASTERISK || character == PERCENT
}

/// The number of a letter, from 0 for A to 25 for Z.
#[tactic(auto, unfolding(crate::specs::Modes::letter_of))]
pub(crate) fn letter_number(character: u8) -> Option<u8>
    ensures { result ≡ letter_of character }
{
    match character {
        0xC1..=0xC9 => Some(character - 0xC1),
        0xD1..=0xD9 => Some(character - 0xD1 + 9),
        0xE2..=0xE9 => Some(character - 0xE2 + 18),
        _ => None,
    }
}

/// The value of a digit that can be a mode number, 0 to 6.
#[tactic(auto, unfolding(crate::specs::Modes::mode_number_of))]
pub(crate) fn mode_number(character: u8) -> Option<u8>
    ensures { result ≡ mode_number_of character }
{
    match character {
        0xF0..=0xF6 => Some(character - 0xF0),
        _ => None,
    }
}
