// Letters, devices and columns of lines, in EBCDIC.
ghost use Rattle.std.specs.Prelude.{◌≡◌, ◌<◌, ◌-◌, ◌∷◌, ◌++◌, length, replicate, IfOk, OnOk};
ghost use Rattle.cms_search.specs.Texts as telling;

use cms_line::Word;
use cms_text::BLANK;
use std::alloc::{AllocError, Global};

/// A letter, A is 0; a blank past Z.
pub fn letter_text(letter: u8) -> [u8; 1]
    ensures { result ≡ telling.letter_text letter }
{
    [if letter < 9 {
        0xC1 + letter
    } else if letter < 18 {
        0xD1 + (letter - 9)
    } else if letter < 26 {
        0xE2 + (letter - 18)
    } else {
        BLANK
    }]
}

/// A hexadecimal digit in upper case.
pub fn hexadecimal_digit(digit: u8) -> u8
    requires { digit < 16 }
    ensures { result ≡ telling.hexadecimal_digit digit }
{
    if digit < 10 {
        0xF0 + digit
    } else {
        0xC1 + (digit - 10)
    }
}

/// A device, in three hexadecimal digits.
pub fn device_text(vdev: u16) -> [u8; 3]
    ensures { result ≡ telling.device_text vdev }
{
    [
        hexadecimal_digit((vdev / 256 % 16) as u8),
        hexadecimal_digit((vdev / 16 % 16) as u8),
        hexadecimal_digit((vdev % 16) as u8),
    ]
}

/// A letter as a word, A is 0.
pub fn letter_word(alloc: Global, letter: u8) -> Result<Word, AllocError>
    ensures { IfOk result (λ word. word ≡ telling.letter_text letter) }
{
    Word::of(alloc, &letter_text(letter))
}

/// A device as a word.
pub fn device_word(alloc: Global, vdev: u16) -> Result<Word, AllocError>
    ensures { IfOk result (λ word. word ≡ telling.device_text vdev) }
{
    Word::of(alloc, &device_text(vdev))
}

// The blanks that a text leaves of so many places.
fn blanks(alloc: Global, width: usize, text: &[u8]) -> Result<Vec<u8>, AllocError>
    ensures { IfOk result (λ blanks. blanks.items ≡ replicate (width - length text.now) 0x40) }
{
    let count = width.saturating_sub(text.len());
    Ok(vec![in alloc; BLANK; count]?)
}

/// A line that begins with a text, at the left of so many places.
pub fn first_column(alloc: Global, width: usize, text: &[u8]) -> Result<Vec<u8>, AllocError>
    ensures { IfOk result (λ line. line.items ≡ telling.left_in width text.now) }
{
    let mut line = text.to_vec(alloc)?;
    line.extend_from_slice(&blanks(alloc, width, text)?)?;
    Ok(line)
}

/// Adds a blank, and a text at the left of so many places.
pub fn add_left(
    alloc: Global,
    line: &mut Vec<u8>,
    width: usize,
    text: &[u8],
) -> Result<(), AllocError>
    ensures { OnOk result (line.new.items
        ≡ line.old.items ++ 0x40 ∷ telling.left_in width text.now) }
{
    line.push(BLANK)?;
    line.extend_from_slice(text)?;
    line.extend_from_slice(&blanks(alloc, width, text)?)
}

/// Adds a blank, and a text at the right of so many places.
pub fn add_right(
    alloc: Global,
    line: &mut Vec<u8>,
    width: usize,
    text: &[u8],
) -> Result<(), AllocError>
    ensures { OnOk result (line.new.items
        ≡ line.old.items ++ 0x40 ∷ telling.right_in width text.now) }
{
    line.push(BLANK)?;
    line.extend_from_slice(&blanks(alloc, width, text)?)?;
    line.extend_from_slice(text)
}
