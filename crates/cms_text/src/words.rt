// Texts in EBCDIC: blanks and words.
ghost use Rattle.std.specs.Prelude.{◌≡◌, ◌≤◌, ◌∷◌, List, ℕ, false, length, IfOk};
ghost use Rattle.std.specs.Option.{option_map_or};
ghost use Rattle.std.specs.List.{position_or_len, prefix_len};
ghost use Rattle.cms_text.specs.Texts as texts;

use cms_ebcdic::{fold_upper, from_host};
use std::alloc::{AllocError, Global};

/// The blank of code page 037.
pub const BLANK: u8 = 0x40;

/// The stroke of code page 037.
pub const STROKE: u8 = 0x61;

/// The colon of code page 037.
pub const COLON: u8 = 0x7A;

/// The digit 0 of code page 037; the digits up to 9 stand behind it.
pub const ZERO: u8 = 0xF0;

/// An ASCII text in EBCDIC, without what code page 037 doesn't have.
#[tactic(auto, unfolding(crate::specs::Texts::ebcdic))]
pub fn ebcdic(alloc: Global, text: &str) -> Result<Vec<u8>, AllocError>
    ensures { IfOk result (λ bytes. bytes.items ≡ texts.ebcdic text.now) }
{
    text.bytes().filter_map(from_host).collect(alloc)
}

/// The same of a text of the program, with a blank for what code page 037 doesn't have.
pub fn coded<const N: usize>(text: &[u8; N]) -> [u8; N]
    ensures { result ≡ texts.coded text.now }
{
    let mut codes = [BLANK; N];
    for (place, letter) in text.iter().enumerate() {
        codes[place] = from_host(*letter).unwrap_or(BLANK);
    }
    codes
}

/// The text without the bytes at its end that are this one.
pub fn without_trailing(last: u8, text: &[u8]) -> &[u8]
    ensures { result.now ≡ texts.without_trailing last text.now }
{
    let mut kept = text;
    while let [front @ .., byte] = kept {
        if *byte != last {
            break;
        }
        kept = front;
    }
    kept
}

/// The text without the blanks at its end.
pub fn without_trailing_blanks(text: &[u8]) -> &[u8]
    ensures { result.now ≡ texts.without_trailing_blanks text.now }
{
    without_trailing(BLANK, text)
}

/// Whether a word is this keyword, which is given in ASCII capitals, in capital or small letters.
pub fn is_keyword(word: &[u8], name: &str) -> bool
    ensures { result ≡ texts.is_keyword name.now word.now }
{
    let mut left = word;
    for letter in name.as_bytes() {
        match strip_letter(left, *letter) {
            Some(rest) => left = rest,
            None => return false,
        }
    }
    left.is_empty()
}

/// The word without the letter at its front, if it begins with that letter. A character that code page 037 doesn't have is none.
fn strip_letter(word: &[u8], letter: u8) -> Option<&[u8]>
    ensures { (more : List ℕ) → texts.is_keyword (letter ∷ more) word.now
        ≡ option_map_or (λ rest. texts.is_keyword more rest.now) result false }
{
    let Some(code) = from_host(letter) else {
        return Some(word);
    };
    match word {
        [first, rest @ ..] if fold_upper(*first) == code => Some(rest),
        _ => None,
    }
}

/// The first word of a text: the bytes up to a blank, behind the blanks that the text begins with.
/// Empty where the text has blanks alone.
pub fn first_word(text: &[u8]) -> &[u8]
    ensures { result.now ≡ texts.first_word text.now }
{
    before_blank(without_leading_blanks(text))
}

/// The text without the blanks at its beginning.
pub fn without_leading_blanks(text: &[u8]) -> &[u8]
    ensures { result.now ≡ texts.without_leading_blanks text.now }
{
    &text[leading_blanks(text)..]
}

/// The text without the one blank that it may begin with.
pub fn without_one_blank(text: &[u8]) -> &[u8]
    ensures text { result.now ≡ texts.without_one_blank text.now }
    ensures short { length result.now ≤ length text.now }
{
    match text {
        [BLANK, rest @ ..] => rest,
        _ => text,
    }
}

fn before_blank(text: &[u8]) -> &[u8]
    ensures { result.now ≡ texts.before_blank text.now }
{
    &text[..place_of_blank(text)]
}

fn leading_blanks(text: &[u8]) -> usize
    ensures count { result ≡ prefix_len texts.is_blank text.now }
    ensures within { result ≤ length text.now }
{
    text.iter().take_while(|byte| **byte == BLANK).count()
}

/// The place of the first blank, or the text's length where it has none.
fn place_of_blank(text: &[u8]) -> usize
    ensures place { result ≡ position_or_len texts.is_blank text.now }
    ensures within { result ≤ length text.now }
{
    text.iter().take_while(|byte| **byte != BLANK).count()
}
