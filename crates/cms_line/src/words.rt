// The words of a line.
ghost use Rattle.std.specs.Prelude.{◌≡◌, ◌≤◌, ◌<◌, ◌||◌, ◌++◌, length, map, IfOk, OnOk};
ghost use Rattle.cms_ebcdic.specs.CodePage.{upper_of};
ghost use Rattle.cms_line.specs.Tokens.{tokens_of, word_at, words_at, parenthesis_at, is_blank, is_parenthesis};
ghost use Rattle.cms_text.specs.Limits.{longest_text};

use crate::{Line, Token, Tokens, Word};
use cms_ebcdic::fold_upper;
use cms_text::BLANK;
use std::alloc::{AllocError, Global};

/// A left parenthesis in EBCDIC.
pub const LEFT: u8 = 0x4D;

/// A right parenthesis in EBCDIC.
pub const RIGHT: u8 = 0x5D;

// A blank or a parenthesis ends a word.
fn ends_word(byte: u8) -> bool
    ensures { result ≡ (is_blank byte || is_parenthesis byte) }
{
    matches!(byte, BLANK | LEFT | RIGHT)
}

fn is_parenthesis(byte: u8) -> bool
    ensures { result ≡ is_parenthesis byte }
{
    matches!(byte, LEFT | RIGHT)
}

// A text folded to upper case.
fn folded(alloc: Global, text: &[u8]) -> Result<Word, AllocError>
    requires { length text.now ≤ longest_text }
    ensures { IfOk result (λ word. word ≡ map upper_of text.now) }
{
    let mut bytes = Vec::with_capacity(alloc, text.len())?;
    for byte in text {
        bytes.push(fold_upper(*byte))?;
    }
    Ok(Word::take(bytes))
}

// The word that stands in a line from a place up to another.
fn word_at(alloc: Global, line: &[u8], start: usize, end: usize) -> Result<Token, AllocError>
    requires ordered { start ≤ end }
    requires inside { end ≤ length line.now }
    requires short { length line.now ≤ longest_text }
    ensures { IfOk result (λ token. token ≡ word_at line.now start end) }
{
    Ok(Token {
        text: folded(alloc, &line[start..end])?,
        start: start as u8,
        end: end as u8,
    })
}

// Adds a word that may have no bytes.
fn end_word(
    alloc: Global,
    line: &[u8],
    start: usize,
    end: usize,
    tokens: &mut Tokens,
) -> Result<(), AllocError>
    requires ordered { start ≤ end }
    requires inside { end ≤ length line.now }
    requires short { length line.now ≤ longest_text }
    ensures { OnOk result (tokens.new ≡ tokens.old ++ words_at line.now start end) }
{
    if start == end {
        return Ok(());
    }
    tokens.push(word_at(alloc, line, start, end)?)
}

// Adds a parenthesis, where one stands at this place.
fn add_parenthesis(
    alloc: Global,
    line: &[u8],
    place: usize,
    byte: u8,
    tokens: &mut Tokens,
) -> Result<(), AllocError>
    requires inside { place < length line.now }
    requires short { length line.now ≤ longest_text }
    ensures { OnOk result (tokens.new ≡ tokens.old ++ parenthesis_at line.now place byte) }
{
    if !is_parenthesis(byte) {
        return Ok(());
    }
    tokens.push(word_at(alloc, line, place, place + 1)?)
}

/// The words of a line, which stand between blanks, each parenthesis as a word by itself; folded to upper case.
pub fn tokens(alloc: Global, line: &Line) -> Result<Tokens, AllocError>
    ensures { IfOk result (λ tokens. tokens ≡ tokens_of line.now) }
{
    let bytes = line.bytes();
    let mut tokens = Tokens::new(alloc);
    let mut start = 0;
    for (place, byte) in bytes.iter().enumerate() {
        if !ends_word(*byte) {
            continue;
        }
        end_word(alloc, bytes, start, place, &mut tokens)?;
        add_parenthesis(alloc, bytes, place, *byte, &mut tokens)?;
        start = place + 1;
    }
    end_word(alloc, bytes, start, bytes.len(), &mut tokens)?;
    Ok(tokens)
}
