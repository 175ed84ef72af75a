// The words of a line.
ghost use Rattle.std.specs.Prelude.{◌≡◌, ◌≤◌, ◌++◌, length, drop, take, position, ◌<◌, IfOk, IfSome, OnOk, MatchOption};
ghost use Rattle.std.specs.List.{slice_split};
ghost use Rattle.exec2_parse.specs.Words as spec;
ghost use Rattle.cms_text.specs.Limits.{longest_text};

use cms_text::{BLANK, Word, WordList};
use std::alloc::{AllocError, Global};

/// The character that begins a label.
const HYPHEN: u8 = 0x60;

/// The character that begins a comment.
const ASTERISK: u8 = 0x5C;

/// The words of a text, which stand between blanks.
pub fn words_of(alloc: Global, text: &[u8]) -> Result<WordList, AllocError>
    requires { length text.now ≤ longest_text }
    ensures { IfOk result (λ words. words ≡ spec.words_of text.now) }
{
    let mut words = WordList::new(alloc);
    let mut rest = text;
    while let Some((word, behind)) = cut(rest) {
        add(alloc, &mut words, word)?;
        rest = behind;
    }
    add(alloc, &mut words, rest)?;
    Ok(words)
}

/// What stands before the first blank, and what stands behind it.
#[tactic(auto, using(crate::proofs::Cuts::cut_rest, crate::proofs::Cuts::cut_at, crate::proofs::Cuts::uncut))]
fn cut(text: &[u8]) -> Option<(&[u8], &[u8])>
    ensures words { MatchOption result (spec.words_of text.now ≡ spec.word_if_any text.now)
        (λ parts. spec.words_of text.now
        ≡ spec.word_if_any parts.0.now ++ spec.words_of parts.1.now) }
    ensures short { IfSome result
        (λ parts. (length parts.0.now ≤ length text.now) × (length parts.1.now < length text.now)) }
{
    match place_of_blank(text) {
        Some(place) => Some((&text[..place], &text[place + 1..])),
        None => None,
    }
}

fn place_of_blank(text: &[u8]) -> Option<usize>
    ensures place { result ≡ position spec.is_blank text.now }
    ensures within { IfSome result (λ place. place < length text.now) }
{
    text.iter().position(|byte| *byte == BLANK)
}

/// Adds a word, unless it has no bytes.
fn add(alloc: Global, words: &mut WordList, word: &[u8]) -> Result<(), AllocError>
    requires { length word.now ≤ longest_text }
    ensures { OnOk result (words.new ≡ words.old ++ spec.word_if_any word.now) }
{
    if word.is_empty() {
        return Ok(());
    }
    words.push(Word::of(alloc, word)?)
}

/// The words of the statement on a line: none on a comment, and those behind the label where the first word is one.
#[tactic(auto, unfolding(crate::specs::Words::statement_on))]
pub fn statement_on(alloc: Global, line: &[u8]) -> Result<WordList, AllocError>
    requires { length line.now ≤ longest_text }
    ensures { IfOk result (λ words. words ≡ spec.statement_on line.now) }
{
    if is_comment(line) {
        return Ok(WordList::new(alloc));
    }
    behind_label(alloc, words_of(alloc, line)?)
}

/// The words behind the label, where the first is one.
fn behind_label(alloc: Global, words: WordList) -> Result<WordList, AllocError>
    ensures { IfOk result (λ statement. statement ≡ spec.statement_of words) }
{
    if let [word, statement @ ..] = words.as_slice() {
        if is_label(word.bytes()) {
            return copied(alloc, statement);
        }
    }
    Ok(words)
}

/// Whether a word has the form of a label.
pub fn is_label(word: &[u8]) -> bool
    ensures { result ≡ spec.is_label word.now }
{
    word.first() == Some(&HYPHEN)
}

/// Whether a line is a comment.
fn is_comment(line: &[u8]) -> bool
    ensures { result ≡ spec.is_comment line.now }
{
    line.first() == Some(&ASTERISK)
}

/// A copy of the words.
pub fn copied(alloc: Global, words: &[Word]) -> Result<WordList, AllocError>
    ensures { IfOk result (λ copy. copy ≡ words.now) }
{
    let mut copy = WordList::new(alloc);
    for word in words {
        copy.push(Word::of(alloc, word.bytes())?)?;
    }
    Ok(copy)
}
