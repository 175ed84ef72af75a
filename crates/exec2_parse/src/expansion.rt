// The expansion of a word.
ghost use Rattle.std.specs.Prelude.{◌≡◌, ◌==◌, ◌≤◌, ◌+◌, ◌++◌, length, true, Ok, Err, IfOk, MatchOption};
ghost use Rattle.exec2_parse.specs.Expansion.{KeepsPlainWords, ReplacesFromTheRight, SplitsAtLast, ampersands, expanded};
ghost use Rattle.exec2_parse.specs.Expansion as spec;
ghost use Rattle.exec2_parse.specs.Variables.{value_of};
ghost use Rattle.cms_text.specs.Limits.{longest_text};

use crate::fold::{folded, is_folded};
use crate::{Scope, Vars};
use cms_text::{LONGEST_TEXT, Word};
use std::alloc::{AllocError, Global};

const AMPERSAND: u8 = 0x50;

/// Why a word wasn't expanded.
#[derive(Clone, Copy, Debug)]
pub enum ExpandFault {
    /// A value, with what stands to its left in the word, has more than 255 bytes.
    TooLong,
    /// There is no memory.
    Memory,
}

impl From<AllocError> for ExpandFault {
    ghost use Rattle.std.specs.Prelude.{◌≡◌};
    ghost use Rattle.exec2_parse.specs.declared.expansion.ExpandFault.TheVariants as fault;

    ghost from_gives = { λ _ e. e ≡ fault.Memory };

    fn from(_want: AllocError) -> ExpandFault {
        ExpandFault::Memory
    }
}

/// The word with the values of its variables, by the rule of VM/SP EXEC 2: from the right, the last ampersand and all that follows it
/// are a name, which gives way to its value, and then the same for the ampersand to the left of that place. A name counts in
/// capital letters, a value isn't scanned again, and a variable that was never set is empty.
pub fn expand(alloc: Global, word: &[u8], vars: &Vars) -> Result<Word, ExpandFault>
    requires { length word.now ≤ longest_text }
    ensures value { IfOk result (λ text. expanded (value_of vars.now) word.now ≡ Ok text) }
    ensures too_long { result ≡ Err ExpandFault.TooLong
        → expanded (value_of vars.now) word.now ≡ Err ExpandFault.TooLong }
{
    expand_in(alloc, word, vars)
}

/// The word with the values that its names have in a scope, by the same rule.
pub fn expand_in<S: Scope>(alloc: Global, word: &[u8], scope: &S) -> Result<Word, ExpandFault>
    requires { length word.now ≤ longest_text }
    ensures value { IfOk result (λ text. expanded (S.binding scope.now) word.now ≡ Ok text) }
    ensures too_long { result ≡ Err ExpandFault.TooLong
        → expanded (S.binding scope.now) word.now ≡ Err ExpandFault.TooLong }
{
    let mut left = word;
    let mut value = Word::take(Vec::new(alloc));
    while let Some((front, name)) = split_at_last_ampersand(left) {
        value = value_named(alloc, name, value.bytes(), scope)?;
        left = front;
        if left.len() + value.bytes().len() > LONGEST_TEXT {
            return Err(ExpandFault::TooLong);
        }
    }
    Ok(followed(alloc, left, value)?)
}

/// What the expansion of a word is, at all variables and words.
///
/// - A word without an ampersand stays, and what follows it is put behind it.
/// - Any other is expanded at its last ampersand first, and what stands before that is then followed by the value. Where both
///   together pass 255 bytes, the word is too long.
pub fn expansion_laws()
    ensures plain { KeepsPlainWords }
    ensures last { ReplacesFromTheRight }
{}

/// Whether a word has no ampersand: it stays as it is.
pub fn is_plain(word: &[u8]) -> bool
    ensures { result ≡ (ampersands word.now == 0) }
{
    split_at_last_ampersand(word).is_none()
}

/// What stands before the last ampersand of a word, and what stands behind it.
fn split_at_last_ampersand(word: &[u8]) -> Option<(&[u8], &[u8])>
    ensures { MatchOption result (ampersands word.now ≡ 0)
        (λ parts. SplitsAtLast word.now parts.0.now parts.1.now) }
{
    let mut left = word;
    while let [front @ .., last] = left {
        if *last == AMPERSAND {
            return Some((front, &word[left.len()..]));
        }
        left = front;
    }
    None
}

/// The value of the variable whose name is what follows an ampersand, and a text. A name that stands in capital letters isn't copied.
fn value_named<S: Scope>(
    alloc: Global,
    first: &[u8],
    second: &[u8],
    scope: &S,
) -> Result<Word, AllocError>
    requires { length first.now + length second.now ≤ longest_text }
    ensures { IfOk result (λ value. value
        ≡ S.binding scope.now (spec.name_of first.now second.now)) }
{
    if is_whole_name(first, second) {
        return scope.value(alloc, first);
    }
    let name = name_of(alloc, first, second)?;
    scope.value(alloc, name.bytes())
}

/// Whether no text follows, and what follows the ampersand has no small letter.
#[tactic(auto, using(crate::proofs::Folds::plain_name))]
fn is_whole_name(first: &[u8], second: &[u8]) -> bool
    ensures { result ≡ true → spec.name_of first.now second.now ≡ first.now }
{
    if !second.is_empty() {
        return false;
    }
    is_folded(first)
}

/// The name of a variable, in capital letters: what follows an ampersand, and a text.
fn name_of(alloc: Global, first: &[u8], second: &[u8]) -> Result<Word, AllocError>
    requires { length first.now + length second.now ≤ longest_text }
    ensures { IfOk result (λ name. name ≡ spec.name_of first.now second.now) }
{
    folded(alloc, joined(alloc, first, second)?.bytes())
}

/// A text, followed by a value, which takes no memory where the text is empty.
fn followed(alloc: Global, text: &[u8], value: Word) -> Result<Word, AllocError>
    requires { length text.now + length value ≤ longest_text }
    ensures { IfOk result (λ word. word ≡ text.now ++ value) }
{
    if text.is_empty() {
        return Ok(value);
    }
    joined(alloc, text, value.bytes())
}

fn joined(alloc: Global, first: &[u8], second: &[u8]) -> Result<Word, AllocError>
    requires { length first.now + length second.now ≤ longest_text }
    ensures { IfOk result (λ word. word ≡ first.now ++ second.now) }
{
    let mut bytes = Vec::with_capacity(alloc, first.len() + second.len())?;
    bytes.extend_from_slice(first)?;
    bytes.extend_from_slice(second)?;
    Ok(Word::take(bytes))
}
