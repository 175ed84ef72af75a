// What the words of a statement become.
ghost use Rattle.std.specs.Prelude.{◌≡◌, ◌≤◌, ◌∷◌, length, IfOk, OnOk, Ok, Err};
ghost use Rattle.cms_text.specs.Limits.{longest_text};
ghost use Rattle.cms_text.specs.Numbers as numbers;
ghost use Rattle.exec2_funcs.specs.Calls as functions;
ghost use Rattle.exec2_run.specs.Given.{bound};
ghost use Rattle.exec2_run.specs.Faults.{Answers, of_function, with_fault};
ghost use Rattle.exec2_run.specs.Values as spec;
ghost use Rattle.exec2_run.specs.declared.values.Operands.{Operands};

use crate::Fault;
use crate::given::Seen;
use cms_text::{Line, Word, WordList};
use exec2_funcs::{Function, call};
use exec2_parse::{ExpandFault, expand_in, written};
use std::alloc::{AllocError, Global};

/// What words become from left to right, up to the first that becomes too long.
#[derive(Drop)]
pub struct Operands {
    pub words: WordList,
    /// A word becomes too long behind these.
    pub is_cut: bool,
}

/// What a word becomes.
pub fn value(alloc: Global, seen: &Seen<'_>, word: &Word) -> Result<Word, Fault>
    ensures { Answers (spec.value (bound seen.now) word.now) result }
{
    Ok(expand_in(alloc, word.bytes(), seen)?)
}

/// A text as a value.
pub fn text_value(alloc: Global, text: &[u8]) -> Result<Word, Fault>
    requires { length text.now ≤ longest_text }
    ensures { Answers (Ok text.now) result }
{
    Ok(Word::of(alloc, text)?)
}

/// A number as a value.
pub fn number_value(alloc: Global, number: i64) -> Result<Word, Fault>
    ensures { Answers (Ok (numbers.written number)) result }
{
    Ok(written(alloc, number)?)
}

/// The value of a function at these words.
pub fn called(alloc: Global, function: Function, words: &WordList) -> Result<Word, Fault>
    ensures { Answers (with_fault of_function (functions.called function words.now)) result }
{
    Ok(call(alloc, function, words)?)
}

// What words become. One that becomes nothing is an empty one, or is left out.
#[tactic(auto, unfolding(crate::specs::Values::values))]
fn values(
    alloc: Global,
    seen: &Seen<'_>,
    words: &[Word],
    keeps_empty: bool,
) -> Result<Operands, AllocError>
    ensures { IfOk result (λ operands. operands
        ≡ spec.values keeps_empty (bound seen.now) words.now) }
{
    let mut values = WordList::new(alloc);
    for word in words {
        match expand_in(alloc, word.bytes(), seen) {
            Ok(value) => keep(&mut values, value, keeps_empty)?,
            Err(ExpandFault::TooLong) => {
                return Ok(Operands {
                    words: values,
                    is_cut: true,
                });
            }
            Err(ExpandFault::Memory) => return Err(AllocError),
        }
    }
    Ok(Operands {
        words: values,
        is_cut: false,
    })
}

/// Adds a value, unless it is empty and such ones are left out.
fn keep(values: &mut WordList, value: Word, keeps_empty: bool) -> Result<(), AllocError>
    ensures { OnOk result ((more : Operands) → spec.behind values.new more
        ≡ spec.behind values.old (spec.in_front keeps_empty (Ok value) more)) }
{
    if keeps_empty || !value.bytes().is_empty() {
        return values.push(value);
    }
    Ok(())
}

/// What the words of a statement become, without those that become nothing.
pub fn expanded_words(
    alloc: Global,
    seen: &Seen<'_>,
    words: &[Word],
) -> Result<Operands, AllocError>
    ensures { IfOk result (λ operands. operands ≡ spec.operands (bound seen.now) words.now) }
{
    values(alloc, seen, words, false)
}

/// What the words of a function become; a word that becomes nothing is an empty one.
pub fn arguments(alloc: Global, seen: &Seen<'_>, words: &[Word]) -> Result<Operands, AllocError>
    ensures { IfOk result (λ operands. operands ≡ spec.arguments (bound seen.now) words.now) }
{
    values(alloc, seen, words, true)
}

/// No word stands here that doesn't become nothing.
pub fn no_words(alloc: Global, seen: &Seen<'_>, words: &[Word]) -> Result<(), Fault>
    ensures { Answers (spec.ended (spec.operands (bound seen.now) words.now).words
        (spec.operands (bound seen.now) words.now).is_cut) result }
{
    let operands = expanded_words(alloc, seen, words)?;
    ended(operands.words.as_slice(), operands.is_cut)
}

/// Why a word is missing: it became too long, or it isn't there.
pub fn missing(is_cut: bool) -> Fault
    ensures { result ≡ spec.missing is_cut }
{
    if is_cut {
        Fault::TooLong
    } else {
        Fault::BadStatement
    }
}

/// No further word may stand here.
pub fn ended(words: &[Word], is_cut: bool) -> Result<(), Fault>
    ensures { result ≡ spec.ended words.now is_cut }
{
    if !words.is_empty() {
        return Err(Fault::BadStatement);
    }
    whole(is_cut)
}

/// No further word may become too long.
pub fn whole(is_cut: bool) -> Result<(), Fault>
    ensures { result ≡ spec.whole is_cut }
{
    if is_cut {
        return Err(Fault::TooLong);
    }
    Ok(())
}

/// The text that the words make: joined by a blank, those that become nothing left out.
#[tactic(auto, unfolding(crate::specs::Values::text))]
pub fn text(alloc: Global, seen: &Seen<'_>, words: &[Word]) -> Result<Line, Fault>
    ensures { Answers (spec.text (bound seen.now) words.now) result }
{
    let operands = expanded_words(alloc, seen, words)?;
    whole(operands.is_cut)?;
    joined(alloc, &operands.words)
}

/// The text of these words: joined by a blank, empty ones left out.
pub fn joined(alloc: Global, words: &WordList) -> Result<Line, Fault>
    ensures { Answers (spec.joined words.now) result }
{
    let text = called(alloc, Function::String, words)?;
    Ok(Line::take(text.into_bytes()))
}
