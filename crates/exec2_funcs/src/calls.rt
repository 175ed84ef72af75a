// The functions, each with its arguments.
ghost use Rattle.std.specs.Prelude.{◌≡◌, ◌≤◌, length, pos, position, IfOk, Ok};
ghost use Rattle.std.specs.Str.{bytes_eq};
ghost use Rattle.exec2_funcs.specs.Calls as spec;
ghost use Rattle.exec2_funcs.specs.Calls.{Answers};
ghost use Rattle.exec2_funcs.specs.Values as values;
ghost use Rattle.cms_text.specs.Limits.{longest_text};
ghost use Rattle.cms_text.specs.Numbers.{written};

use crate::arithmetic::{Operation, arithmetic};
use crate::bytes::{first_bytes, first_filled, from_place, last_filled, location, translated};
use crate::join::{concat, literal, string};
use crate::{FuncFault, Function};
use cms_text::{Word, WordList, number, without_trailing_blanks};
use exec2_parse::numeral;
use std::alloc::Global;

/// The value of a function at these words, which are what follows its OF, expanded. The faults are those of VM/SP EXEC 2's
/// functions, the first from the left: `Arity` before all others, then what is wrong with the words from left to right, and
/// `TooLong` of the value last.
#[tactic(auto, unfolding(crate::specs::Calls::called))]
pub fn call(alloc: Global, function: Function, words: &WordList) -> Result<Word, FuncFault>
    ensures { Answers (spec.called function words.now) result }
{
    let words = words.as_slice();
    match function {
        Function::Concat => concat(alloc, words),
        Function::Datatype => datatype(alloc, words),
        Function::Div => arithmetic(alloc, Operation::Quotient, words),
        Function::Mult => arithmetic(alloc, Operation::Product, words),
        Function::Left => left(alloc, words),
        Function::Right => right(alloc, words),
        Function::Length => length(alloc, words),
        Function::Literal => literal(alloc, words),
        Function::Location => location_in(alloc, words),
        Function::Piece | Function::Substr => piece(alloc, words),
        Function::Position => position(alloc, words),
        Function::String => string(alloc, words),
        Function::Trans => trans(alloc, words),
        Function::Trim => trim(alloc, words),
        Function::Word => word(alloc, words),
    }
}

/// A text as a value.
fn text_value(alloc: Global, text: &[u8]) -> Result<Word, FuncFault>
    requires { length text.now ≤ longest_text }
    ensures { Answers (Ok text.now) result }
{
    Ok(Word::of(alloc, text)?)
}

/// A count as a value.
#[tactic(auto, unfolding(cms_text::specs::Numbers::decimal_of))]
fn count_value(alloc: Global, count: usize) -> Result<Word, FuncFault>
    ensures { Answers (Ok (written (pos count))) result }
{
    Ok(numeral(alloc, count)?)
}

const NUM: [u8; 3] = [0xD5, 0xE4, 0xD4];

const CHAR: [u8; 4] = [0xC3, 0xC8, 0xC1, 0xD9];

/// NUM or CHAR.
#[tactic(auto, unfolding(crate::specs::Calls::datatype_call))]
fn datatype(alloc: Global, words: &[Word]) -> Result<Word, FuncFault>
    ensures { Answers (spec.datatype_call words.now) result }
{
    let [word] = words else {
        return Err(FuncFault::Arity);
    };
    text_value(alloc, kind_of(word.bytes()))
}

fn kind_of(word: &[u8]) -> &'static [u8]
    ensures kind { result.now ≡ spec.kind_of word.now }
    ensures short { length result.now ≤ longest_text }
{
    match number(word) {
        Some(_) => &NUM,
        None => &CHAR,
    }
}

/// The first bytes of a word, filled with blanks on the right.
#[tactic(auto, unfolding(crate::specs::Calls::left_call))]
fn left(alloc: Global, words: &[Word]) -> Result<Word, FuncFault>
    ensures { Answers (spec.left_call words.now) result }
{
    let [word, count] = words else {
        return Err(FuncFault::Arity);
    };
    let count = count_in(0, count)?;
    first_filled(alloc, word.bytes(), count)
}

/// The last bytes of a word, filled with blanks on the left.
#[tactic(auto, unfolding(crate::specs::Calls::right_call))]
fn right(alloc: Global, words: &[Word]) -> Result<Word, FuncFault>
    ensures { Answers (spec.right_call words.now) result }
{
    let [word, count] = words else {
        return Err(FuncFault::Arity);
    };
    let count = count_in(0, count)?;
    last_filled(alloc, word.bytes(), count)
}

/// How many bytes a word has.
#[tactic(auto, unfolding(crate::specs::Calls::length_call))]
fn length(alloc: Global, words: &[Word]) -> Result<Word, FuncFault>
    ensures { Answers (spec.length_call words.now) result }
{
    let [word] = words else {
        return Err(FuncFault::Arity);
    };
    count_value(alloc, word.bytes().len())
}

/// The first place, from 1, at which a word goes on with another, or 0.
#[tactic(auto, unfolding(crate::specs::Calls::location_call))]
fn location_in(alloc: Global, words: &[Word]) -> Result<Word, FuncFault>
    ensures { Answers (spec.location_call words.now) result }
{
    let [part, word] = words else {
        return Err(FuncFault::Arity);
    };
    count_value(alloc, location(part.bytes(), word.bytes()))
}

/// The bytes of a word from a place on, all or so many.
#[tactic(auto, unfolding(crate::specs::Calls::piece_call))]
fn piece(alloc: Global, words: &[Word]) -> Result<Word, FuncFault>
    ensures { Answers (spec.piece_call words.now) result }
{
    match words {
        [word, place] => {
            let place = count_in(1, place)?;
            text_value(alloc, from_place(word.bytes(), place))
        }
        [word, place, count] => {
            let place = count_in(1, place)?;
            let count = count_in(0, count)?;
            text_value(alloc, first_bytes(from_place(word.bytes(), place), count))
        }
        _ => Err(FuncFault::Arity),
    }
}

/// The number of the first further word that equals the first, or 0.
#[tactic(auto, unfolding(crate::specs::Calls::position_call))]
fn position(alloc: Global, words: &[Word]) -> Result<Word, FuncFault>
    ensures { Answers (spec.position_call words.now) result }
{
    let [word, others @ ..] = words else {
        return Err(FuncFault::Arity);
    };
    count_value(alloc, number_of_equal(word.bytes(), others))
}

/// The number, from 1, of the first word with these bytes, or 0.
fn number_of_equal(bytes: &[u8], words: &[Word]) -> usize
    ensures { result ≡ values.position_of bytes.now words.now }
{
    match place_of_equal(bytes, words) {
        Some(place) => place + 1,
        None => 0,
    }
}

fn place_of_equal(bytes: &[u8], words: &[Word]) -> Option<usize>
    ensures { result ≡ position (bytes_eq bytes.now) words.now }
{
    words.iter().position(|word| bytes == word.bytes())
}

/// A word with each byte translated.
#[tactic(auto, unfolding(crate::specs::Calls::trans_call))]
fn trans(alloc: Global, words: &[Word]) -> Result<Word, FuncFault>
    ensures { Answers (spec.trans_call words.now) result }
{
    let [word, out, from] = words else {
        return Err(FuncFault::Arity);
    };
    translated(alloc, word.bytes(), out.bytes(), from.bytes())
}

/// A word without the blanks at its end.
#[tactic(auto, unfolding(crate::specs::Calls::trim_call))]
fn trim(alloc: Global, words: &[Word]) -> Result<Word, FuncFault>
    ensures { Answers (spec.trim_call words.now) result }
{
    let [word] = words else {
        return Err(FuncFault::Arity);
    };
    text_value(alloc, without_trailing_blanks(word.bytes()))
}

/// The further word of a number, which counts from 1, or empty.
#[tactic(auto, unfolding(crate::specs::Calls::word_call))]
fn word(alloc: Global, words: &[Word]) -> Result<Word, FuncFault>
    ensures { Answers (spec.word_call words.now) result }
{
    let [number, others @ ..] = words else {
        return Err(FuncFault::Arity);
    };
    let number = count_in(1, number)?;
    text_value(alloc, nth_word(number, others))
}

fn nth_word(number: usize, words: &[Word]) -> &[u8]
    ensures word { result.now ≡ values.nth_word number words.now }
    ensures short { length result.now ≤ longest_text }
{
    match words.get(number.saturating_sub(1)) {
        Some(word) => word.bytes(),
        None => &[],
    }
}

/// A word in the place of a number from `low` to 255.
fn count_in(low: u8, word: &Word) -> Result<usize, FuncFault>
    ensures count { result ≡ spec.count_in low word.now }
    ensures most { IfOk result (λ count. count ≤ longest_text) }
{
    let Some(number) = number(word.bytes()) else {
        return Err(FuncFault::NotNumber);
    };
    match u8::try_from(number) {
        Ok(count) if low <= count => Ok(usize::from(count)),
        _ => Err(FuncFault::NotNumber),
    }
}
