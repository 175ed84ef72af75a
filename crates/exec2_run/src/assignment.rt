// Assignments: the value of a right side.
ghost use Rattle.std.specs.Prelude.{◌≡◌, ◌≤◌, ◌⊎◌, ℕ, List, IfSome, OnOk, Ok, Some, drop, length};
ghost use Rattle.cms_text.specs.Limits.{longest_text};
ghost use Rattle.cms_text.specs.Numbers as numbers;
ghost use Rattle.exec2_parse.specs.Expansion.{expanded};
ghost use Rattle.exec2_run.specs.Assignments as spec;
ghost use Rattle.exec2_run.specs.Given.{bound};
ghost use Rattle.exec2_run.specs.Faults.{Answers, Does};

use crate::borrowed::{borrowed, borrowed_target};
use crate::exec::ExecState;
use crate::given::Seen;
use crate::values::{
    Operands, arguments, called, expanded_words, number_value, text_value, value, whole,
};
use crate::variables::target;
use crate::words::only;
use crate::{Fault, Want};
use cms_text::{Word, WordList, is_keyword, number};
use exec2_funcs::{FuncFault, Function, call};
use exec2_parse::copied;
use std::alloc::{AllocError, Global};

const PLUS: u8 = 0x4E;

const MINUS: u8 = 0x60;

/// A sign between the numbers of a sum.
#[derive(Clone, Copy)]
pub enum Sign {
    Plus,
    Minus,
}

/// A sum from left to right so far.
#[derive(Clone, Copy)]
pub struct Sum {
    pub total: i64,
    /// The sign that the next number follows; none where a sign is due.
    pub sign: Option<Sign>,
}

impl ExecState {
    /// Sets a variable to the value of a right side.
    #[tactic(auto, unfolding(crate::specs::Assignments::assigned))]
    pub fn assign(&mut self, words: &[Word]) -> Result<Want, Fault>
        ensures { Does (spec.assigned self.old words.now) self.old self.new result }
    {
        let [name, _, right @ ..] = words else {
            return Err(Fault::BadStatement);
        };
        self.assign_to(name, right)
    }

    fn assign_to(&mut self, name: &Word, right: &[Word]) -> Result<Want, Fault>
        ensures { Does (spec.assigned_to self.old name.now right.now) self.old self.new result }
    {
        if let Some(name) = borrowed_target(name.bytes()) {
            return self.assign_named(name, right);
        }
        let name = target(self.alloc, &self.seen(), name)?;
        let value = right_side(self.alloc, &self.seen(), right)?;
        self.set_to(name, value)
    }

    /// The same of a name that stands there as it is.
    fn assign_named(&mut self, name: &[u8], right: &[Word]) -> Result<Want, Fault>
        requires { length name.now ≤ longest_text }
        ensures { Does (spec.named self.old name.now right.now) self.old self.new result }
    {
        let value = right_side(self.alloc, &self.seen(), right)?;
        self.set_named(name, value)
    }
}

/// The value of what stands behind the equal sign.
#[tactic(auto, using(crate::proofs::OneWord::one_word), unfolding(crate::specs::Assignments::right_side))]
fn right_side(alloc: Global, seen: &Seen<'_>, words: &[Word]) -> Result<Word, Fault>
    ensures { Answers (spec.right_side (bound seen.now) words.now) result }
{
    if let Some(word) = only(words) {
        return value(alloc, seen, word);
    }
    if let Some(total) = sum_of_two(seen, words) {
        return number_value(alloc, total);
    }
    if let Some(function) = function_of(words) {
        return function_value(alloc, seen, function, behind_of(words));
    }
    plain_value(alloc, &expanded_words(alloc, seen, words)?)
}

/// The sum of two numbers with a sign between them, none of which is copied.
fn sum_of_two(seen: &Seen<'_>, words: &[Word]) -> Option<i64>
    ensures { IfSome result (λ total. spec.right_side (bound seen.now) words.now
        ≡ Ok (numbers.written total)) }
{
    let [left, sign, right] = words else {
        return None;
    };
    let sign = sign_of(sign.bytes())?;
    let left = number_in(seen, left)?;
    let right = number_in(seen, right)?;
    match sign.apply(left, right) {
        Ok(total) => Some(total),
        Err(_) => None,
    }
}

/// The number that a word becomes, where that is borrowed.
fn number_in(seen: &Seen<'_>, word: &Word) -> Option<i64>
    ensures { IfSome result (λ z. (text : List ℕ)
        × (expanded (bound seen.now) word.now ≡ Ok text) × (numbers.number_of text ≡ Some z)) }
{
    number(borrowed(seen, word.bytes())?)
}

/// The function that is called: a function word stands first, and OF behind it.
fn function_of(words: &[Word]) -> Option<Function>
    ensures { result ≡ spec.function_in words.now }
{
    match words {
        [function, of, ..] => {
            if is_keyword(of.bytes(), "OF") {
                Function::read(function.bytes())
            } else {
                None
            }
        }
        _ => None,
    }
}

fn behind_of(words: &[Word]) -> &[Word]
    ensures { result.now ≡ drop 2 words.now }
{
    match words {
        [_, _, rest @ ..] => rest,
        _ => &[],
    }
}

/// The value of a function of these words, which &LITERAL alone takes unexpanded.
#[tactic(auto, unfolding(crate::specs::Assignments::function_value))]
fn function_value(
    alloc: Global,
    seen: &Seen<'_>,
    function: Function,
    words: &[Word],
) -> Result<Word, Fault>
    ensures { Answers (spec.function_value (bound seen.now) function words.now) result }
{
    if function == Function::Literal {
        return called(alloc, function, &copied(alloc, words)?);
    }
    if !takes(function, words.len()) {
        return Err(Fault::Arity);
    }
    expanded_call(alloc, function, arguments(alloc, seen, words)?)
}

/// The value of a function of words that are expanded.
fn expanded_call(alloc: Global, function: Function, given: Operands) -> Result<Word, Fault>
    ensures { Answers (spec.expanded_call function given) result }
{
    let Operands { words, is_cut } = given;
    if is_cut {
        return Err(fault_before(alloc, function, words));
    }
    called(alloc, function, &words)
}

/// Whether a function takes so many words.
fn takes(function: Function, count: usize) -> bool
    ensures { result ≡ spec.takes function count }
{
    match function {
        Function::Concat | Function::Literal | Function::String => true,
        Function::Datatype | Function::Length | Function::Trim => count == 1,
        Function::Div | Function::Mult => 2 <= count,
        Function::Left | Function::Right | Function::Location => count == 2,
        Function::Piece | Function::Substr => count == 2 || count == 3,
        Function::Position | Function::Word => 1 <= count,
        Function::Trans => count == 3,
    }
}

/// The fault of a function whose words are these and one that is too long: what is wrong with these alone comes first.
fn fault_before(alloc: Global, function: Function, words: WordList) -> Fault
    ensures { (result ≡ Fault.Memory) ⊎ (spec.fault_before function words ≡ result) }
{
    let mut words = words;
    if add_probe(alloc, function, &mut words).is_err() {
        return Fault::Memory;
    }
    match call(alloc, function, &words) {
        Ok(_) | Err(FuncFault::Arity) => Fault::TooLong,
        Err(fault) => Fault::from(fault),
    }
}

/// Adds a 1 behind words that are divided or multiplied.
fn add_probe(alloc: Global, function: Function, words: &mut WordList) -> Result<(), AllocError>
    ensures { OnOk result (words.new ≡ spec.probe function words.old) }
{
    if matches!(function, Function::Div | Function::Mult) {
        return words.push(Word::of(alloc, &[ONE])?);
    }
    Ok(())
}

const ONE: u8 = 0xF1;

/// The value of words that are no function: nothing, one word, or a sum.
#[tactic(auto, unfolding(crate::specs::Assignments::plain_value))]
fn plain_value(alloc: Global, operands: &Operands) -> Result<Word, Fault>
    ensures { Answers (spec.plain_value operands.now) result }
{
    let [first, others @ ..] = operands.words.as_slice() else {
        whole(operands.is_cut)?;
        return Ok(Word::take(Vec::new(alloc)));
    };
    if others.is_empty() && !operands.is_cut {
        return text_value(alloc, first.bytes());
    }
    sum_value(alloc, first.bytes(), others, operands.is_cut)
}

/// The sum of words of which this is the first.
fn sum_value(alloc: Global, first: &[u8], others: &[Word], is_cut: bool) -> Result<Word, Fault>
    ensures { Answers (spec.sum_value first.now others.now is_cut) result }
{
    let sum = added(begun(first)?, others)?;
    whole(is_cut)?;
    number_value(alloc, sum.whole()?)
}

/// A sum that begins with this word: a sign has 0 before it.
fn begun(word: &[u8]) -> Result<Sum, Fault>
    ensures { result ≡ spec.begun word.now }
{
    if let Some(sign) = sign_of(word) {
        return Ok(Sum {
            total: 0,
            sign: Some(sign),
        });
    }
    match number(word) {
        Some(total) => Ok(Sum { total, sign: None }),
        None => Err(Fault::BadStatement),
    }
}

fn sign_of(word: &[u8]) -> Option<Sign>
    ensures { result ≡ spec.sign_of word.now }
{
    match word {
        [PLUS] => Some(Sign::Plus),
        [MINUS] => Some(Sign::Minus),
        _ => None,
    }
}

/// The sum with these words behind it.
#[tactic(auto, unfolding(crate::specs::Assignments::added))]
fn added(sum: Sum, words: &[Word]) -> Result<Sum, Fault>
    ensures { result ≡ spec.added sum words.now }
{
    let mut total = sum;
    for word in words {
        total = total.plus(word.bytes())?;
    }
    Ok(total)
}

impl Sum {
    /// The sum with a word behind it: the sign or the number that is due.
    fn plus(self, word: &[u8]) -> Result<Sum, Fault>
        ensures { result ≡ spec.plus self word.now }
    {
        match self.sign {
            None => match sign_of(word) {
                Some(sign) => Ok(Sum {
                    total: self.total,
                    sign: Some(sign),
                }),
                None => Err(Fault::BadStatement),
            },
            Some(sign) => match number(word) {
                Some(number) => Ok(Sum {
                    total: sign.apply(self.total, number)?,
                    sign: None,
                }),
                None => Err(Fault::BadStatement),
            },
        }
    }

    /// The sum, which doesn't end with a sign.
    fn whole(self) -> Result<i64, Fault>
        ensures { result ≡ spec.total_of self }
    {
        match self.sign {
            None => Ok(self.total),
            Some(_) => Err(Fault::BadStatement),
        }
    }
}

impl Sign {
    fn apply(self, total: i64, number: i64) -> Result<i64, Fault>
        ensures { result ≡ spec.applied self total number }
    {
        match self {
            Sign::Plus => total.checked_add(number).ok_or(Fault::Overflow),
            Sign::Minus => total.checked_sub(number).ok_or(Fault::Overflow),
        }
    }
}
