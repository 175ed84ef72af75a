// Quotients and products.
ghost use Rattle.std.specs.Prelude.{◌≡◌};
ghost use Rattle.exec2_funcs.specs.Calls as spec;
ghost use Rattle.exec2_funcs.specs.Calls.{Answers};

use crate::FuncFault;
use cms_text::{Word, number};
use exec2_parse::written;
use std::alloc::Global;

/// An operation on signed numbers of 64 bits.
#[derive(Clone, Copy)]
pub enum Operation {
    /// toward zero
    Quotient,
    Product,
}

impl Operation {
    fn apply(self, first: i64, second: i64) -> Result<i64, FuncFault>
        ensures { result ≡ spec.step_of self first second }
    {
        match self {
            Operation::Quotient => quotient(first, second),
            Operation::Product => first.checked_mul(second).ok_or(FuncFault::Overflow),
        }
    }
}

fn quotient(first: i64, second: i64) -> Result<i64, FuncFault>
    ensures { result ≡ spec.quotient first second }
{
    if second == 0 {
        return Err(FuncFault::Zero);
    }
    first.checked_div(second).ok_or(FuncFault::Overflow)
}

/// The first word's number, with that of each further word taken into it, from left to right.
#[tactic(auto, unfolding(crate::specs::Calls::arithmetic_call))]
pub fn arithmetic(alloc: Global, operation: Operation, words: &[Word]) -> Result<Word, FuncFault>
    ensures { Answers (spec.arithmetic_call operation words.now) result }
{
    match words {
        [first, others @ ..] if !others.is_empty() => {
            let value = chained(operation, number_in(first)?, others)?;
            Ok(written(alloc, value)?)
        }
        _ => Err(FuncFault::Arity),
    }
}

fn chained(operation: Operation, first: i64, words: &[Word]) -> Result<i64, FuncFault>
    ensures { result ≡ spec.chained (spec.step_of operation) first words.now }
{
    let mut value = first;
    for word in words {
        value = operation.apply(value, number_in(word)?)?;
    }
    Ok(value)
}

/// A word in a number's place.
fn number_in(word: &Word) -> Result<i64, FuncFault>
    ensures { result ≡ spec.number_in word.now }
{
    number(word.bytes()).ok_or(FuncFault::NotNumber)
}
