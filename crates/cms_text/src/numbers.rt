// Decimal numbers in EBCDIC, as they are read and written.
ghost use Rattle.std.specs.Prelude.{◌≡◌, ◌≤◌, ◌<◌, ◌+◌, ◌/◌, ◌%◌, ◌^◌, IfOk, IfSome};
ghost use Rattle.cms_text.specs.Numbers as spec;

use crate::text::Word;
use crate::words::{ZERO, ebcdic};
use std::alloc::{AllocError, Global};

const PLUS: u8 = 0x4E;

const MINUS: u8 = 0x60;

const NINE: u8 = 0xF9;

/// The most digits of a number.
const MOST_DIGITS: usize = 19;

/// The number that a word stands for: an optional sign and 1 to 19 digits, within signed 64 bits. None exactly where it is
/// no such number.
pub fn number(word: &[u8]) -> Option<i64>
    ensures { result ≡ spec.number_of word.now }
{
    match word {
        [] => None,
        [MINUS, digits @ ..] => negative(digits),
        [PLUS, digits @ ..] => positive(digits),
        _ => positive(word),
    }
}

fn negative(digits: &[u8]) -> Option<i64>
    ensures { result ≡ spec.negative_of digits.now }
{
    match magnitude(MOST_DIGITS, digits) {
        Some(size) => 0i64.checked_sub_unsigned(size),
        None => None,
    }
}

fn positive(digits: &[u8]) -> Option<i64>
    ensures { result ≡ spec.positive_of digits.now }
{
    match magnitude(MOST_DIGITS, digits) {
        Some(size) => 0i64.checked_add_unsigned(size),
        None => None,
    }
}

/// The number that decimal digits write, from 1 to `most` of them, of which there are at most 19. None exactly where there are no such
/// digits.
pub fn magnitude(most: usize, digits: &[u8]) -> Option<u64>
    requires { most ≤ 19 }
    ensures value { result ≡ spec.magnitude_of most digits.now }
    ensures small { IfSome result (λ value. value < 10 ^ most) }
{
    if !(1..=most).contains(&digits.len()) {
        return None;
    }
    let mut value = 0;
    for digit in digits {
        if !is_digit(*digit) {
            return None;
        }
        value = value * 10 + u64::from(*digit - ZERO);
    }
    Some(value)
}

fn is_digit(byte: u8) -> bool
    ensures { result ≡ spec.is_digit byte }
{
    (ZERO..=NINE).contains(&byte)
}

/// A number without leading zeros, with a minus before it where it is below 0.
pub fn written(alloc: Global, number: i64) -> Result<Word, AllocError>
    ensures { IfOk result (λ word. word ≡ spec.written number) }
{
    let text = number.to_string(alloc)?;
    Ok(Word::take(ebcdic(alloc, text.as_str())?))
}

/// A number from 0 without leading zeros.
#[tactic(auto, unfolding(crate::specs::Numbers::decimal_of))]
pub fn decimal(alloc: Global, number: u32) -> Result<Word, AllocError>
    ensures { IfOk result (λ word. word ≡ spec.decimal_of number) }
{
    written(alloc, i64::from(number))
}

/// The digit of the tens of a number.
pub fn tens(number: u16) -> u8
    ensures { result ≡ 0xF0 + number / 10 % 10 }
{
    ZERO + (number / 10 % 10) as u8
}

/// The last digit of a number.
pub fn ones(number: u16) -> u8
    ensures { result ≡ 0xF0 + number % 10 }
{
    ZERO + (number % 10) as u8
}
