// Operands that may be left out.
ghost use Rattle.std.specs.Prelude.{◌≡◌};
ghost use Rattle.cms_operands.specs.Optional as spec;

use crate::mode::ReadMode;
use crate::operand::{
    AccessMode, WriteMode, access_mode, device, given, letter_or_all, number, number_or_all,
    pattern, reading_mode, writing_mode,
};
use crate::refusal::Refusal;
use cms_line::Token;
use cms_names::Pattern;
use cms_text::coded;

/// The letter A.
const A: u8 = 0;

// The pattern of all names.
fn all_names() -> Pattern
    ensures { result ≡ spec.all_names }
{
    Pattern::read(&coded(b"*")).unwrap()
}

/// The mode of an input; A where it isn't given.
pub fn reading_mode_or_a(operands: &[Token], place: usize) -> Result<ReadMode, Refusal>
    ensures { result ≡ spec.reading_mode_or_a operands.now place }
{
    match given(operands, place) {
        Some(text) => reading_mode(place, text),
        None => Ok(ReadMode::Letter(A)),
    }
}

/// The mode of a disk that is written; A where it isn't given.
pub fn writing_mode_or_a(operands: &[Token], place: usize) -> Result<WriteMode, Refusal>
    ensures { result ≡ spec.writing_mode_or_a operands.now place }
{
    match given(operands, place) {
        Some(text) => writing_mode(place, text),
        None => Ok(WriteMode {
            letter: A,
            number: None,
        }),
    }
}

/// The letter as which a disk is accessed; A alone where it isn't given.
pub fn access_mode_or_a(operands: &[Token], place: usize) -> Result<AccessMode, Refusal>
    ensures { result ≡ spec.access_mode_or_a operands.now place }
{
    match given(operands, place) {
        Some(text) => access_mode(place, text),
        None => Ok(AccessMode {
            letter: A,
            ext: None,
        }),
    }
}

/// A letter; none for `*`, and where it isn't given.
pub fn given_letter_or_all(operands: &[Token], place: usize) -> Result<Option<u8>, Refusal>
    ensures { result ≡ spec.given_letter_or_all operands.now place }
{
    match given(operands, place) {
        Some(text) => letter_or_all(place, text),
        None => Ok(None),
    }
}

/// A device, or this one where it isn't given.
pub fn device_or(operands: &[Token], place: usize, default: u16) -> Result<u16, Refusal>
    ensures { result ≡ spec.device_or operands.now place default }
{
    match given(operands, place) {
        Some(text) => device(place, text),
        None => Ok(default),
    }
}

/// A number within a range, or this one where it isn't given.
pub fn number_or(
    from: u32,
    to: u32,
    operands: &[Token],
    place: usize,
    default: u32,
) -> Result<u32, Refusal>
    ensures { result ≡ spec.number_or from to operands.now place default }
{
    match given(operands, place) {
        Some(text) => number(from, to, place, text),
        None => Ok(default),
    }
}

/// A number within a range; none for `*`, and where it isn't given.
pub fn given_number_or_all(
    from: u32,
    to: u32,
    operands: &[Token],
    place: usize,
) -> Result<Option<u32>, Refusal>
    ensures { result ≡ spec.given_number_or_all from to operands.now place }
{
    match given(operands, place) {
        Some(text) => number_or_all(from, to, place, text),
        None => Ok(None),
    }
}

/// A pattern; `*` where it isn't given.
pub fn pattern_or_all(operands: &[Token], place: usize) -> Result<Pattern, Refusal>
    ensures { result ≡ spec.pattern_or_all operands.now place }
{
    match given(operands, place) {
        Some(text) => pattern(place, text),
        None => Ok(all_names()),
    }
}
