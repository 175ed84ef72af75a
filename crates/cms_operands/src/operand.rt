// The operands of a line. Each kind is read from an operand's place and text.
ghost use Rattle.std.specs.Prelude.{◌≡◌, ◌<◌, IfOk, IfErr, IfSome, Ok, Err};
ghost use Rattle.std.specs.Option.{option_copied};
ghost use Rattle.cms_names.specs.Names.{is_between};
ghost use Rattle.cms_operands.specs.Operands as spec;

use crate::mode::ReadMode;
use crate::refusal::Refusal;
use cms_line::{Token, first_left};
use cms_names::{ModeWord, Part, Pattern};
use cms_text::{STROKE, magnitude};

const ASTERISK: u8 = 0x5C;

const EQUAL_SIGN: u8 = 0x7E;

/// The most digits of a number.
const MOST_DIGITS: usize = 9;

/// The largest number that a word writes.
pub const LARGEST: u32 = 999_999_999;

/// The disk that a command writes to, and the mode number that it gives. Letters are numbers, A is 0.
#[derive(Clone, Copy)]
pub struct WriteMode {
    pub letter: u8,
    /// 0 to 6, where the word has one
    pub number: Option<u8>,
}

/// The letter as which a disk is accessed, and the letter behind the stroke. Letters are numbers, A is 0.
#[derive(Clone, Copy)]
pub struct AccessMode {
    pub letter: u8,
    pub ext: Option<u8>,
}

/// What is released.
#[derive(Clone, Copy)]
pub enum Target {
    /// the disk of a device
    Device(u16),
    /// the disk of a letter, A is 0
    Letter(u8),
}

/// The words in front of the options, the command's own first: the operands have the places 1, 2 and so on.
#[tactic(auto, using(crate::proofs::OperandLemmas::all_words), unfolding(crate::specs::Operands::operands_of))]
pub fn operands(words: &[Token]) -> &[Token]
    ensures { result.now ≡ spec.operands_of words.now }
{
    match first_left(words) {
        Some(left) => &words[..left],
        None => words,
    }
}

/// The text of an operand, where it is there.
#[tactic(auto, unfolding(crate::specs::Operands::given))]
pub fn given(operands: &[Token], place: usize) -> Option<&[u8]>
    ensures { option_copied result ≡ spec.given operands.now place }
{
    Some(operands.get(place)?.text.bytes())
}

/// The text of an operand that must be there.
#[tactic(auto, unfolding(crate::specs::Operands::needed))]
pub fn needed(operands: &[Token], place: usize) -> Result<&[u8], Refusal>
    ensures ok { IfOk result (λ text. spec.needed operands.now place ≡ Ok text.now) }
    ensures err { IfErr result (λ why. spec.needed operands.now place ≡ Err why) }
{
    match given(operands, place) {
        Some(text) => Ok(text),
        None => Err(Refusal::Missing),
    }
}

/// The text of an operand that may be left out, and is `default` then.
#[tactic(auto, unfolding(crate::specs::Operands::given_or))]
pub fn given_or<'w>(operands: &'w [Token], place: usize, default: &'w [u8]) -> &'w [u8]
    ensures { result.now ≡ spec.given_or operands.now place default.now }
{
    match given(operands, place) {
        Some(text) => text,
        None => default,
    }
}

/// Refuses an operand at a place or behind it: it is one too many.
#[tactic(auto, unfolding(crate::specs::Operands::ended))]
pub fn ended(operands: &[Token], place: usize) -> Result<(), Refusal>
    ensures { result ≡ spec.ended operands.now place }
{
    match given(operands, place) {
        Some(_) => Err(Refusal::BadOperand(place)),
        None => Ok(()),
    }
}

/// A file name or a file type.
#[tactic(auto, unfolding(crate::specs::Operands::name))]
pub fn name(place: usize, text: &[u8]) -> Result<Part, Refusal>
    ensures { result ≡ spec.name place text.now }
{
    match Part::read(text) {
        Ok(part) => Ok(part),
        Err(_) => Err(Refusal::BadName(place)),
    }
}

// A file name or a file type, or none where a sign stands for it.
fn name_unless(sign: u8, place: usize, text: &[u8]) -> Result<Option<Part>, Refusal>
    ensures { result ≡ spec.name_unless sign place text.now }
{
    if text == [sign].as_slice() {
        return Ok(None);
    }
    match Part::read(text) {
        Ok(part) => Ok(Some(part)),
        Err(_) => Err(Refusal::BadName(place)),
    }
}

/// A file name or a file type, or none for `*`, which stands for every name.
#[tactic(auto, unfolding(crate::specs::Operands::name_or_all))]
pub fn name_or_all(place: usize, text: &[u8]) -> Result<Option<Part>, Refusal>
    ensures { result ≡ spec.name_or_all place text.now }
{
    name_unless(ASTERISK, place, text)
}

/// A file name or a file type, or none for `=`, which stands for the input's.
#[tactic(auto, unfolding(crate::specs::Operands::name_or_same))]
pub fn name_or_same(place: usize, text: &[u8]) -> Result<Option<Part>, Refusal>
    ensures { result ≡ spec.name_or_same place text.now }
{
    name_unless(EQUAL_SIGN, place, text)
}

/// A pattern of file names or file types.
#[tactic(auto, unfolding(crate::specs::Operands::pattern))]
pub fn pattern(place: usize, text: &[u8]) -> Result<Pattern, Refusal>
    ensures { result ≡ spec.pattern place text.now }
{
    match Pattern::read(text) {
        Ok(pattern) => Ok(pattern),
        Err(_) => Err(Refusal::BadName(place)),
    }
}

/// The mode of an input that is read: `*`, a letter, or a letter and a number.
#[tactic(auto, unfolding(crate::specs::Operands::reading_mode))]
pub fn reading_mode(place: usize, text: &[u8]) -> Result<ReadMode, Refusal>
    ensures { result ≡ spec.reading_mode place text.now }
{
    match ModeWord::read(text) {
        Some(ModeWord::Any) => Ok(ReadMode::Any),
        Some(ModeWord::Letter(letter)) => Ok(ReadMode::Letter(letter)),
        Some(ModeWord::Numbered(letter, number)) => Ok(ReadMode::Numbered(letter, number)),
        Some(ModeWord::Same) | None => Err(Refusal::BadMode(place)),
    }
}

/// The mode of a disk that is written: a letter, or a letter and a number.
#[tactic(auto, unfolding(crate::specs::Operands::writing_mode))]
pub fn writing_mode(place: usize, text: &[u8]) -> Result<WriteMode, Refusal>
    ensures { result ≡ spec.writing_mode place text.now }
{
    match ModeWord::read(text) {
        Some(ModeWord::Letter(letter)) => Ok(WriteMode {
            letter,
            number: None,
        }),
        Some(ModeWord::Numbered(letter, number)) => Ok(WriteMode {
            letter,
            number: Some(number),
        }),
        Some(ModeWord::Any | ModeWord::Same) | None => Err(Refusal::BadMode(place)),
    }
}

/// The mode of an output: as one that is written, or none for `=`, which stands for the input's.
#[tactic(auto, unfolding(crate::specs::Operands::output_mode))]
pub fn output_mode(place: usize, text: &[u8]) -> Result<Option<WriteMode>, Refusal>
    ensures { result ≡ spec.output_mode place text.now }
{
    match ModeWord::read(text) {
        Some(ModeWord::Same) => Ok(None),
        Some(ModeWord::Letter(letter)) => Ok(Some(WriteMode {
            letter,
            number: None,
        })),
        Some(ModeWord::Numbered(letter, number)) => Ok(Some(WriteMode {
            letter,
            number: Some(number),
        })),
        Some(ModeWord::Any) | None => Err(Refusal::BadMode(place)),
    }
}

// The letter that a word is.
fn letter_in(text: &[u8]) -> Option<u8>
    ensures { result ≡ spec.letter_in text.now }
{
    match ModeWord::read(text) {
        Some(ModeWord::Letter(letter)) => Some(letter),
        _ => None,
    }
}

/// A letter alone, A is 0.
#[tactic(auto, unfolding(crate::specs::Operands::letter))]
pub fn letter(place: usize, text: &[u8]) -> Result<u8, Refusal>
    ensures { result ≡ spec.letter place text.now }
{
    match letter_in(text) {
        Some(letter) => Ok(letter),
        None => Err(Refusal::BadMode(place)),
    }
}

/// A letter, A is 0, or none for `*`.
#[tactic(auto, unfolding(crate::specs::Operands::letter_or_all))]
pub fn letter_or_all(place: usize, text: &[u8]) -> Result<Option<u8>, Refusal>
    ensures { result ≡ spec.letter_or_all place text.now }
{
    match ModeWord::read(text) {
        Some(ModeWord::Any) => Ok(None),
        Some(ModeWord::Letter(letter)) => Ok(Some(letter)),
        Some(ModeWord::Same | ModeWord::Numbered(..)) | None => Err(Refusal::BadMode(place)),
    }
}

// A letter, a stroke and a letter.
fn extended(first: u8, stroke: u8, second: u8) -> Option<AccessMode>
    ensures { result ≡ spec.extended first stroke second }
{
    if stroke != STROKE {
        return None;
    }
    Some(AccessMode {
        letter: letter_in(&[first])?,
        ext: Some(letter_in(&[second])?),
    })
}

// A letter, or a letter, a stroke and a letter.
#[tactic(auto, using(crate::proofs::OperandLemmas::access_modes), unfolding(crate::specs::Operands::access_mode_in))]
fn access_mode_in(text: &[u8]) -> Option<AccessMode>
    ensures { result ≡ spec.access_mode_in text.now }
{
    match text {
        [letter] => Some(AccessMode {
            letter: letter_in(&[*letter])?,
            ext: None,
        }),
        [first, stroke, second] => extended(*first, *stroke, *second),
        _ => None,
    }
}

/// A letter, or a letter, a stroke and the letter whose extension the disk is to be.
#[tactic(auto, unfolding(crate::specs::Operands::access_mode))]
pub fn access_mode(place: usize, text: &[u8]) -> Result<AccessMode, Refusal>
    ensures { result ≡ spec.access_mode place text.now }
{
    match access_mode_in(text) {
        Some(mode) => Ok(mode),
        None => Err(Refusal::BadMode(place)),
    }
}

// The value of a hexadecimal digit.
#[tactic(auto, unfolding(crate::specs::Operands::hexadecimal_of))]
pub(crate) fn hexadecimal(digit: u8) -> Option<u8>
    ensures value { result ≡ spec.hexadecimal_of digit }
    ensures small { IfSome result (λ n. n < 16) }
{
    match digit {
        0xF0..=0xF9 => Some(digit - 0xF0),
        0xC1..=0xC6 => Some(10 + (digit - 0xC1)),
        _ => None,
    }
}

// The number that exactly three hexadecimal digits write.
#[tactic(auto, using(crate::proofs::OperandLemmas::devices), unfolding(crate::specs::Operands::device_of))]
fn device_in(text: &[u8]) -> Option<u16>
    ensures { result ≡ spec.device_of text.now }
{
    match text {
        [high, middle, low] => {
            let high = u16::from(hexadecimal(*high)?);
            let middle = u16::from(hexadecimal(*middle)?);
            let low = u16::from(hexadecimal(*low)?);
            Some((high * 16 + middle) * 16 + low)
        }
        _ => None,
    }
}

/// A device: exactly three hexadecimal digits.
#[tactic(auto, unfolding(crate::specs::Operands::device))]
pub fn device(place: usize, text: &[u8]) -> Result<u16, Refusal>
    ensures { result ≡ spec.device place text.now }
{
    match device_in(text) {
        Some(device) => Ok(device),
        None => Err(Refusal::BadOperand(place)),
    }
}

/// A device, where the word has three characters, or a letter, where it has one.
#[tactic(auto, unfolding(crate::specs::Operands::device_or_letter))]
pub fn device_or_letter(place: usize, text: &[u8]) -> Result<Target, Refusal>
    ensures { result ≡ spec.device_or_letter place text.now }
{
    match text.len() {
        3 => match device_in(text) {
            Some(device) => Ok(Target::Device(device)),
            None => Err(Refusal::BadOperand(place)),
        },
        1 => match letter_in(text) {
            Some(letter) => Ok(Target::Letter(letter)),
            None => Err(Refusal::BadMode(place)),
        },
        _ => Err(Refusal::BadOperand(place)),
    }
}

// The number that 1 to 9 decimal digits write.
pub(crate) fn number_in(text: &[u8]) -> Option<u32>
    ensures { result ≡ spec.number_in text.now }
{
    match magnitude(MOST_DIGITS, text) {
        Some(value) => Some(value as u32),
        None => None,
    }
}

fn is_between(from: u32, to: u32, value: u32) -> bool
    ensures { result ≡ is_between from to value }
{
    (from..=to).contains(&value)
}

/// The number that 1 to 9 decimal digits write, where it is one from `from` to `to`.
#[tactic(auto, unfolding(crate::specs::Operands::number_within))]
pub fn number_within(from: u32, to: u32, text: &[u8]) -> Option<u32>
    ensures { result ≡ spec.number_within from to text.now }
{
    let value = number_in(text)?;
    is_between(from, to, value).then_some(value)
}

/// A number of 1 to 9 decimal digits, from `from` to `to`.
#[tactic(auto, unfolding(crate::specs::Operands::number))]
pub fn number(from: u32, to: u32, place: usize, text: &[u8]) -> Result<u32, Refusal>
    ensures { result ≡ spec.number from to place text.now }
{
    match number_within(from, to, text) {
        Some(value) => Ok(value),
        None => Err(Refusal::BadOperand(place)),
    }
}

/// A number of 1 to 9 decimal digits, from `from` to `to`, or none for `*`.
#[tactic(auto, unfolding(crate::specs::Operands::number_or_all))]
pub fn number_or_all(from: u32, to: u32, place: usize, text: &[u8]) -> Result<Option<u32>, Refusal>
    ensures { result ≡ spec.number_or_all from to place text.now }
{
    if text == [ASTERISK].as_slice() {
        return Ok(None);
    }
    match number_within(from, to, text) {
        Some(value) => Ok(Some(value)),
        None => Err(Refusal::BadOperand(place)),
    }
}
