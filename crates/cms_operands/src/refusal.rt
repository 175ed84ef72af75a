// Why a line is refused before any disk is looked at.
ghost use Rattle.std.specs.Prelude.{◌≡◌, IfOk, pos};
ghost use Rattle.cms_operands.specs.Refusals.{code_of, message_of, text_at};

use cms_line::{Message, Token, Word};
use std::alloc::{AllocError, Global};

/// Why a line is refused, by the place of its word; the command's own word has place 0.
#[derive(Clone, Copy)]
pub enum Refusal {
    /// the word is no name, or no pattern
    BadName(usize),
    /// the word is no mode that the command takes
    BadMode(usize),
    /// the word is none that the command takes here, or is one too many
    BadOperand(usize),
    /// an operand, or an option's parameter, isn't there
    Missing,
    /// the command has no such option
    UnknownOption(usize),
    /// the word is no parameter of the option in front of it
    BadParameter(usize),
}

// The text of the word at a place, empty past the last.
fn text_at(alloc: Global, words: &[Token], place: usize) -> Result<Word, AllocError>
    ensures { IfOk result (λ text. text ≡ text_at words.now place) }
{
    match words.get(place) {
        Some(word) => Word::of(alloc, word.text.bytes()),
        None => Word::of(alloc, &[]),
    }
}

// What is typed of a word that is no parameter of the option in front of it.
#[tactic(auto, unfolding(crate::specs::Refusals::message_of))]
fn bad_parameter(alloc: Global, words: &[Token], place: usize) -> Result<Message, AllocError>
    ensures { IfOk result
        (λ message. message ≡ message_of words.now (Refusal.BadParameter place)) }
{
    let option = text_at(alloc, words, place.saturating_sub(1))?;
    let word = text_at(alloc, words, place)?;
    Ok(Message::M029(word, option))
}

impl Refusal {
    /// The return code.
    pub fn code(self) -> i32
        ensures { result ≡ pos (code_of self) }
    {
        match self {
            Refusal::BadName(_) => 20,
            Refusal::BadMode(_)
            | Refusal::BadOperand(_)
            | Refusal::Missing
            | Refusal::UnknownOption(_)
            | Refusal::BadParameter(_) => 24,
        }
    }

    /// What is typed.
    #[tactic(auto, unfolding(crate::specs::Refusals::message_of))]
    pub fn message(self, alloc: Global, words: &[Token]) -> Result<Message, AllocError>
        ensures { IfOk result (λ message. message ≡ message_of words.now self) }
    {
        match self {
            Refusal::BadName(place) => Ok(Message::M062(text_at(alloc, words, place)?)),
            Refusal::BadMode(place) => Ok(Message::M048(text_at(alloc, words, place)?)),
            Refusal::BadOperand(place) => Ok(Message::M070(text_at(alloc, words, place)?)),
            Refusal::Missing => Ok(Message::M054),
            Refusal::UnknownOption(place) => Ok(Message::M003(text_at(alloc, words, place)?)),
            Refusal::BadParameter(place) => bad_parameter(alloc, words, place),
        }
    }
}
