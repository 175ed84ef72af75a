// EXECIO's options. STRING is the last: what the line has behind it is a text.
ghost use Rattle.std.specs.Prelude.{◌≡◌, ◌≤◌, ◌<◌, IfOk, IfSome, codes, length, position};
ghost use Rattle.std.specs.Option.{option_copied};
ghost use Rattle.cms_text.specs.Texts.{is_keyword};
ghost use Rattle.cms_operands.specs.Choices.{AnswersLine, chosen_of};
ghost use Rattle.cms_execio.specs.Line as spec;

use crate::line::StackStyle;
use cms_files::StackEnd;
use cms_line::{Line, Token, Tokens, Word, first_left};
use cms_operands::{ChosenOption, ChosenOptions, CommandFault, OptionForm, chosen_options};
use cms_text::{is_keyword, without_one_blank};
use std::alloc::{AllocError, Global};

/// An option of EXECIO.
#[derive(Clone, Copy)]
pub enum ExecioOption {
    Fifo,
    Lifo,
    Strip,
    Finis,
    /// STRING, with the text behind it
    Text,
}

// Each in full spelling.
fn options() -> [OptionForm<ExecioOption>; 5]
    ensures { result ≡ spec.options }
{
    [
        OptionForm::flag(ExecioOption::Fifo, b"FIFO    ", 4),
        OptionForm::flag(ExecioOption::Lifo, b"LIFO    ", 4),
        OptionForm::flag(ExecioOption::Strip, b"STRIP   ", 5),
        OptionForm::flag(ExecioOption::Finis, b"FINIS   ", 5),
        OptionForm::flag(ExecioOption::Text, b"STRING  ", 6),
    ]
}

fn is_string(word: &Token) -> bool
    ensures { result ≡ is_keyword (codes "STRING") word.now.text }
{
    is_keyword(word.text.bytes(), "STRING")
}

// The first word STRING.
fn first_string(words: &[Token]) -> Option<usize>
    ensures place { result ≡ position (λ word. is_keyword (codes "STRING") word.text) words.now }
    ensures within { IfSome result (λ place. place < length words.now) }
{
    words.iter().position(is_string)
}

// The place of STRING among the options.
#[tactic(auto, unfolding(crate::specs::Line::string_place))]
fn string_place(words: &[Token]) -> Option<usize>
    ensures place { result ≡ spec.string_place words.now }
    ensures within { IfSome result (λ place. place < length words.now) }
{
    let left = first_left(words)?;
    Some(left + 1 + first_string(&words[left + 1..])?)
}

fn copy_of(alloc: Global, word: &Token) -> Result<Token, AllocError>
    ensures { IfOk result (λ token. token ≡ word.now) }
{
    Ok(Token {
        text: Word::of(alloc, word.text.bytes())?,
        start: word.start,
        end: word.end,
    })
}

fn copies_of(alloc: Global, words: &[Token]) -> Result<Tokens, AllocError>
    ensures { IfOk result (λ tokens. tokens ≡ words.now) }
{
    let mut tokens = Tokens::new(alloc);
    for word in words {
        tokens.push(copy_of(alloc, word)?)?;
    }
    Ok(tokens)
}

/// The options that were chosen, or why a word among them is refused; the words behind STRING are none.
pub fn options_before_text(
    alloc: Global,
    words: &Tokens,
) -> Result<ChosenOptions<ExecioOption>, CommandFault>
    ensures { AnswersLine (chosen_of spec.options (spec.before_text words.now)) result }
{
    match string_place(words.as_slice()) {
        Some(place) => {
            let front = copies_of(alloc, &words.as_slice()[..place + 1])?;
            chosen_options(alloc, &options(), &front)
        }
        None => chosen_options(alloc, &options(), words),
    }
}

// What stands in a line behind a word and one blank.
fn text_behind<'l>(line: &'l [u8], word: &Token) -> &'l [u8]
    ensures text { result.now ≡ spec.text_behind line.now word.now }
    ensures short { length result.now ≤ length line.now }
{
    let end = usize::from(word.end).min(line.len());
    without_one_blank(&line[end..])
}

// The word STRING among the options.
fn string_word(words: &[Token]) -> Option<&Token>
    ensures { option_copied result ≡ spec.string_word words.now }
{
    words.get(string_place(words)?)
}

/// The text behind STRING, as the line has it.
#[tactic(auto, unfolding(crate::specs::Line::text_in))]
pub fn text_in(alloc: Global, line: &Line, words: &[Token]) -> Result<Option<Line>, AllocError>
    ensures { IfOk result (λ text. text ≡ spec.text_in line.now words.now) }
{
    match string_word(words) {
        Some(word) => Ok(Some(Line::of(alloc, text_behind(line.bytes(), word))?)),
        None => Ok(None),
    }
}

// How records are stacked, by one option more.
fn style_with(mut style: StackStyle, chosen: &ChosenOption<ExecioOption>) -> StackStyle
    ensures { result ≡ spec.style_with style chosen.now }
{
    match chosen.option {
        ExecioOption::Fifo => style.end = StackEnd::Back,
        ExecioOption::Lifo => style.end = StackEnd::Front,
        ExecioOption::Strip => style.strips = true,
        ExecioOption::Finis => style.forgets = true,
        ExecioOption::Text => {}
    }
    style
}

/// How the options say that records are stacked.
pub fn style_of(chosen: &[ChosenOption<ExecioOption>]) -> StackStyle
    ensures { result ≡ spec.style_of chosen.now }
{
    let plain = StackStyle {
        end: StackEnd::Back,
        strips: false,
        forgets: false,
    };
    chosen.iter().fold(plain, style_with)
}
