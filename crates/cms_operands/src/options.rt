// The options of a line with their parameters.
ghost use Rattle.std.specs.Prelude.{◌≡◌, ◌+◌, ◌<◌, ◌==◌, IfOk, IfSome, ⊤, drop, length, map, position};
ghost use Rattle.cms_operands.specs.Choices as spec;
ghost use Rattle.cms_operands.specs.Refusals.{text_at};
ghost use Rattle.cms_operands.specs.declared.options.CommandFault.TheVariants as fault;

use crate::operand::{hexadecimal, number_in, number_within};
use crate::refusal::Refusal;
use cms_line::{Accepted, Choice, OptionFault, OptionRule, Token, Tokens, accepted_options};
use cms_names::Format;
use cms_text::{Series, coded};
use std::alloc::{AllocError, Global};

const HYPHEN: u8 = 0x60;

const F: u8 = 0xC6;

const V: u8 = 0xE5;

/// What an option takes: nothing, or one word.
#[derive(Clone, Copy)]
pub enum Parameter {
    Nothing,
    /// a number from the first to the second
    Number(u32, u32),
    /// one character, or two hexadecimal digits
    Fill,
    /// F or V
    Format,
    /// the first and the last column with a hyphen between
    Columns,
}

/// How an option of a command is written: which it is, its name in EBCDIC, filled with blanks, the length of its shortest spelling, and
/// what it takes. Each command has a type of its own for its options.
#[derive(Copy)]
pub struct OptionForm<O> {
    pub option: O,
    pub name: [u8; 8],
    pub least: u8,
    pub parameter: Parameter,
}

impl<O: Copy> Clone for OptionForm<O> {
    ghost is_clone = { λ form copy. copy ≡ form };

    ghost is_infallible = { λ _. ⊤ };

    fn clone(&self) -> Result<Self, AllocError> {
        Ok(*self)
    }
}

/// What a parameter says.
#[derive(Clone, Copy)]
pub enum Setting {
    /// there is none
    Nothing,
    Number(u32),
    /// in EBCDIC
    Byte(u8),
    Format(Format),
    /// the first column, at least 1, and the last one, at least the first
    Columns(u32, u32),
}

/// An option that was chosen, and what its parameter says.
#[derive(Copy)]
pub struct ChosenOption<O> {
    pub option: O,
    pub setting: Setting,
}

impl<O: Copy> Clone for ChosenOption<O> {
    ghost is_clone = { λ chosen copy. copy ≡ chosen };

    ghost is_infallible = { λ _. ⊤ };

    fn clone(&self) -> Result<Self, AllocError> {
        Ok(*self)
    }
}

/// The options that were chosen, in the order of the words.
pub type ChosenOptions<O> = Series<ChosenOption<O>>;

/// Why a command's line isn't read.
#[derive(Clone, Copy)]
pub enum CommandFault {
    Refused(Refusal),
    /// there is no memory
    Memory,
}

impl From<AllocError> for CommandFault {
    ghost from_gives = { λ _ e. e ≡ fault.Memory };

    fn from(_: AllocError) -> Self {
        CommandFault::Memory
    }
}

impl From<Refusal> for CommandFault {
    ghost from_gives = { λ why e. e ≡ fault.Refused why };

    fn from(why: Refusal) -> Self {
        CommandFault::Refused(why)
    }
}

impl<O> OptionForm<O> {
    /// An option, by its name in ASCII, filled with blanks.
    pub fn new(option: O, name: &[u8; 8], least: u8, parameter: Parameter) -> Self
        ensures { result ≡ spec.form option name.now least parameter }
    {
        OptionForm {
            option,
            name: coded(name),
            least,
            parameter,
        }
    }

    /// An option without a parameter.
    pub fn flag(option: O, name: &[u8; 8], least: u8) -> Self
        ensures { result ≡ spec.flag option name.now least }
    {
        OptionForm::new(option, name, least, Parameter::Nothing)
    }
}

impl Parameter {
    // How many words it is.
    fn words(self) -> u8
        ensures { result ≡ spec.words_of self }
    {
        match self {
            Parameter::Nothing => 0,
            Parameter::Number(..) | Parameter::Fill | Parameter::Format | Parameter::Columns => 1,
        }
    }

    // What a word says as such a parameter.
    #[tactic(auto, unfolding(crate::specs::Choices::setting_in))]
    fn setting(self, text: &[u8]) -> Option<Setting>
        ensures { result ≡ spec.setting_in self text.now }
    {
        match self {
            Parameter::Nothing => Some(Setting::Nothing),
            Parameter::Number(from, to) => Some(Setting::Number(number_within(from, to, text)?)),
            Parameter::Fill => Some(Setting::Byte(fill_in(text)?)),
            Parameter::Format => Some(Setting::Format(format_in(text)?)),
            Parameter::Columns => columns_in(text),
        }
    }
}

// One character, or two hexadecimal digits.
#[tactic(auto, using(crate::proofs::OperandLemmas::fills), unfolding(crate::specs::Choices::fill_in))]
fn fill_in(text: &[u8]) -> Option<u8>
    ensures { result ≡ spec.fill_in text.now }
{
    match text {
        [character] => Some(*character),
        [high, low] => {
            let high = hexadecimal(*high)?;
            Some(high * 16 + hexadecimal(*low)?)
        }
        _ => None,
    }
}

fn format_of(letter: u8) -> Option<Format>
    ensures { result ≡ spec.format_of letter }
{
    match letter {
        F => Some(Format::F),
        V => Some(Format::V),
        _ => None,
    }
}

#[tactic(auto, using(crate::proofs::OperandLemmas::formats), unfolding(crate::specs::Choices::format_in))]
fn format_in(text: &[u8]) -> Option<Format>
    ensures { result ≡ spec.format_in text.now }
{
    match text {
        [letter] => format_of(*letter),
        _ => None,
    }
}

fn is_in_order(first: u32, last: u32) -> bool
    ensures { result ≡ spec.is_in_order first last }
{
    (1..=last).contains(&first)
}

// The place of the first hyphen.
fn hyphen_in(text: &[u8]) -> Option<usize>
    ensures place { result ≡ position (λ c. c == 0x60) text.now }
    ensures within { IfSome result (λ hyphen. hyphen < length text.now) }
{
    text.iter().position(|byte| *byte == HYPHEN)
}

// What stands behind a place.
#[tactic(auto, using(crate::proofs::OperandLemmas::behind))]
fn behind(text: &[u8], place: usize) -> &[u8]
    requires { place < length text.now }
    ensures { result.now ≡ drop (place + 1) text.now }
{
    &text[place + 1..]
}

// Two numbers with a hyphen between.
#[tactic(auto, unfolding(crate::specs::Choices::columns_in))]
fn columns_in(text: &[u8]) -> Option<Setting>
    ensures { result ≡ spec.columns_in text.now }
{
    let hyphen = hyphen_in(text)?;
    let first = number_in(&text[..hyphen])?;
    let last = number_in(behind(text, hyphen))?;
    is_in_order(first, last).then_some(Setting::Columns(first, last))
}

// The text of a word, empty past the last.
fn text_at(words: &[Token], place: usize) -> &[u8]
    ensures { result.now ≡ text_at words.now place }
{
    match words.get(place) {
        Some(word) => word.text.bytes(),
        None => &[],
    }
}

// An option with its parameter's value.
#[tactic(auto, unfolding(crate::specs::Choices::valued))]
fn valued<O: Copy>(
    forms: &[OptionForm<O>],
    words: &[Token],
    choice: Choice,
) -> Result<ChosenOption<O>, Refusal>
    ensures { result ≡ spec.valued forms.now words.now choice }
{
    let place = choice.next as usize;
    let Some(form) = forms.get(choice.nth as usize) else {
        return Err(Refusal::UnknownOption(place));
    };
    match form.parameter.setting(text_at(words, place)) {
        Some(setting) => Ok(ChosenOption {
            option: form.option,
            setting,
        }),
        None => Err(Refusal::BadParameter(place)),
    }
}

// Why no option follows.
fn refusal_of(refused: Option<OptionFault>) -> Option<Refusal>
    ensures { result ≡ spec.refusal_of refused }
{
    match refused? {
        OptionFault::Unknown(place) => Some(Refusal::UnknownOption(place as usize)),
        OptionFault::Missing(_) => Some(Refusal::Missing),
        OptionFault::After(place) => Some(Refusal::BadOperand(place as usize)),
        OptionFault::Memory => None,
    }
}

fn rule_of<O>(form: &OptionForm<O>) -> OptionRule
    ensures { result ≡ spec.rule_of form.now }
{
    OptionRule {
        name: form.name,
        least: form.least,
        takes: form.parameter.words(),
    }
}

fn rules_of<O>(alloc: Global, forms: &[OptionForm<O>]) -> Result<Vec<OptionRule>, AllocError>
    ensures { IfOk result (λ rules. rules.items ≡ map spec.rule_of forms.now) }
{
    forms.iter().map(rule_of).collect(alloc)
}

// The accepted options with their values, or the first refusal.
fn all_valued<O: Copy>(
    alloc: Global,
    forms: &[OptionForm<O>],
    words: &[Token],
    accepted: &Accepted,
) -> Result<ChosenOptions<O>, CommandFault>
    ensures { spec.AnswersLine
        (spec.all_valued forms.now words.now accepted.now.refused accepted.now.chosen) result }
{
    let mut chosen = ChosenOptions::new(alloc);
    for choice in accepted.chosen.as_slice() {
        chosen.push(valued(forms, words, *choice)?)?;
    }
    match refusal_of(accepted.refused) {
        Some(why) => Err(CommandFault::Refused(why)),
        None => Ok(chosen),
    }
}

/// The options of a line, each with its parameter's value, or why the first word among them is refused that is: from left to right an
/// unknown option, a missing parameter, a bad one, and a word behind the right parenthesis.
pub fn chosen_options<O: Copy>(
    alloc: Global,
    forms: &[OptionForm<O>],
    words: &Tokens,
) -> Result<ChosenOptions<O>, CommandFault>
    ensures { spec.AnswersLine (spec.chosen_of forms.now words.now) result }
{
    let rules = rules_of(alloc, forms)?;
    let accepted = accepted_options(alloc, &rules, words)?;
    all_valued(alloc, forms, words.as_slice(), &accepted)
}

/// What the operands say, on a line that takes no options: each word behind a left parenthesis is an unknown one.
pub fn without_options<A: Copy>(
    alloc: Global,
    words: &Tokens,
    operands: Result<A, Refusal>,
) -> Result<A, CommandFault>
    ensures { spec.AnswersLine (spec.without_options words.now operands) result }
{
    let said = operands?;
    let forms: [OptionForm<()>; 0] = [];
    chosen_options(alloc, &forms, words)?;
    Ok(said)
}
