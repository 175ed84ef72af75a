// The options of a command.
ghost use Rattle.std.specs.Prelude.{◌≡◌, ◌+◌, ◌<◌, ◌^◌, [], length, drop, IfOk, IfSome, OnOk, position};
ghost use Rattle.cms_line.specs.Options.{options_of, options_from, missing, first_left, is_right, is_left, is_named, AnswersOptions};

use crate::words::{LEFT, RIGHT};
use crate::{Token, Tokens};
use cms_text::Series;
use std::alloc::{AllocError, Global};

/// An option of a command: its name, filled with blanks, the length of its shortest spelling, and how many words it takes as
/// parameters.
#[derive(Clone, Copy)]
pub struct OptionRule {
    pub name: [u8; 8],
    pub least: u8,
    pub takes: u8,
}

/// An option that was chosen: the place of its rule, and the place of the word right behind its own, where its parameters begin.
#[derive(Clone, Copy, Debug)]
pub struct Choice {
    pub nth: u32,
    pub next: u32,
}

/// Why options are refused, with the place of the first word that is.
#[derive(Clone, Copy, Debug)]
pub enum OptionFault {
    /// no option has this name
    Unknown(u32),
    /// the parameter that belongs here isn't there
    Missing(u32),
    /// a word stands behind the right parenthesis
    After(u32),
    /// no memory was left
    Memory,
}

/// The options that were chosen, in the order of the words.
pub type Chosen = Series<Choice>;

/// The options left of the first word that is refused, each with all its parameters, and why that word is.
///
/// A command that also looks at parameters looks at those of `chosen` first, and answers the refusals in the order of the words.
#[derive(Drop)]
pub struct Accepted {
    pub chosen: Chosen,
    pub refused: Option<OptionFault>,
}

/// Whether a word is a beginning of the rule's name, and long enough.
pub fn is_named(word: &[u8], rule: &OptionRule) -> bool
    ensures { result ≡ is_named word.now rule.now }
{
    usize::from(rule.least) <= word.len() && rule.name.starts_with(word)
}

// The first rule of that name.
fn rule_of(rules: &[OptionRule], word: &[u8]) -> Option<usize>
    ensures { result ≡ position (is_named word.now) rules.now }
{
    rules.iter().position(|rule| is_named(word, rule))
}

fn is_left(token: &Token) -> bool
    ensures { result ≡ is_left token.now.text }
{
    token.text.bytes() == [LEFT].as_slice()
}

fn is_right(token: &Token) -> bool
    ensures { result ≡ is_right token.now.text }
{
    token.text.bytes() == [RIGHT].as_slice()
}

/// The place of the first left parenthesis, which begins the options.
pub fn first_left(words: &[Token]) -> Option<usize>
    ensures place { result ≡ first_left words.now }
    ensures within { IfSome result (λ left. left < length words.now) }
{
    words.iter().position(is_left)
}

// The first right parenthesis.
fn first_right(words: &[Token]) -> Option<usize>
    ensures { result ≡ position (λ word. is_right word.text) words.now }
{
    words.iter().position(is_right)
}

// Each place among so many has a smaller number; no memory holds so many that it has none.
fn are_few(rules: &[OptionRule], words: &[Token]) -> Result<(), AllocError>
    ensures rules { OnOk result (length rules.now < 2 ^ 32) }
    ensures words { OnOk result (length words.now < 2 ^ 32) }
{
    if rules.len() <= u32::MAX as usize && words.len() <= u32::MAX as usize {
        Ok(())
    } else {
        Err(AllocError)
    }
}

// A place as a smaller number; no memory holds so many words that it has none.
fn number_of(place: usize) -> Result<u32, AllocError>
    ensures { IfOk result (λ number. number ≡ place) }
{
    match u32::try_from(place) {
        Ok(number) => Ok(number),
        Err(_) => Err(AllocError),
    }
}

// The first of an option's parameters that isn't there.
fn missing(words: &[Token], count: u8) -> Option<usize>
    ensures { result ≡ missing count words.now }
{
    let there = first_right(words).unwrap_or(words.len());
    (there < usize::from(count)).then_some(there)
}

// The options in words that stand from a place on, behind the first left parenthesis.
fn read_options(
    rules: &[OptionRule],
    words: &[Token],
    left: usize,
    chosen: &mut Chosen,
) -> Result<Option<OptionFault>, AllocError>
    requires start { left < length words.now }
    requires none { chosen.old ≡ [] }
    ensures { IfOk result (λ refused.
        options_from rules.now 0 (left + 1) (drop (left + 1) words.now)
        ≡ record { chosen = chosen.new; refused = refused }) }
{
    are_few(rules, words)?;
    let mut place = left + 1;
    while let Some(word) = words.get(place) {
        let next = place + 1;
        if is_right(word) {
            return if next < words.len() {
                Ok(Some(OptionFault::After(next as u32)))
            } else {
                Ok(None)
            };
        }
        let Some(nth) = rule_of(rules, word.text.bytes()) else {
            return Ok(Some(OptionFault::Unknown(place as u32)));
        };
        let takes = rules[nth].takes;
        if let Some(gone) = missing(&words[next..], takes) {
            return Ok(Some(OptionFault::Missing(number_of(next + gone)?)));
        }
        chosen.push(Choice {
            nth: nth as u32,
            next: next as u32,
        })?;
        place = next + usize::from(takes);
    }
    Ok(None)
}

/// The options among a line's words, and the first word that is refused: options are the words behind the first left parenthesis,
/// each with the parameters that it takes; a right parenthesis ends them and may be left out.
///
/// A word names the first rule of which it is a beginning that is long enough.
#[tactic(auto, unfolding(crate::specs::Options::options_of))]
pub fn accepted_options(
    alloc: Global,
    rules: &[OptionRule],
    words: &Tokens,
) -> Result<Accepted, AllocError>
    ensures { IfOk result (λ accepted. options_of rules.now words.now
        ≡ record { chosen = accepted.chosen; refused = accepted.refused }) }
{
    let words = words.as_slice();
    let mut chosen = Chosen::new(alloc);
    let Some(left) = first_left(words) else {
        return Ok(Accepted {
            chosen,
            refused: None,
        });
    };
    let refused = read_options(rules, words, left, &mut chosen)?;
    Ok(Accepted { chosen, refused })
}

/// The options among a line's words, or the fault of the first word that is refused.
pub fn options(alloc: Global, rules: &[OptionRule], words: &Tokens) -> Result<Chosen, OptionFault>
    ensures { AnswersOptions (options_of rules.now words.now) result }
{
    let Ok(accepted) = accepted_options(alloc, rules, words) else {
        return Err(OptionFault::Memory);
    };
    match accepted.refused {
        None => Ok(accepted.chosen),
        Some(fault) => Err(fault),
    }
}
