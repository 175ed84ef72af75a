// What single words of a command say.
ghost use Rattle.std.specs.Prelude.{◌≡◌, ◌≤◌, codes, map, option_map, IfOk};
ghost use Rattle.cms_fields.specs.Offsets.{IsOffset};
ghost use Rattle.mini_forms.specs.Readers.{IsSize};
ghost use Rattle.mini_forms.specs.RecordReads.{size_in, start_of};
ghost use Rattle.mini_words.specs.Commands.{is_set, rows_in, text_in, value_in, values_in};
ghost use Rattle.mini_words.specs.Words.{blocks_of, digit_of, form_of, form_word, label_word_of, layout_of, length_of, one_name_of, name_word_of, needed_size_of, size_of, zone_of};

use crate::WordFault;
use crate::names::{label, name};
use crate::numbers::{digit, number};
use clap::ArgMatches;
use cms_journal::{BlockSize, MOST_BLOCKS};
use cms_names::Name;
use cms_words::{block_size, offset};
use mini_forms::{Form, Layout};

/// The most bytes of a record.
const LONGEST_RECORD: u32 = 65_535;

/// The fewest blocks of a volume.
const FEWEST_BLOCKS: u32 = 8;

/// The value of an option, or a word that stands alone.
pub fn value<'a>(matches: &ArgMatches<'a>, id: &str) -> Option<&'a str>
    ensures { option_map (λ s. s.now) result ≡ value_in id.now (rows_in matches.now) }
{
    matches.get_str(id)
}

/// A word that must be there.
pub fn text<'a>(matches: &ArgMatches<'a>, id: &str) -> &'a str
    ensures { result.now ≡ text_in id.now (rows_in matches.now) }
{
    value(matches, id).unwrap_or("")
}

/// The words that may be many, in their order.
#[tactic(auto, using(crate::proofs::Found::words_found))]
pub fn texts<'m>(matches: &'m ArgMatches<'_>, id: &str) -> &'m [&'m str]
    ensures { map (λ s. s.now) result.now ≡ values_in id.now (rows_in matches.entry.now) }
{
    matches.get_strs(id).unwrap_or(&[])
}

/// Whether an option without a value was given.
pub fn is_set(matches: &ArgMatches<'_>, id: &str) -> bool
    ensures { result ≡ is_set id.now (rows_in matches.now) }
{
    value(matches, id).is_some_and(|text| text == "true")
}

/// The block size, where one was said.
#[tactic(auto, unfolding(crate::specs::Words::size_of))]
pub fn size(matches: &ArgMatches<'_>) -> Result<Option<BlockSize>, WordFault>
    ensures { result ≡ size_of (rows_in matches.now) }
{
    let Some(word) = value(matches, "SIZE") else {
        return Ok(None);
    };
    match block_size(word) {
        Some(size) => Ok(Some(size)),
        None => Err(WordFault::Size),
    }
}

/// The block size of a new volume.
#[tactic(auto, unfolding(crate::specs::Words::needed_size_of))]
pub fn needed_size(matches: &ArgMatches<'_>) -> Result<BlockSize, WordFault>
    ensures { result ≡ needed_size_of (rows_in matches.now) }
{
    block_size(text(matches, "SIZE")).ok_or(WordFault::Size)
}

fn form_word(word: &str) -> Option<Form>
    ensures { result ≡ form_word word.now }
{
    match word {
        "text" => Some(Form::Text),
        "binary" => Some(Form::Binary),
        "records" => Some(Form::Records),
        _ => None,
    }
}

/// The form of host files.
#[tactic(auto, unfolding(crate::specs::Words::form_of))]
pub fn form(matches: &ArgMatches<'_>) -> Result<Form, WordFault>
    ensures { result ≡ form_of (rows_in matches.now) }
{
    let Some(word) = value(matches, "FORM") else {
        return Ok(Form::Text);
    };
    form_word(word).ok_or(WordFault::Form)
}

#[tactic(auto, unfolding(crate::specs::Words::length_of))]
fn length(matches: &ArgMatches<'_>) -> Result<Option<u32>, WordFault>
    ensures value { result ≡ length_of (rows_in matches.now) }
    ensures within { IfOk result (λ length. IsSize length) }
{
    let Some(word) = value(matches, "N") else {
        return Ok(None);
    };
    match number(word, 1, LONGEST_RECORD) {
        Some(length) => Ok(Some(length)),
        None => Err(WordFault::Length),
    }
}

/// How host files are taken as records.
#[tactic(auto, unfolding(crate::specs::Words::layout_of))]
pub fn layout(matches: &ArgMatches<'_>) -> Result<Layout, WordFault>
    ensures value { result ≡ layout_of (rows_in matches.now) }
    ensures within { IfOk result (λ layout. IsSize (size_in (start_of layout))) }
{
    let form = form(matches)?;
    let length = length(matches)?;
    match (form, length) {
        (Form::Text, length) => Ok(Layout::Text(length)),
        (Form::Binary, Some(length)) => Ok(Layout::Binary(length)),
        (Form::Binary, None) => Err(WordFault::NoLength),
        (Form::Records, length) => Ok(Layout::Records(length)),
    }
}

/// The mode number of new files.
#[tactic(auto, unfolding(crate::specs::Words::digit_of))]
pub fn mode_number(matches: &ArgMatches<'_>) -> Result<u8, WordFault>
    ensures value { result ≡ digit_of (rows_in matches.now) }
    ensures within { IfOk result (λ number. number ≤ 6) }
{
    let Some(word) = value(matches, "DIGIT") else {
        return Ok(1);
    };
    digit(word).ok_or(WordFault::Digit)
}

/// The seconds that are added to the clock.
#[tactic(auto, unfolding(crate::specs::Words::zone_of))]
pub fn zone(matches: &ArgMatches<'_>) -> Result<i32, WordFault>
    ensures value { result ≡ zone_of (rows_in matches.now) }
    ensures within { IfOk result (λ seconds. IsOffset seconds) }
{
    let Some(word) = value(matches, "ZONE") else {
        return Ok(0);
    };
    offset(word.as_bytes()).ok_or(WordFault::Zone)
}

/// The name of the one host file, where one was said.
#[tactic(auto, unfolding(crate::specs::Words::one_name_of))]
pub fn one_name(matches: &ArgMatches<'_>) -> Result<Option<Name>, WordFault>
    ensures { result ≡ one_name_of (rows_in matches.now) }
{
    let Some(word) = value(matches, "NAME") else {
        return Ok(None);
    };
    match name(word) {
        Some(name) => Ok(Some(name)),
        None => Err(WordFault::Name(1)),
    }
}

/// A name that must be there, and its number among the names.
#[tactic(auto, unfolding(crate::specs::Words::name_word_of))]
pub fn name_word(matches: &ArgMatches<'_>, id: &str, number: usize) -> Result<Name, WordFault>
    ensures { result ≡ name_word_of id.now number (rows_in matches.now) }
{
    name(text(matches, id)).ok_or(WordFault::Name(number))
}

/// The blocks of a new volume.
#[tactic(auto, unfolding(crate::specs::Words::blocks_of))]
pub fn block_count(matches: &ArgMatches<'_>) -> Result<u32, WordFault>
    ensures { result ≡ blocks_of (rows_in matches.now) }
{
    number(text(matches, "BLOCKS"), FEWEST_BLOCKS, MOST_BLOCKS).ok_or(WordFault::Blocks)
}

/// The label of a new volume.
#[tactic(auto, unfolding(crate::specs::Words::label_word_of))]
pub fn label_word(matches: &ArgMatches<'_>) -> Result<[u8; 6], WordFault>
    ensures { result ≡ label_word_of (rows_in matches.now) }
{
    label(text(matches, "LABEL")).ok_or(WordFault::Label)
}
