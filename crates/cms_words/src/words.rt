// What the words say, with the refusals in their order.
ghost use Rattle.cms_fields.specs.Offsets.{IsOffset};
ghost use Rattle.std.specs.Prelude.{◌≡◌, IfOk, map, option_map};
ghost use Rattle.std.specs.Prelude.{codes};
ghost use Rattle.clap.specs.Words.{found_of, rows_of};
ghost use Rattle.cms_words.specs.Command.{units_in, value_in};
ghost use Rattle.cms_words.specs.Words.{units_from, turns_of, zone_of, seed_of, without_repeat, values_of, words_of};
ghost use Rattle.cms_words.specs.Readings.{IsAnswer};

use crate::WordFault;
use crate::command::find_words;
use crate::numbers::{number, offset};
use crate::units::{UnitWords, read_units, repeated_in};
use clap::ArgMatches;
use clap::error::ErrorKind;
use cms_world::Argv;
use std::alloc::{AllocError, Global};

/// How many turns a session has where the words don't say.
const TURNS: u32 = 1_000_000;

/// The most.
const MOST_TURNS: u32 = 1_000_000_000;

/// The greatest number of a generated script.
const MOST_SEED: u32 = 2_147_483_647;

/// What the words say.
#[derive(Drop)]
pub struct Words {
    /// the turns that the session has, 1 to 1,000,000,000
    pub turns: u64,
    /// the seconds that are added to the clock, at most 53,940 either way
    pub offset: i32,
    /// the number of the script that is generated, to 2,147,483,647, where one is
    pub seed: Option<u32>,
    /// the units, 1 to 16, in their order, no two with one device
    pub units: UnitWords,
}

/// The words as texts.
pub fn word_texts<'a>(alloc: Global, words: &'a Argv) -> Result<Vec<&'a str>, AllocError>
    ensures { IfOk result (λ v. map (λ s. s.now) v.items ≡ words.entry.now) }
{
    let mut texts = Vec::new(alloc);
    while let Some(word) = words.get(texts.len()) {
        texts.push(word)?;
    }
    Ok(texts)
}

// The units of the words that were taken.
#[tactic(auto, using(crate::proofs::CommandLemmas::units_some, crate::proofs::CommandLemmas::units_none))]
fn units(alloc: Global, matches: &ArgMatches<'_>) -> Result<UnitWords, WordFault>
    ensures { IsAnswer result (units_from 1 (units_in (rows_of (found_of matches.now)))) }
{
    match matches.get_strs("unit") {
        Some(words) => read_units(alloc, words),
        None => Ok(UnitWords::new(alloc)),
    }
}

#[tactic(auto, using(crate::proofs::CommandLemmas::value_found))]
fn turns_word<'a>(matches: &ArgMatches<'a>) -> Option<&'a str>
    ensures { option_map (λ s. s.now) result
        ≡ value_in (codes "turns") (rows_of (found_of matches.now)) }
{
    matches.get_str("turns")
}

#[tactic(auto, using(crate::proofs::CommandLemmas::value_found))]
fn zone_word<'a>(matches: &ArgMatches<'a>) -> Option<&'a str>
    ensures { option_map (λ s. s.now) result
        ≡ value_in (codes "zone") (rows_of (found_of matches.now)) }
{
    matches.get_str("zone")
}

#[tactic(auto, using(crate::proofs::CommandLemmas::value_found))]
fn seed_word<'a>(matches: &ArgMatches<'a>) -> Option<&'a str>
    ensures { option_map (λ s. s.now) result
        ≡ value_in (codes "seed") (rows_of (found_of matches.now)) }
{
    matches.get_str("seed")
}

#[tactic(auto, unfolding(crate::specs::Words::turns_of))]
fn turns(word: Option<&str>) -> Result<u64, WordFault>
    ensures { result ≡ turns_of (option_map (λ s. s.now) word.entry) }
{
    let Some(word) = word else {
        return Ok(TURNS as u64);
    };
    match number(word.as_bytes(), MOST_TURNS) {
        None | Some(0) => Err(WordFault::Turns),
        Some(turns) => Ok(turns as u64),
    }
}

#[tactic(auto, unfolding(crate::specs::Words::zone_of))]
fn zone(word: Option<&str>) -> Result<i32, WordFault>
    ensures value { result ≡ zone_of (option_map (λ s. s.now) word.entry) }
    ensures within { IfOk result (λ seconds. IsOffset seconds) }
{
    let Some(word) = word else {
        return Ok(0);
    };
    match offset(word.as_bytes()) {
        None => Err(WordFault::Zone),
        Some(offset) => Ok(offset),
    }
}

#[tactic(auto, unfolding(crate::specs::Words::seed_of))]
fn seed(word: Option<&str>) -> Result<Option<u32>, WordFault>
    ensures { result ≡ seed_of (option_map (λ s. s.now) word.entry) }
{
    let Some(word) = word else {
        return Ok(None);
    };
    match number(word.as_bytes(), MOST_SEED) {
        None => Err(WordFault::Seed),
        Some(seed) => Ok(Some(seed)),
    }
}

fn without_repeat(units: &UnitWords) -> Result<(), WordFault>
    ensures { result ≡ without_repeat units.now }
{
    match repeated_in(units.as_slice()) {
        Some(vdev) => Err(WordFault::Twice(vdev)),
        None => Ok(()),
    }
}

// What the words that were taken say.
#[tactic(auto, using(crate::proofs::ReadingLemmas::repeat_fails, crate::proofs::ReadingLemmas::all_said))]
fn values(alloc: Global, matches: &ArgMatches<'_>) -> Result<Words, WordFault>
    ensures answer { IsAnswer result (values_of (rows_of (found_of matches.now))) }
    ensures offset { IfOk result (λ words. IsOffset words.offset) }
{
    let units = match units(alloc, matches) {
        Ok(units) => units,
        Err(fault) => return Err(fault),
    };
    let turns = match turns(turns_word(matches)) {
        Ok(turns) => turns,
        Err(fault) => return Err(fault),
    };
    let offset = match zone(zone_word(matches)) {
        Ok(offset) => offset,
        Err(fault) => return Err(fault),
    };
    match without_repeat(&units) {
        Ok(()) => {}
        Err(fault) => return Err(fault),
    }
    let seed = match seed(seed_word(matches)) {
        Ok(seed) => seed,
        Err(fault) => return Err(fault),
    };
    Ok(Words {
        turns,
        offset,
        seed,
        units,
    })
}

// What these words say.
#[tactic(auto, using(crate::proofs::ReadingLemmas::words_taken, crate::proofs::ReadingLemmas::words_refused))]
fn read_texts<'a>(alloc: Global, words: &'a [&'a str]) -> Result<Words, WordFault>
    ensures answer { IsAnswer result (words_of (map (λ s. s.now) words.entry.now)) }
    ensures offset { IfOk result (λ words. IsOffset words.offset) }
{
    match find_words(alloc, words) {
        Ok(matches) => values(alloc, &matches),
        Err(error) => {
            if let ErrorKind::OutOfMemory = error.kind() {
                return Err(WordFault::Memory);
            }
            Err(WordFault::Syntax)
        }
    }
}

/// What the program's words say, its own name first, or the first fault in the order of [`WordFault`].
///
/// Options and unit words stand in any order, a word `--` ends the options, and a value may follow its option at once, as in
/// `-t5` or `-t=5`. An option that is given twice, and a value that begins with `-`, are `Syntax`.
pub fn read_words(alloc: Global, words: &Argv) -> Result<Words, WordFault>
    ensures answer { IsAnswer result (words_of words.now) }
    ensures offset { IfOk result (λ words. IsOffset words.offset) }
{
    match word_texts(alloc, words) {
        Ok(texts) => read_texts(alloc, &texts),
        Err(_) => Err(WordFault::Memory),
    }
}
