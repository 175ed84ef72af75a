// The command as clap reads it.
ghost use Rattle.std.specs.Prelude.{◌≡◌, ◌⊎◌, IfOk, IfErr, map, true, false};
ghost use Rattle.clap.specs.Words.{app_of, found_of, rows_of, kind_of, with_rule};
ghost use Rattle.cms_words.specs.Command.{cms, are_taken, option_rule, rows_in};

use clap::error::ErrorKind;
use clap::{Arg, ArgMatches, Command, Error};
use std::alloc::{AllocError, Global};

// Adds an option of a letter, with a value.
fn with_option<'a>(
    alloc: Global,
    command: Command<'a>,
    id: &'a str,
    letter: char,
) -> Result<Command<'a>, AllocError>
    ensures { IfOk result (λ c. app_of c
        ≡ with_rule (app_of command.entry) (option_rule id.entry.now letter)) }
{
    command.arg(Arg::new(alloc, id).short(letter))
}

// `cms [-t TURNS] [-z ZONE] [-g NUMBER] UNIT...`
fn cms_command<'a>(alloc: Global) -> Result<Command<'a>, AllocError>
    ensures { IfOk result (λ c. app_of c ≡ cms) }
{
    let turns = with_option(alloc, Command::new(alloc, "cms"), "turns", 't')?;
    let zone = with_option(alloc, turns, "zone", 'z')?;
    let seed = with_option(alloc, zone, "seed", 'g')?;
    seed.arg(Arg::new(alloc, "unit").required(true).num_args(1..))
}

/// What clap finds in the words: it takes them, or its own definition doesn't take them, or there is no memory.
pub fn find_words<'a>(alloc: Global, words: &'a [&'a str]) -> Result<ArgMatches<'a>, Error>
    ensures taken { IfOk result (λ m. are_taken (map (λ s. s.now) words.entry.now) ≡ true) }
    ensures found { IfOk result (λ m. rows_of (found_of m)
        ≡ rows_in (map (λ s. s.now) words.entry.now)) }
    ensures refused { IfErr result (λ e. (kind_of e ≡ ErrorKind.OutOfMemory)
        ⊎ (are_taken (map (λ s. s.now) words.entry.now) ≡ false)) }
{
    let command = cms_command(alloc)?;
    command.try_get_matches_from(words)
}
