// What the words of each command ask for.
ghost use Rattle.std.specs.Prelude.{◌≡◌, ◌≤◌, ◌&&◌, not, nat_lt, length, map, codes, All, IfOk};
ghost use Rattle.std.specs.List.{list_any};
ghost use Rattle.std.specs.Str.{bytes_eq};
ghost use Rattle.mini_forms.specs.Readers.{IsSize};
ghost use Rattle.mini_forms.specs.RecordReads.{size_in, start_of};
ghost use Rattle.mini_words.specs.Commands.{rows_in, values_in};
ghost use Rattle.mini_words.specs.Ranges.{IsWithin};
ghost use Rattle.mini_words.specs.Readings.{IsAnswer, IsReading};
ghost use Rattle.mini_words.specs.Requests.{all_asked_by, asked_by, checks_of, dump_of, erase_of, files_of, get_of, has_input, image_of};
ghost use Rattle.mini_words.specs.Requests.{info_of, list_of, make_of, manner_of, may_say, names_of, put_of, rename_of, sized_image, target_of, told_target, wanted};
ghost use Rattle.mini_words.specs.declared.fault.WordFault.TheVariants.{SaysNothing};
ghost use Rattle.mini_words.specs.declared.request.Request.TheVariants.{Check};

use crate::command::find_command;
use crate::lists::{block_numbers, host_names, name_patterns};
use crate::names::NamePattern;
use crate::request::{Get, Image, Put, Request, Target};
use crate::values::{
    block_count, form, is_set, label_word, layout, mode_number, name_word, needed_size, one_name,
    size, text, texts, value, zone,
};
use crate::{Refused, WordFault};
use clap::ArgMatches;
use cms_journal::BlockSize;
use cms_names::Name;
use cms_text::Series;
use cms_words::word_texts;
use cms_world::{Argv, ImageName};
use mini_forms::Layout;
use std::alloc::{AllocError, Global};

// The image, with this block size.
fn image(
    alloc: Global,
    matches: &ArgMatches<'_>,
    size: Option<BlockSize>,
) -> Result<Image, AllocError>
    ensures { IfOk result (λ image. image ≡ image_of (rows_in matches.now) size) }
{
    Ok(Image {
        name: ImageName::of(alloc, text(matches, "IMAGE"))?,
        size,
    })
}

// The image, with the block size that was said.
#[tactic(auto, unfolding(crate::specs::Requests::sized_image))]
fn sized_image(alloc: Global, matches: &ArgMatches<'_>) -> Result<Image, WordFault>
    ensures { IsAnswer result (sized_image (rows_in matches.now)) }
{
    let size = size(matches)?;
    Ok(image(alloc, matches, size)?)
}

#[tactic(auto, unfolding(crate::specs::Requests::names_of))]
fn names(alloc: Global, matches: &ArgMatches<'_>) -> Result<Series<NamePattern>, WordFault>
    ensures { IsAnswer result (names_of (rows_in matches.now)) }
{
    name_patterns(alloc, texts(matches, "NAME"))
}

#[tactic(auto, unfolding(crate::specs::Requests::list_of))]
fn list(alloc: Global, matches: &ArgMatches<'_>) -> Result<Request, WordFault>
    ensures answer { IsAnswer result (list_of (rows_in matches.now)) }
    ensures within { IfOk result IsWithin }
{
    let image = sized_image(alloc, matches)?;
    let names = names(alloc, matches)?;
    Ok(Request::List {
        image,
        long: is_set(matches, "LONG"),
        names,
    })
}

#[tactic(auto, unfolding(crate::specs::Requests::info_of))]
fn info(alloc: Global, matches: &ArgMatches<'_>) -> Result<Request, WordFault>
    ensures answer { IsAnswer result (info_of (rows_in matches.now)) }
    ensures within { IfOk result IsWithin }
{
    let image = sized_image(alloc, matches)?;
    Ok(Request::Info(image))
}

// Where files go.
#[tactic(auto, unfolding(crate::specs::Requests::target_of))]
fn target(alloc: Global, matches: &ArgMatches<'_>) -> Result<Target, WordFault>
    ensures { IsAnswer result (target_of (rows_in matches.now)) }
{
    match (value(matches, "FILE"), value(matches, "DIR")) {
        (None, None) => Ok(Target::Output),
        (Some(file), None) => Ok(Target::File(ImageName::of(alloc, file)?)),
        (None, Some(folder)) => Ok(Target::Folder(ImageName::of(alloc, folder)?)),
        (Some(_), Some(_)) => Err(WordFault::TwoTargets),
    }
}

// Refuses `-v` where the files themselves go to standard output.
fn check_saying(says: bool, target: &Target) -> Result<(), WordFault>
    ensures { result ≡ wanted (may_say says target.now) SaysNothing }
{
    match target {
        Target::Output if says => Err(WordFault::SaysNothing),
        _ => Ok(()),
    }
}

// Where files go, where that may be.
#[tactic(auto, unfolding(crate::specs::Requests::told_target))]
fn told_target(alloc: Global, matches: &ArgMatches<'_>) -> Result<Target, WordFault>
    ensures { IsAnswer result (told_target (rows_in matches.now)) }
{
    let target = target(alloc, matches)?;
    check_saying(is_set(matches, "SAY"), &target)?;
    Ok(target)
}

#[tactic(auto, unfolding(crate::specs::Requests::get_of))]
fn get(alloc: Global, matches: &ArgMatches<'_>) -> Result<Request, WordFault>
    ensures answer { IsAnswer result (get_of (rows_in matches.now)) }
    ensures within { IfOk result IsWithin }
{
    let image = sized_image(alloc, matches)?;
    let form = form(matches)?;
    let names = names(alloc, matches)?;
    let target = told_target(alloc, matches)?;
    Ok(Request::Get(Get {
        image,
        form,
        replaces: is_set(matches, "REPLACE"),
        says: is_set(matches, "SAY"),
        target,
        names,
    }))
}

// Whether standard input is among the words.
fn has_input(words: &[&str]) -> bool
    ensures { result ≡ list_any (λ word. bytes_eq word.now (codes "-")) words.now }
{
    words.iter().any(|word| *word == "-")
}

// Whether one name is given for more than one host file.
fn has_many(words: &[&str], named: bool) -> bool
    ensures { result ≡ (named && nat_lt 1 (length (map (λ s. s.now) words.now))) }
{
    named && words.len() > 1
}

// Whether standard input has no name.
#[tactic(auto, using(crate::proofs::Each::input_among))]
fn lacks_name(words: &[&str], named: bool) -> bool
    ensures { result ≡ (not named && has_input (map (λ s. s.now) words.now)) }
{
    !named && has_input(words)
}

// The host files of `put`, and whether one name is given for them.
#[tactic(auto, unfolding(crate::specs::Requests::files_of))]
fn files(alloc: Global, words: &[&str], named: bool) -> Result<Series<ImageName>, WordFault>
    ensures { IsAnswer result (files_of named (map (λ s. s.now) words.now)) }
{
    if has_many(words, named) {
        return Err(WordFault::OneFile);
    }
    if lacks_name(words, named) {
        return Err(WordFault::NoName);
    }
    Ok(host_names(alloc, words)?)
}

// How host files become files of an image.
#[derive(Clone, Copy)]
struct Manner {
    layout: Layout,
    number: u8,
    name: Option<Name>,
}

#[tactic(auto, unfolding(crate::specs::Requests::manner_of))]
fn put_manner(matches: &ArgMatches<'_>) -> Result<Manner, WordFault>
    ensures value { result ≡ manner_of (rows_in matches.now) }
    ensures number { IfOk result (λ manner. manner.number ≤ 6) }
    ensures size { IfOk result (λ manner. IsSize (size_in (start_of manner.layout))) }
{
    let layout = layout(matches)?;
    let number = mode_number(matches)?;
    let name = one_name(matches)?;
    Ok(Manner {
        layout,
        number,
        name,
    })
}

#[tactic(auto, unfolding(crate::specs::Requests::put_of))]
fn put(alloc: Global, matches: &ArgMatches<'_>) -> Result<Request, WordFault>
    ensures answer { IsAnswer result (put_of (rows_in matches.now)) }
    ensures within { IfOk result IsWithin }
{
    let image = sized_image(alloc, matches)?;
    let manner = put_manner(matches)?;
    let offset = zone(matches)?;
    let files = files(alloc, texts(matches, "FILE"), manner.name.is_some())?;
    Ok(Request::Put(Put {
        image,
        layout: manner.layout,
        number: manner.number,
        name: manner.name,
        replaces: is_set(matches, "REPLACE"),
        says: is_set(matches, "SAY"),
        offset,
        files,
    }))
}

#[tactic(auto, unfolding(crate::specs::Requests::erase_of))]
fn erase(alloc: Global, matches: &ArgMatches<'_>) -> Result<Request, WordFault>
    ensures answer { IsAnswer result (erase_of (rows_in matches.now)) }
    ensures within { IfOk result IsWithin }
{
    let image = sized_image(alloc, matches)?;
    let offset = zone(matches)?;
    let names = names(alloc, matches)?;
    Ok(Request::Erase {
        image,
        says: is_set(matches, "SAY"),
        offset,
        names,
    })
}

#[tactic(auto, unfolding(crate::specs::Requests::rename_of))]
fn rename(alloc: Global, matches: &ArgMatches<'_>) -> Result<Request, WordFault>
    ensures answer { IsAnswer result (rename_of (rows_in matches.now)) }
    ensures within { IfOk result IsWithin }
{
    let size = size(matches)?;
    let from = name_word(matches, "NAME", 1)?;
    let to = name_word(matches, "NEW", 2)?;
    let offset = zone(matches)?;
    Ok(Request::Rename {
        image: image(alloc, matches, size)?,
        says: is_set(matches, "SAY"),
        offset,
        from,
        to,
    })
}

#[tactic(auto, unfolding(crate::specs::Requests::make_of))]
fn make(alloc: Global, matches: &ArgMatches<'_>) -> Result<Request, WordFault>
    ensures answer { IsAnswer result (make_of (rows_in matches.now)) }
    ensures within { IfOk result IsWithin }
{
    let size = needed_size(matches)?;
    let blocks = block_count(matches)?;
    let label = label_word(matches)?;
    let offset = zone(matches)?;
    Ok(Request::Make {
        image: ImageName::of(alloc, text(matches, "IMAGE"))?,
        size,
        blocks,
        label,
        offset,
    })
}

// An image that is to be checked.
fn check(alloc: Global, image: &str, size: Option<BlockSize>) -> Result<Request, AllocError>
    ensures { IfOk result (λ request. request ≡ Check (record { name = image.now; size = size })) }
{
    let name = ImageName::of(alloc, image)?;
    Ok(Request::Check(Image { name, size }))
}

// Each image by itself.
#[tactic(auto, unfolding(crate::specs::Requests::checks_of))]
fn checks(alloc: Global, matches: &ArgMatches<'_>) -> Result<Series<Request>, WordFault>
    ensures answer { IsAnswer result (checks_of (rows_in matches.now)) }
    ensures within { IfOk result (λ requests. All IsWithin requests) }
{
    let size = size(matches)?;
    let mut checks = Series::new(alloc);
    let images = texts(matches, "IMAGE");
    for image in images {
        checks.push(check(alloc, image, size)?)?;
    }
    Ok(checks)
}

#[tactic(auto, unfolding(crate::specs::Requests::dump_of))]
fn dump(alloc: Global, matches: &ArgMatches<'_>) -> Result<Request, WordFault>
    ensures answer { IsAnswer result (dump_of (rows_in matches.now)) }
    ensures within { IfOk result IsWithin }
{
    let image = sized_image(alloc, matches)?;
    let blocks = block_numbers(alloc, texts(matches, "BLOCK"))?;
    Ok(Request::Dump { image, blocks })
}

// What a command of this name asks for, if it isn't `check`.
#[tactic(auto, unfolding(crate::specs::Requests::asked_by))]
fn asked_by(alloc: Global, command: &str, matches: &ArgMatches<'_>) -> Result<Request, WordFault>
    ensures answer { IsAnswer result (asked_by command.now (rows_in matches.now)) }
    ensures within { IfOk result IsWithin }
{
    match command {
        "list" => list(alloc, matches),
        "info" => info(alloc, matches),
        "get" => get(alloc, matches),
        "put" => put(alloc, matches),
        "erase" => erase(alloc, matches),
        "rename" => rename(alloc, matches),
        "make" => make(alloc, matches),
        "dump" => dump(alloc, matches),
        _ => Err(WordFault::NoCommand),
    }
}

// What a command of this name asks for.
#[tactic(auto, unfolding(crate::specs::Requests::all_asked_by))]
fn all_asked_by(
    alloc: Global,
    command: &str,
    matches: &ArgMatches<'_>,
) -> Result<Series<Request>, WordFault>
    ensures answer { IsAnswer result (all_asked_by command.now (rows_in matches.now)) }
    ensures within { IfOk result (λ requests. All IsWithin requests) }
{
    if command == "check" {
        return checks(alloc, matches);
    }
    let request = asked_by(alloc, command, matches)?;
    let mut requests = Series::new(alloc);
    requests.push(request)?;
    Ok(requests)
}

// What these words ask for.
fn read_texts<'a>(alloc: Global, words: &'a [&'a str]) -> Result<Series<Request>, Refused>
    ensures reading { IsReading result (map (λ s. s.now) words.entry.now) }
    ensures within { IfOk result (λ requests. All IsWithin requests) }
{
    let matches = match find_command(alloc, words) {
        Ok(matches) => matches,
        Err(error) => return Err(Refused::Clap(error)),
    };
    let Some((command, below)) = matches.subcommand() else {
        return Err(Refused::Word(WordFault::NoCommand));
    };
    match all_asked_by(alloc, command, below) {
        Ok(requests) => Ok(requests),
        Err(fault) => Err(Refused::Word(fault)),
    }
}

/// What the program's words ask for, its own name first: one request, and of `check` one for each image. Else the words aren't of a command's form or ask for help, as
/// [`Refused::Clap`] says, or one of them is refused: the first, in the order of the command's definition.
pub fn read_requests(alloc: Global, words: &Argv) -> Result<Series<Request>, Refused>
    ensures reading { IsReading result words.now }
    ensures within { IfOk result (λ requests. All IsWithin requests) }
{
    match word_texts(alloc, words) {
        Ok(texts) => read_texts(alloc, &texts),
        Err(_) => Err(Refused::Word(WordFault::Memory)),
    }
}
