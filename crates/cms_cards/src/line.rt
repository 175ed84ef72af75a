// What the lines of PUNCH, READCARD and DISK say.
ghost use Rattle.std.specs.Prelude.{◌≡◌};
ghost use Rattle.cms_operands.specs.Choices.{AnswersLine};
ghost use Rattle.cms_cards.specs.Lines as spec;

use cms_files::{FileInput, file_input, full_name};
use cms_line::{Token, Tokens};
use cms_names::Name;
use cms_operands::{
    ChosenOption, CommandFault, OptionForm, Refusal, WriteMode, chosen_options, ended, needed,
    operands, without_options, writing_mode_or_a,
};
use cms_text::is_keyword;
use std::alloc::Global;

/// An option of PUNCH.
#[derive(Clone, Copy)]
pub enum PunchOption {
    Header,
    NoHeader,
}

/// What PUNCH's line says.
#[derive(Clone, Copy)]
pub struct PunchLine {
    pub input: FileInput,
    /// a first card tells of the file
    pub header: bool,
}

/// The file that READCARD writes.
#[derive(Clone, Copy)]
pub struct ReadTarget {
    pub name: Name,
    pub mode: WriteMode,
}

/// What DISK does.
#[derive(Clone, Copy)]
pub enum DiskVerb {
    Dump,
    Load,
}

/// What DISK's line says.
#[derive(Clone, Copy)]
pub enum DiskLine {
    /// DUMP, with the file that is dumped
    Dump(FileInput),
    /// LOAD, with the disk that is loaded onto
    Load(WriteMode),
}

// ---- PUNCH

#[tactic(auto, unfolding(crate::specs::Lines::punch_operands))]
fn punch_operands(operands: &[Token]) -> Result<FileInput, Refusal>
    ensures { result ≡ spec.punch_operands operands.now }
{
    let input = file_input(operands, 1)?;
    ended(operands, 4)?;
    Ok(input)
}

fn options() -> [OptionForm<PunchOption>; 2]
    ensures { result ≡ spec.options }
{
    [
        OptionForm::flag(PunchOption::Header, b"HEADER  ", 1),
        OptionForm::flag(PunchOption::NoHeader, b"NOHEADER", 3),
    ]
}

// Whether there is a header, by one option more.
fn header_with(header: bool, chosen: &ChosenOption<PunchOption>) -> bool
    ensures { result ≡ spec.header_with header chosen.now }
{
    match chosen.option {
        PunchOption::Header => true,
        PunchOption::NoHeader => false,
    }
}

// A header, unless the last option is NOHEADER.
fn header_of(chosen: &[ChosenOption<PunchOption>]) -> bool
    ensures { result ≡ spec.header_of chosen.now }
{
    chosen.iter().fold(true, header_with)
}

/// What PUNCH's line says, or why it is refused.
pub fn punch_line(alloc: Global, words: &Tokens) -> Result<PunchLine, CommandFault>
    ensures { AnswersLine (spec.punch_line words.now) result }
{
    let input = punch_operands(operands(words.as_slice()))?;
    let chosen = chosen_options(alloc, &options(), words)?;
    Ok(PunchLine {
        input,
        header: header_of(chosen.as_slice()),
    })
}

// ---- READCARD

#[tactic(auto, unfolding(crate::specs::Lines::read_operands))]
fn read_operands(operands: &[Token]) -> Result<ReadTarget, Refusal>
    ensures { result ≡ spec.read_operands operands.now }
{
    let name = full_name(operands, 1)?;
    let mode = writing_mode_or_a(operands, 3)?;
    ended(operands, 4)?;
    Ok(ReadTarget { name, mode })
}

/// What READCARD's line says, or why it is refused.
pub fn read_line(alloc: Global, words: &Tokens) -> Result<ReadTarget, CommandFault>
    ensures { AnswersLine (spec.read_line words.now) result }
{
    without_options(alloc, words, read_operands(operands(words.as_slice())))
}

// ---- DISK

// DUMP or LOAD.
fn verb_of(place: usize, text: &[u8]) -> Result<DiskVerb, Refusal>
    ensures { result ≡ spec.verb_of place text.now }
{
    if is_keyword(text, "DUMP") {
        return Ok(DiskVerb::Dump);
    }
    if is_keyword(text, "LOAD") {
        return Ok(DiskVerb::Load);
    }
    Err(Refusal::BadOperand(place))
}

#[tactic(auto, unfolding(crate::specs::Lines::dump_operands))]
fn dump_operands(operands: &[Token]) -> Result<DiskLine, Refusal>
    ensures { result ≡ spec.dump_operands operands.now }
{
    let input = file_input(operands, 2)?;
    ended(operands, 5)?;
    Ok(DiskLine::Dump(input))
}

#[tactic(auto, unfolding(crate::specs::Lines::load_operands))]
fn load_operands(operands: &[Token]) -> Result<DiskLine, Refusal>
    ensures { result ≡ spec.load_operands operands.now }
{
    let mode = writing_mode_or_a(operands, 2)?;
    ended(operands, 3)?;
    Ok(DiskLine::Load(mode))
}

fn operands_in(operands: &[Token], verb: DiskVerb) -> Result<DiskLine, Refusal>
    ensures { result ≡ spec.operands_in operands.now verb }
{
    match verb {
        DiskVerb::Dump => dump_operands(operands),
        DiskVerb::Load => load_operands(operands),
    }
}

#[tactic(auto, unfolding(crate::specs::Lines::disk_operands))]
fn disk_operands(operands: &[Token]) -> Result<DiskLine, Refusal>
    ensures { result ≡ spec.disk_operands operands.now }
{
    let verb = verb_of(1, needed(operands, 1)?)?;
    operands_in(operands, verb)
}

/// What DISK's line says, or why it is refused.
pub fn disk_line(alloc: Global, words: &Tokens) -> Result<DiskLine, CommandFault>
    ensures { AnswersLine (spec.disk_line words.now) result }
{
    without_options(alloc, words, disk_operands(operands(words.as_slice())))
}
