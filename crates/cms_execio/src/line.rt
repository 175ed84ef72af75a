// What EXECIO's line says.
ghost use Rattle.std.specs.Prelude.{◌≡◌};
ghost use Rattle.cms_operands.specs.Choices.{AnswersLine};
ghost use Rattle.cms_operands.specs.Operands.{given};
ghost use Rattle.cms_execio.specs.Line as spec;

use crate::options::{ExecioOption, options_before_text, style_of, text_in};
use cms_files::{FileInput, StackEnd, file_input, full_name};
use cms_line::{Line, Token, Tokens};
use cms_names::Name;
use cms_operands::{
    ChosenOption, CommandFault, LARGEST, Refusal, WriteMode, ended, given, needed, number,
    number_or_all, operands, writing_mode_or_a,
};
use cms_text::is_keyword;
use std::alloc::Global;

/// The most records or lines that a number asks for.
const MOST_WANTED: u32 = 10_000;

/// Whether records are read or written.
#[derive(Clone, Copy)]
pub enum Direction {
    /// DISKR
    Read,
    /// DISKW
    Write,
}

/// The records that DISKR reads.
#[derive(Clone, Copy)]
pub struct ReadRange {
    pub input: FileInput,
    /// how many, at most 10,000, or all that are left
    pub count: Option<u32>,
    /// the first of them, from 1, or the one at which reading goes on
    pub first: Option<u32>,
}

/// How records are stacked.
#[derive(Clone, Copy)]
pub struct StackStyle {
    pub end: StackEnd,
    /// without the blanks at the end of each
    pub strips: bool,
    /// reading doesn't go on behind them
    pub forgets: bool,
}

/// What DISKR's line says.
#[derive(Clone, Copy)]
pub struct ReadLine {
    pub range: ReadRange,
    pub style: StackStyle,
}

/// Where DISKW writes, and how many lines, at most 10,000.
#[derive(Clone, Copy)]
pub struct WriteTarget {
    pub name: Name,
    pub mode: WriteMode,
    pub count: u32,
}

/// What EXECIO's operands say.
#[derive(Clone, Copy)]
pub enum Transfer {
    Read(ReadRange),
    Write(WriteTarget),
}

/// What EXECIO's line says.
#[derive(Drop)]
pub enum ExecioLine {
    /// DISKR
    Read(ReadLine),
    /// DISKW, with the line that is written, or without one lines are asked for
    Write(WriteTarget, Option<Line>),
}

// DISKR or DISKW.
fn direction_of(place: usize, text: &[u8]) -> Result<Direction, Refusal>
    ensures { result ≡ spec.direction_of place text.now }
{
    if is_keyword(text, "DISKR") {
        return Ok(Direction::Read);
    }
    if is_keyword(text, "DISKW") {
        return Ok(Direction::Write);
    }
    Err(Refusal::BadOperand(place))
}

// A number that may be left out.
fn number_at(operands: &[Token], place: usize) -> Result<Option<u32>, Refusal>
    ensures { result ≡ spec.number_at place (given operands.now place) }
{
    match given(operands, place) {
        Some(text) => Ok(Some(number(1, LARGEST, place, text)?)),
        None => Ok(None),
    }
}

#[tactic(auto, unfolding(crate::specs::Line::read_operands))]
fn read_operands(operands: &[Token], count: Option<u32>) -> Result<ReadRange, Refusal>
    ensures { result ≡ spec.read_operands operands.now count }
{
    let input = file_input(operands, 3)?;
    let first = number_at(operands, 6)?;
    ended(operands, 7)?;
    Ok(ReadRange {
        input,
        count,
        first,
    })
}

#[tactic(auto, unfolding(crate::specs::Line::write_operands))]
fn write_operands(operands: &[Token], count: Option<u32>) -> Result<WriteTarget, Refusal>
    ensures { result ≡ spec.write_operands operands.now count }
{
    let Some(count) = count else {
        return Err(Refusal::BadOperand(1));
    };
    let name = full_name(operands, 3)?;
    let mode = writing_mode_or_a(operands, 5)?;
    ended(operands, 6)?;
    Ok(WriteTarget { name, mode, count })
}

fn operands_in(operands: &[Token], count: Option<u32>, way: Direction) -> Result<Transfer, Refusal>
    ensures { result ≡ spec.operands_in operands.now count way }
{
    match way {
        Direction::Read => Ok(Transfer::Read(read_operands(operands, count)?)),
        Direction::Write => Ok(Transfer::Write(write_operands(operands, count)?)),
    }
}

#[tactic(auto, unfolding(crate::specs::Line::execio_operands))]
fn execio_operands(operands: &[Token]) -> Result<Transfer, Refusal>
    ensures { result ≡ spec.execio_operands operands.now }
{
    let count = number_or_all(0, MOST_WANTED, 1, needed(operands, 1)?)?;
    let way = direction_of(2, needed(operands, 2)?)?;
    operands_in(operands, count, way)
}

// What operands and options say together.
fn line_of(
    transfer: Transfer,
    chosen: &[ChosenOption<ExecioOption>],
    text: Option<Line>,
) -> ExecioLine
    ensures { result ≡ spec.line_of transfer chosen.now text }
{
    match transfer {
        Transfer::Read(range) => ExecioLine::Read(ReadLine {
            range,
            style: style_of(chosen),
        }),
        Transfer::Write(target) => ExecioLine::Write(target, text),
    }
}

/// What EXECIO's line says, which has these words, or why it is refused.
pub fn execio_line(alloc: Global, line: &Line, words: &Tokens) -> Result<ExecioLine, CommandFault>
    ensures { AnswersLine (spec.execio_line line.now words.now) result }
{
    let transfer = execio_operands(operands(words.as_slice()))?;
    let chosen = options_before_text(alloc, words)?;
    let text = text_in(alloc, line, words.as_slice())?;
    Ok(line_of(transfer, chosen.as_slice(), text))
}
