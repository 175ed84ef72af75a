// What COPYFILE's line says.
ghost use Rattle.std.specs.Prelude.{◌≡◌, IfOk};
ghost use Rattle.cms_operands.specs.Choices.{AnswersLine};
ghost use Rattle.cms_copyfile.specs.Lines as spec;

use crate::record::Fold;
use cms_fields::LONGEST_RECORD;
use cms_files::{NameChoice, name_choice, output_name};
use cms_line::{Token, Tokens};
use cms_names::{Format, OutId};
use cms_operands::{
    ChosenOption, CommandFault, LARGEST, OptionForm, Parameter, ReadMode, Refusal, Setting,
    WriteMode, chosen_options, ended, given, needed, operands, output_mode, reading_mode,
};
use cms_text::BLANK;
use std::alloc::Global;

/// What becomes of a file that has the output's name already.
#[derive(Clone, Copy)]
pub enum Existing {
    /// it stays, and the copy is refused
    Refused,
    Replaced,
    /// records are added to it
    Extended,
}

/// What a file that is copied becomes.
#[derive(Clone, Copy)]
pub struct CopyOutput {
    pub name: OutId,
    /// the disk, and the mode number if the word has one; without a mode the input's
    pub mode: Option<WriteMode>,
    /// unless an option says it
    pub existing: Existing,
}

/// The files that are copied: those that a choice of names and a mode find.
#[derive(Clone, Copy)]
pub struct CopyFiles {
    pub names: NameChoice,
    pub mode: ReadMode,
    pub output: CopyOutput,
}

/// An option of COPYFILE.
#[derive(Clone, Copy)]
pub enum CopyOption {
    NewFile,
    Replace,
    Append,
    /// FROM n
    From,
    /// FOR n
    For,
    Upcase,
    Lowcase,
    Trunc,
    NoTrunc,
    /// FILL c
    Fill,
    /// RECFM f
    Recfm,
    /// LRECL n
    Lrecl,
    OldDate,
    NewDate,
    /// TYPE
    TypeFiles,
    NoType,
}

/// How files are copied.
#[derive(Clone, Copy)]
pub struct CopyStyle {
    pub existing: Existing,
    /// the first record that is copied, from 1
    pub first: u32,
    /// how many records are copied at most, at least 1
    pub most: Option<u32>,
    pub fold: Option<Fold>,
    /// fill bytes at the end of records are dropped
    pub truncates: bool,
    pub fill: u8,
    pub format: Option<Format>,
    /// the length of records, 1 to 65,535
    pub length: Option<u32>,
    /// the copy has the input's stamp
    pub old_stamp: bool,
    /// each file is typed
    pub types: bool,
}

/// What COPYFILE's line says.
#[derive(Clone, Copy)]
pub struct CopyLine {
    pub files: CopyFiles,
    pub style: CopyStyle,
}

#[tactic(auto, unfolding(crate::specs::Lines::given_output))]
fn given_output(operands: &[Token]) -> Result<CopyOutput, Refusal>
    ensures says { result ≡ spec.given_output operands.now }
    ensures number { IfOk result (λ output. spec.IsOutputMode output.mode) }
{
    let name = output_name(operands, 4)?;
    let mode = output_mode(6, needed(operands, 6)?)?;
    Ok(CopyOutput {
        name,
        mode,
        existing: Existing::Refused,
    })
}

// What the files become; without an output each is its own.
fn output_of(operands: &[Token]) -> Result<CopyOutput, Refusal>
    ensures says { result ≡ spec.output_of operands.now }
    ensures number { IfOk result (λ output. spec.IsOutputMode output.mode) }
{
    match given(operands, 4) {
        Some(_) => given_output(operands),
        None => Ok(CopyOutput {
            name: OutId {
                file: None,
                kind: None,
            },
            mode: None,
            existing: Existing::Replaced,
        }),
    }
}

#[tactic(auto, unfolding(crate::specs::Lines::copy_operands))]
fn copy_operands(operands: &[Token]) -> Result<CopyFiles, Refusal>
    ensures says { result ≡ spec.copy_operands operands.now }
    ensures number { IfOk result (λ files. spec.IsOutputMode files.output.mode) }
{
    let names = name_choice(operands, 1)?;
    let mode = reading_mode(3, needed(operands, 3)?)?;
    let output = output_of(operands)?;
    ended(operands, 7)?;
    Ok(CopyFiles {
        names,
        mode,
        output,
    })
}

fn options() -> [OptionForm<CopyOption>; 16]
    ensures { result ≡ spec.options }
{
    let number = Parameter::Number(1, LARGEST);
    let length = Parameter::Number(1, LONGEST_RECORD);
    [
        OptionForm::flag(CopyOption::NewFile, b"NEWFILE ", 4),
        OptionForm::flag(CopyOption::Replace, b"REPLACE ", 3),
        OptionForm::flag(CopyOption::Append, b"APPEND  ", 2),
        OptionForm::new(CopyOption::From, b"FROM    ", 2, number),
        OptionForm::new(CopyOption::For, b"FOR     ", 3, number),
        OptionForm::flag(CopyOption::Upcase, b"UPCASE  ", 2),
        OptionForm::flag(CopyOption::Lowcase, b"LOWCASE ", 2),
        OptionForm::flag(CopyOption::Trunc, b"TRUNC   ", 2),
        OptionForm::flag(CopyOption::NoTrunc, b"NOTRUNC ", 4),
        OptionForm::new(CopyOption::Fill, b"FILL    ", 2, Parameter::Fill),
        OptionForm::new(CopyOption::Recfm, b"RECFM   ", 3, Parameter::Format),
        OptionForm::new(CopyOption::Lrecl, b"LRECL   ", 2, length),
        OptionForm::flag(CopyOption::OldDate, b"OLDDATE ", 4),
        OptionForm::flag(CopyOption::NewDate, b"NEWDATE ", 4),
        OptionForm::flag(CopyOption::TypeFiles, b"TYPE    ", 2),
        OptionForm::flag(CopyOption::NoType, b"NOTYPE  ", 3),
    ]
}

fn number_in(setting: Setting) -> Option<u32>
    ensures { result ≡ spec.number_in setting }
{
    match setting {
        Setting::Number(number) => Some(number),
        _ => None,
    }
}

fn byte_in(setting: Setting) -> Option<u8>
    ensures { result ≡ spec.byte_in setting }
{
    match setting {
        Setting::Byte(byte) => Some(byte),
        _ => None,
    }
}

fn format_in(setting: Setting) -> Option<Format>
    ensures { result ≡ spec.format_in setting }
{
    match setting {
        Setting::Format(format) => Some(format),
        _ => None,
    }
}

// Files are copied as they are.
fn plain(existing: Existing) -> CopyStyle
    ensures { result ≡ spec.plain existing }
{
    CopyStyle {
        existing,
        first: 1,
        most: None,
        fold: None,
        truncates: false,
        fill: BLANK,
        format: None,
        length: None,
        old_stamp: false,
        types: false,
    }
}

// How files are copied, by one option more.
fn style_with(mut style: CopyStyle, chosen: &ChosenOption<CopyOption>) -> CopyStyle
    ensures { result ≡ spec.style_with style chosen.now }
{
    let setting = chosen.setting;
    match chosen.option {
        CopyOption::NewFile => style.existing = Existing::Refused,
        CopyOption::Replace => style.existing = Existing::Replaced,
        CopyOption::Append => style.existing = Existing::Extended,
        CopyOption::From => style.first = number_in(setting).unwrap_or(style.first),
        CopyOption::For => style.most = number_in(setting),
        CopyOption::Upcase => style.fold = Some(Fold::Upper),
        CopyOption::Lowcase => style.fold = Some(Fold::Lower),
        CopyOption::Trunc => style.truncates = true,
        CopyOption::NoTrunc => style.truncates = false,
        CopyOption::Fill => style.fill = byte_in(setting).unwrap_or(style.fill),
        CopyOption::Recfm => style.format = format_in(setting),
        CopyOption::Lrecl => style.length = number_in(setting),
        CopyOption::OldDate => style.old_stamp = true,
        CopyOption::NewDate => style.old_stamp = false,
        CopyOption::TypeFiles => style.types = true,
        CopyOption::NoType => style.types = false,
    }
    style
}

// How the options say that files are copied.
fn style_of(default: Existing, chosen: &[ChosenOption<CopyOption>]) -> CopyStyle
    ensures { result ≡ spec.style_of default chosen.now }
{
    chosen.iter().fold(plain(default), style_with)
}

/// What COPYFILE's line says, or why it is refused.
pub fn copy_line(alloc: Global, words: &Tokens) -> Result<CopyLine, CommandFault>
    ensures says { AnswersLine (spec.copy_line words.now) result }
    ensures fits { IfOk result spec.IsCopyLine }
{
    let files = copy_operands(operands(words.as_slice()))?;
    let chosen = chosen_options(alloc, &options(), words)?;
    Ok(CopyLine {
        files,
        style: style_of(files.output.existing, chosen.as_slice()),
    })
}
