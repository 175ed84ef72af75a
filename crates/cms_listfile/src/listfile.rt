// LISTFILE.
ghost use Rattle.std.specs.Prelude.{◌≡◌};
ghost use Rattle.cms_operands.specs.Choices.{AnswersLine};
ghost use Rattle.cms_listfile.specs.Listfile as spec;
ghost use Rattle.cms_listfile.specs.declared.listfile.Delivery.TheVariants as goes;

use crate::columns::{Columns, Years};
use cms_files::StackEnd;
use cms_line::{Token, Tokens};
use cms_names::Pattern;
use cms_operands::{
    ChosenOption, CommandFault, OptionForm, ReadMode, Refusal, chosen_options, ended, operands,
    pattern_or_all, reading_mode_or_a,
};
use std::alloc::Global;

/// An option of LISTFILE.
#[derive(Clone, Copy)]
pub enum ListOption {
    Header,
    NoHeader,
    Fname,
    Ftype,
    Fmode,
    Format,
    Alloc,
    Date,
    Label,
    Stack,
    Fifo,
    Lifo,
    Exec,
    Append,
    Fulldate,
}

/// Where the lines go.
#[derive(Clone, Copy)]
pub enum Delivery {
    Typed,
    /// onto the program stack
    Stacked(StackEnd),
    /// into CMS EXEC on disk A; or they are added to it, where it is there
    Written(bool),
}

/// The files that are listed.
#[derive(Clone, Copy)]
pub struct ListFiles {
    pub file: Pattern,
    pub kind: Pattern,
    pub mode: ReadMode,
}

/// How they are listed.
#[derive(Clone, Copy)]
pub struct ListStyle {
    pub columns: Columns,
    pub header: bool,
    pub delivery: Delivery,
}

/// What the options say, one after another.
#[derive(Clone, Copy)]
pub struct ListChoices {
    /// the last column
    pub last: Columns,
    /// FULLDATE is among them
    pub whole_years: bool,
    /// HEADER or NOHEADER
    pub header: Option<bool>,
    pub delivery: Delivery,
    /// where lines are stacked, if they are
    pub end: StackEnd,
    /// APPEND is among them
    pub appends: bool,
}

/// What LISTFILE's line says.
#[derive(Clone, Copy)]
pub struct ListLine {
    pub files: ListFiles,
    pub style: ListStyle,
}

#[tactic(auto, unfolding(crate::specs::Listfile::list_operands))]
fn list_operands(operands: &[Token]) -> Result<ListFiles, Refusal>
    ensures { result ≡ spec.list_operands operands.now }
{
    let file = pattern_or_all(operands, 1)?;
    let kind = pattern_or_all(operands, 2)?;
    let mode = reading_mode_or_a(operands, 3)?;
    ended(operands, 4)?;
    Ok(ListFiles { file, kind, mode })
}

fn options() -> [OptionForm<ListOption>; 15]
    ensures { result ≡ spec.options }
{
    [
        OptionForm::flag(ListOption::Header, b"HEADER  ", 1),
        OptionForm::flag(ListOption::NoHeader, b"NOHEADER", 3),
        OptionForm::flag(ListOption::Fname, b"FNAME   ", 2),
        OptionForm::flag(ListOption::Ftype, b"FTYPE   ", 2),
        OptionForm::flag(ListOption::Fmode, b"FMODE   ", 2),
        OptionForm::flag(ListOption::Format, b"FORMAT  ", 2),
        OptionForm::flag(ListOption::Alloc, b"ALLOC   ", 2),
        OptionForm::flag(ListOption::Date, b"DATE    ", 1),
        OptionForm::flag(ListOption::Label, b"LABEL   ", 1),
        OptionForm::flag(ListOption::Stack, b"STACK   ", 2),
        OptionForm::flag(ListOption::Fifo, b"FIFO    ", 2),
        OptionForm::flag(ListOption::Lifo, b"LIFO    ", 2),
        OptionForm::flag(ListOption::Exec, b"EXEC    ", 2),
        OptionForm::flag(ListOption::Append, b"APPEND  ", 2),
        OptionForm::flag(ListOption::Fulldate, b"FULLDATE", 3),
    ]
}

impl ListChoices {
    // What holds without options.
    fn none() -> ListChoices
        ensures { result ≡ spec.no_choices }
    {
        ListChoices {
            last: Columns::Mode,
            whole_years: false,
            header: None,
            delivery: Delivery::Typed,
            end: StackEnd::Back,
            appends: false,
        }
    }

    // The lines are stacked.
    fn stacked(self, end: StackEnd) -> ListChoices
        ensures { result ≡ record self { delivery = goes.Stacked end; end = end } }
    {
        let delivery = Delivery::Stacked(end);
        ListChoices {
            delivery,
            end,
            ..self
        }
    }

    // The lines are written into a file.
    fn written(self, appends: bool) -> ListChoices
        ensures { result ≡ record self { delivery = goes.Written appends; appends = appends } }
    {
        let delivery = Delivery::Written(appends);
        ListChoices {
            delivery,
            appends,
            ..self
        }
    }
}

// What the options say, with one more.
fn choices_with(mut choices: ListChoices, chosen: &ChosenOption<ListOption>) -> ListChoices
    ensures { result ≡ spec.choices_with choices chosen.now }
{
    match chosen.option {
        ListOption::Header => choices.header = Some(true),
        ListOption::NoHeader => choices.header = Some(false),
        ListOption::Fname => choices.last = Columns::Name,
        ListOption::Ftype => choices.last = Columns::Kind,
        ListOption::Fmode => choices.last = Columns::Mode,
        ListOption::Format => choices.last = Columns::Format,
        ListOption::Alloc => choices.last = Columns::Alloc,
        ListOption::Date => choices.last = Columns::Date(Years::Short),
        ListOption::Label => choices.last = Columns::Label(Years::Short),
        ListOption::Stack => choices = choices.stacked(choices.end),
        ListOption::Fifo => choices = choices.stacked(StackEnd::Back),
        ListOption::Lifo => choices = choices.stacked(StackEnd::Front),
        ListOption::Exec => choices = choices.written(choices.appends),
        ListOption::Append => choices = choices.written(true),
        ListOption::Fulldate => choices.whole_years = true,
    }
    choices
}

// How far the columns go.
fn columns_of(choices: &ListChoices) -> Columns
    ensures { result ≡ spec.columns_of choices.now }
{
    if choices.whole_years {
        return choices.last.with_whole_years();
    }
    choices.last
}

// Whether lines have a header, where they go to this column.
fn header_of(columns: Columns, header: Option<bool>) -> bool
    ensures { result ≡ spec.header_of columns header }
{
    match header {
        Some(header) => header,
        None => columns.count() >= Columns::Format.count(),
    }
}

// How the options say that files are listed.
fn style_of(chosen: &[ChosenOption<ListOption>]) -> ListStyle
    ensures { result ≡ spec.style_of chosen.now }
{
    let choices = chosen.iter().fold(ListChoices::none(), choices_with);
    let columns = columns_of(&choices);
    ListStyle {
        columns,
        header: header_of(columns, choices.header),
        delivery: choices.delivery,
    }
}

/// What LISTFILE's line says, or why it is refused.
pub fn list_line(alloc: Global, words: &Tokens) -> Result<ListLine, CommandFault>
    ensures { AnswersLine (spec.list_line words.now) result }
{
    let files = list_operands(operands(words.as_slice()))?;
    let chosen = chosen_options(alloc, &options(), words)?;
    Ok(ListLine {
        files,
        style: style_of(chosen.as_slice()),
    })
}
