// The variables that are given.
ghost use Rattle.std.specs.Prelude.{◌≡◌, ◌==◌, ◌≤◌, filter, find, length, IfOk};
ghost use Rattle.cms_text.specs.Texts as texts;
ghost use Rattle.exec2_run.specs.Given as spec;

use crate::FileName;
use crate::variables::Variables;
use cms_fields::Moment;
use cms_names::Part;
use cms_text::{BLANK, COLON, Line, STROKE, Word, ZERO, decimal, is_keyword, without_one_blank};
use exec2_parse::{Scope, numeral, written};
use std::alloc::{AllocError, Global};

/// A variable that is given and can't be set (VM/SP EXEC 2 Reference, predefined variables).
#[derive(Clone, Copy)]
pub enum Predefined {
    Procedure,
    Count,
    Index,
    Rc,
    Retcode,
    Line,
    Linenum,
    Depth,
    From,
    Filename,
    Filetype,
    Filemode,
    Date,
    Time,
    Blank,
    Argstring,
    Cmdstring,
}

impl Predefined {
    /// The variable of a name, in capital or small letters; none exactly where it isn't given. It is looked for among the names of its length.
    fn read(name: &[u8]) -> Option<Predefined>
        ensures { result ≡ spec.given_of name.now }
    {
        first_named(Predefined::of_length(name.len()), name)
    }

    /// Those whose names have so many letters.
    #[tactic(auto, using(crate::proofs::GivenNames::of_no_length))]
    fn of_length(count: usize) -> &'static [Predefined]
        ensures { result.now ≡ filter (λ g. length (spec.name_of g) == count) spec.all_given }
    {
        match count {
            1 => &[Predefined::Procedure, Predefined::Count],
            2 => &[Predefined::Rc],
            4 => &[
                Predefined::Line,
                Predefined::From,
                Predefined::Date,
                Predefined::Time,
            ],
            5 => &[Predefined::Index, Predefined::Depth, Predefined::Blank],
            7 => &[Predefined::Retcode, Predefined::Linenum],
            8 => &[
                Predefined::Filename,
                Predefined::Filetype,
                Predefined::Filemode,
            ],
            9 => &[Predefined::Argstring, Predefined::Cmdstring],
            _ => &[],
        }
    }

    fn name(self) -> &'static str
        ensures { result.now ≡ spec.name_of self }
    {
        match self {
            Predefined::Procedure => "0",
            Predefined::Count => "N",
            Predefined::Index => "INDEX",
            Predefined::Rc => "RC",
            Predefined::Retcode => "RETCODE",
            Predefined::Line => "LINE",
            Predefined::Linenum => "LINENUM",
            Predefined::Depth => "DEPTH",
            Predefined::From => "FROM",
            Predefined::Filename => "FILENAME",
            Predefined::Filetype => "FILETYPE",
            Predefined::Filemode => "FILEMODE",
            Predefined::Date => "DATE",
            Predefined::Time => "TIME",
            Predefined::Blank => "BLANK",
            Predefined::Argstring => "ARGSTRING",
            Predefined::Cmdstring => "CMDSTRING",
        }
    }
}

/// The first of these with this name.
fn first_named(all: &[Predefined], name: &[u8]) -> Option<Predefined>
    ensures { result ≡ find (λ g. texts.is_keyword (spec.name_of g) name.now) all.now }
{
    all.iter()
        .copied()
        .find(|given| is_keyword(name, given.name()))
}

/// Whether a variable is given.
pub fn is_given(name: &[u8]) -> bool
    ensures { result ≡ spec.is_given name.now }
{
    Predefined::read(name).is_some()
}

/// What is fixed where a procedure begins.
#[derive(Drop)]
pub struct AtStart {
    /// The procedure's name.
    name: Word,
    kind: Word,
    mode: Word,
    /// The called line behind the name and one blank.
    rest: Word,
    /// The line from the procedure's name on.
    called: Word,
}

impl AtStart {
    /// What is fixed for a procedure that is called by a line and was found in a file.
    pub fn of(alloc: Global, called: &Line, found: &FileName) -> Result<AtStart, AllocError>
        ensures { IfOk result (λ start. start ≡ spec.at_start called.now found.now) }
    {
        Ok(AtStart {
            name: part_word(alloc, &found.name.file)?,
            kind: part_word(alloc, &found.name.kind)?,
            mode: mode(alloc, found)?,
            rest: Word::of(alloc, without_one_blank(behind_name(called.bytes())))?,
            called: Word::of(alloc, called.bytes())?,
        })
    }

    /// The procedure's name.
    pub fn name(&self) -> &Word
        ensures { result.now ≡ self.now.name }
    {
        &self.name
    }
}

/// Where a procedure stands.
#[derive(Clone, Copy)]
pub struct Standing {
    /// How many arguments there are.
    pub count: usize,
    /// The last command's code.
    pub code: i32,
    /// The line of the statement or test that runs, from 1.
    pub line: u32,
    /// How many calls are open.
    pub depth: usize,
    /// The line of the last open &CALL, or 0.
    pub from: u32,
    pub moment: Moment,
}

/// What the names in a statement stand for: what is given, and what was set.
#[derive(Clone, Copy)]
pub struct Seen<'e> {
    pub start: &'e AtStart,
    pub standing: Standing,
    pub variables: &'e Variables,
}

impl Scope for Seen<'_> {
    ghost use Rattle.exec2_run.specs.Given.{bound};

    ghost binding = { bound };

    #[tactic(auto, unfolding(crate::specs::Given::known))]
    fn value(&self, alloc: Global, name: &[u8]) -> Result<Word, AllocError> {
        match Predefined::read(name) {
            Some(given) => value_given(alloc, self.start, &self.standing, given),
            None => self.variables.value(alloc, name),
        }
    }
}

/// The value of a variable that is given.
fn value_given(
    alloc: Global,
    start: &AtStart,
    at: &Standing,
    given: Predefined,
) -> Result<Word, AllocError>
    ensures { IfOk result (λ value. value ≡ spec.value_given start.now at.now given) }
{
    match given {
        Predefined::Procedure | Predefined::Filename => Word::of(alloc, start.name.bytes()),
        Predefined::Filetype => Word::of(alloc, start.kind.bytes()),
        Predefined::Filemode => Word::of(alloc, start.mode.bytes()),
        Predefined::Argstring => Word::of(alloc, start.rest.bytes()),
        Predefined::Cmdstring => Word::of(alloc, start.called.bytes()),
        Predefined::Blank => Word::of(alloc, &[BLANK]),
        Predefined::Count | Predefined::Index => numeral(alloc, at.count),
        Predefined::Rc | Predefined::Retcode => written(alloc, i64::from(at.code)),
        Predefined::Line | Predefined::Linenum => decimal(alloc, at.line),
        Predefined::Depth => numeral(alloc, at.depth),
        Predefined::From => decimal(alloc, at.from),
        Predefined::Date => date(alloc, &at.moment),
        Predefined::Time => time(alloc, &at.moment),
    }
}

const LEFT_PARENTHESIS: u8 = 0x4D;

#[tactic(auto, unfolding(cms_names::specs::Names::is_text_of))]
fn part_word(alloc: Global, part: &Part) -> Result<Word, AllocError>
    ensures { IfOk result (λ word. word ≡ part.now) }
{
    Word::of(alloc, part.as_bytes())
}

/// What stands behind the name of a called procedure, which ends at the first blank or parenthesis.
#[tactic(auto, unfolding(crate::specs::Given::behind_name))]
pub fn behind_name(called: &[u8]) -> &[u8]
    ensures rest { result.now ≡ spec.behind_name called.now }
    ensures short { length result.now ≤ length called.now }
{
    let mut rest = called;
    while let [first, more @ ..] = rest {
        if ends_name(*first) {
            return rest;
        }
        rest = more;
    }
    rest
}

fn ends_name(byte: u8) -> bool
    ensures { result ≡ spec.ends_name byte }
{
    matches!(byte, BLANK | LEFT_PARENTHESIS | RIGHT_PARENTHESIS)
}

const RIGHT_PARENTHESIS: u8 = 0x5D;

/// The letter and the number of a file's mode.
fn mode(alloc: Global, found: &FileName) -> Result<Word, AllocError>
    ensures { IfOk result (λ word. word ≡ spec.mode_of found.now) }
{
    Word::of(alloc, &[letter(found.letter), digit(found.number)])
}

/// The letter of a number, from 0 for A to 25 for Z.
fn letter(number: u8) -> u8
    ensures { result ≡ spec.letter_of number }
{
    match number {
        0..=8 => 0xC1 + number,
        9..=17 => 0xD1 + (number - 9),
        _ => 0xE2 + (number.saturating_sub(18)) % 8,
    }
}

fn digit(number: u8) -> u8
    ensures { result ≡ spec.digit_of number }
{
    ZERO + number % 10
}

fn tens(number: u8) -> u8
    ensures { result ≡ spec.tens_of number }
{
    ZERO + number / 10 % 10
}

/// The date of a moment, yy/mm/dd.
fn date(alloc: Global, moment: &Moment) -> Result<Word, AllocError>
    ensures { IfOk result (λ word. word ≡ spec.date_of moment.now) }
{
    let year = (moment.year % 100) as u8;
    Word::of(
        alloc,
        &[
            tens(year),
            digit(year),
            STROKE,
            tens(moment.month),
            digit(moment.month),
            STROKE,
            tens(moment.day),
            digit(moment.day),
        ],
    )
}

/// The time of a moment, hh:mm:ss.
fn time(alloc: Global, moment: &Moment) -> Result<Word, AllocError>
    ensures { IfOk result (λ word. word ≡ spec.time_of moment.now) }
{
    Word::of(
        alloc,
        &[
            tens(moment.hour),
            digit(moment.hour),
            COLON,
            tens(moment.minute),
            digit(moment.minute),
            COLON,
            tens(moment.second),
            digit(moment.second),
        ],
    )
}
