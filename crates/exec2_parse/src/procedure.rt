// EXEC 2 procedures.
ghost use Rattle.std.specs.Prelude.{◌≡◌, ◌==◌, ◌≤◌, ◌⊎◌, ◌++◌, ◌∷◌, [], List, ℕ, length, option_map, slice_get, None, Ok, Err, IfOk, IfErr, MatchOption, OnOk};
ghost use Rattle.std.specs.Option.{option_copied, option_map_or};
ghost use Rattle.cms_model.specs.Records.{IsValid, StandsFor};
ghost use Rattle.exec2_parse.specs.Procedures as spec;
ghost use Rattle.exec2_parse.specs.Kinds.{kind_of};
ghost use Rattle.exec2_parse.specs.Statements.{lines_in};
ghost use Rattle.exec2_parse.specs.Words.{statement_on};
ghost use Rattle.cms_records.specs.Stored.{records_in};
ghost use Rattle.cms_text.specs.Limits.{longest_text};

use crate::kind::Kind;
use crate::statement::Statement;
use cms_model::FileData;
use cms_records::Records;
use cms_text::{LONGEST_TEXT, Line, Word, first_word, is_keyword, without_trailing_blanks};
use std::alloc::{AllocError, Global};
use std::marker::Model;
use std::rc::Rc;

/// The most lines of a procedure.
const MOST_LINES: u32 = 4096;

/// The character that begins a comment.
const ASTERISK: u8 = 0x5C;

/// Why a file is no procedure that can be run.
#[derive(Clone, Copy, Debug)]
pub enum ProcFault {
    /// The first word of the first line that is neither blank nor a comment isn't &TRACE, or there is no such line.
    NotExec2,
    /// The line of this number, counted from 1, is the first with more than 255 bytes without the blanks at its end.
    LineTooLong(u32),
    /// There are more than 4,096 lines.
    TooManyLines,
    /// There is no memory.
    Memory,
}

impl From<AllocError> for ProcFault {
    ghost use Rattle.std.specs.Prelude.{◌≡◌};
    ghost use Rattle.exec2_parse.specs.declared.procedure.ProcFault.TheVariants as fault;

    ghost from_gives = { λ _ e. e ≡ fault.Memory };

    fn from(_want: AllocError) -> ProcFault {
        ProcFault::Memory
    }
}

/// A procedure, seen as the list of its lines. They have no blanks at their ends, and there are at most 4,096. Each is kept with the words
/// of its statement and what that is, so that these are found once, however often it runs.
#[derive(Drop)]
pub struct Procedure {
    statements: Rc<Vec<Statement>>,
}

impl Model for Procedure {
    ghost use Rattle.std.specs.Prelude.{List, ℕ, length, ◌≤◌};
    ghost use Rattle.exec2_parse.specs.Procedures.{most_lines};
    ghost use Rattle.exec2_parse.specs.Kinds.{kind_of};
    ghost use Rattle.exec2_parse.specs.Statements.{lines_in};

    ghost Value = { List (List ℕ) };

    ghost view = { λ p. lines_in p.statements.value.items };

    ghost invariant = { λ p. length p.statements.value.items ≤ most_lines };
}

impl Procedure {
    /// The procedure of these lines.
    fn of(alloc: Global, statements: Vec<Statement>) -> Result<Procedure, AllocError>
        requires { length statements.items ≤ spec.most_lines }
        ensures { IfOk result (λ procedure. procedure ≡ lines_in statements.items) }
    {
        let statements = Rc::new(alloc, statements)?;
        Ok(Procedure { statements })
    }

    /// How many lines there are.
    pub fn len(&self) -> usize
        ensures count { result ≡ length self.now }
        ensures most { length self.now ≤ spec.most_lines }
    {
        self.statements.len()
    }

    /// Whether there are no lines.
    pub fn is_empty(&self) -> bool
        ensures { result ≡ (length self.now == 0) }
    {
        self.len() == 0
    }

    /// The line at a place, from 0; none past the last.
    pub fn get(&self, place: usize) -> Option<&Line>
        ensures { option_copied result ≡ slice_get self.now place }
    {
        match self.statements.get(place) {
            Some(statement) => Some(statement.line()),
            None => None,
        }
    }

    /// The words of the statement on the line at a place, from 0; none past the last.
    pub fn statement(&self, place: usize) -> &[Word]
        ensures { result.now ≡ option_map_or statement_on (slice_get self.now place) [] }
    {
        match self.statements.get(place) {
            Some(statement) => statement.words(),
            None => &[],
        }
    }

    /// What the statement on the line at a place is, from 0; one without words past the last.
    #[tactic(auto, unfolding(crate::specs::Kinds::kind_of))]
    pub fn kind(&self, place: usize) -> Kind
        ensures { result ≡ kind_of (option_map_or statement_on (slice_get self.now place) []) }
    {
        match self.statements.get(place) {
            Some(statement) => statement.kind(),
            None => Kind::Nothing,
        }
    }

    /// The same procedure a second time, which takes no memory.
    pub fn share(&self) -> Result<Procedure, AllocError>
        ensures { IfOk result (λ shared. shared ≡ self.now) }
    {
        let statements = self.statements.clone()?;
        Ok(Procedure { statements })
    }
}

/// The procedure in a file: its records as lines, without the blanks at their ends.
pub fn read_procedure(alloc: Global, file: &FileData) -> Result<Procedure, ProcFault>
    requires { IsValid file.now }
    ensures lines { IfOk result (λ procedure.
        (records : List (List ℕ)) → StandsFor file.now records
        → spec.procedure_of records ≡ Ok procedure) }
    ensures fault { IfErr result (λ fault. (fault ≡ ProcFault.Memory)
        ⊎ ((records : List (List ℕ)) → StandsFor file.now records
        → spec.procedure_of records ≡ Err fault)) }
{
    match fault_of(file) {
        Some(fault) => Err(fault),
        None => Ok(procedure_in(alloc, file)?),
    }
}

/// Why a file is no procedure.
fn fault_of(file: &FileData) -> Option<ProcFault>
    requires { IsValid file.now }
    ensures { MatchOption result
        (spec.procedure_of (records_in file.now) ≡ Ok (spec.lines_of (records_in file.now)))
        (λ fault. spec.procedure_of (records_in file.now) ≡ Err fault) }
{
    if !begins_with_trace(file) {
        return Some(ProcFault::NotExec2);
    }
    if let Some(number) = number_of_long_line(file) {
        return Some(ProcFault::LineTooLong(number));
    }
    if file.count > MOST_LINES {
        return Some(ProcFault::TooManyLines);
    }
    None
}

/// The procedure whose lines a file's records are.
fn procedure_in(alloc: Global, file: &FileData) -> Result<Procedure, AllocError>
    requires valid { IsValid file.now }
    requires short { spec.number_of_long_line (spec.lines_of (records_in file.now)) ≡ None }
    requires few { file.now.count ≤ spec.most_lines }
    ensures { IfOk result (λ procedure. procedure ≡ spec.lines_of (records_in file.now)) }
{
    let mut statements = Vec::new(alloc);
    for record in Records::of(file) {
        keep(alloc, &mut statements, without_trailing_blanks(record))?;
    }
    Procedure::of(alloc, statements)
}

/// Keeps a line behind the others.
fn keep(alloc: Global, statements: &mut Vec<Statement>, text: &[u8]) -> Result<(), AllocError>
    requires { length text.now ≤ longest_text }
    ensures { OnOk result (lines_in statements.new.items
        ≡ lines_in statements.old.items ++ text.now ∷ []) }
{
    statements.push(Statement::of(alloc, text)?)?;
    Ok(())
}

/// Whether the first line that is neither blank nor a comment begins with &TRACE.
#[tactic(auto, unfolding(crate::specs::Procedures::begins_with_trace))]
fn begins_with_trace(file: &FileData) -> bool
    requires { IsValid file.now }
    ensures { result ≡ spec.begins_with_trace (spec.lines_of (records_in file.now)) }
{
    match first_statement(file) {
        Some(line) => is_keyword(first_word(line), "&TRACE"),
        None => false,
    }
}

/// The first line that is neither blank nor a comment.
fn first_statement(file: &FileData) -> Option<&[u8]>
    requires { IsValid file.now }
    ensures { option_map (λ line. line.now) result
        ≡ spec.first_statement (spec.lines_of (records_in file.now)) }
{
    for record in Records::of(file) {
        let line = without_trailing_blanks(record);
        if !is_idle(line) {
            return Some(line);
        }
    }
    None
}

/// Whether a line is blank or a comment.
fn is_idle(line: &[u8]) -> bool
    ensures { result ≡ spec.is_idle line.now }
{
    first_word(line).is_empty() || line.first() == Some(&ASTERISK)
}

/// The number of the first line that is too long, from 1.
fn number_of_long_line(file: &FileData) -> Option<u32>
    requires { IsValid file.now }
    ensures { result ≡ spec.number_of_long_line (spec.lines_of (records_in file.now)) }
{
    let mut before = 0;
    for record in Records::of(file) {
        if without_trailing_blanks(record).len() > LONGEST_TEXT {
            return Some(before + 1);
        }
        before += 1;
    }
    None
}
