// The editor as an extension.
ghost use Rattle.std.specs.Prelude.{◌≡◌, ◌≤◌, [], ◌∷◌, true, length, Ok, IfOk, OnErr};
ghost use Rattle.cms_text.specs.Limits.{longest_text};
ghost use Rattle.cms_ext.specs.Exact.{exactly};
ghost use Rattle.cms_ext.specs.Replies.{is_code};
ghost use Rattle.cms_line.specs.Tokens.{tokens_of};
ghost use Rattle.cms_edit.specs.Edits.{StaysAt, edit_told};
ghost use Rattle.cms_edit.specs.Editors as spec;
ghost use Rattle.cms_edit.specs.Editors.{Codes, Comes, Wants};

use crate::buffer::Buffer;
use crate::edit::{MOST_LINES, NOT_FOUND, Outcome, UNABLE, edit};
use crate::subcommand::{Subcommand, subcommand_of};
use crate::target::{Target, target_of};
use cms_ext::{ExtReply, ExtWant, Extension, Record, Records};
use cms_line::tokens;
use cms_text::{LONGEST_TEXT, Line, Lines, coded};
use std::alloc::{AllocError, Global};

/// The code of a file that doesn't fit.
const UNFIT: i32 = 32;

/// What the editor waits for.
#[derive(Drop)]
pub enum Phase {
    /// nothing: none of its runs goes on
    Idle,
    /// the records of its file
    Loading,
    /// the next subcommand
    Asking,
    /// that lines are said, to ask for the next subcommand then
    LoopSaid,
    /// that lines are said, to be done then
    Said,
    /// that the file is said not to fit
    Unfit,
    /// that a procedure's subcommand has put the buffer
    Saving(Line),
    /// that a subcommand which it asked for has put the buffer
    LoopSaving(Line),
}

/// The extension EDIT: a line editor.
#[derive(Drop)]
pub struct Editor {
    phase: Phase,
    file: Option<Target>,
    buffer: Buffer,
}

// A return code; a number that can be none becomes that of what can't be done.
fn within(code: i32) -> i32
    ensures value { result ≡ spec.within code }
    ensures code { is_code result ≡ true }
{
    if (-9999..=99_999).contains(&code) {
        code
    } else {
        UNABLE
    }
}

// A list of one line.
fn one_line(alloc: Global, text: Vec<u8>) -> Result<Lines, AllocError>
    requires { length text.items ≤ longest_text }
    ensures { IfOk result (λ lines. lines ≡ text.items ∷ []) }
{
    let mut lines = Lines::new(alloc);
    lines.push(Line::take(text))?;
    Ok(lines)
}

// That a line isn't done.
fn complaint(alloc: Global, line: &Line) -> Result<Lines, AllocError>
    ensures { IfOk result (λ lines. lines ≡ spec.complaint line.now ∷ []) }
{
    let mut text = coded(b"?EDIT: ").to_vec(alloc)?;
    text.extend_from_slice(line.bytes())?;
    text.truncate(LONGEST_TEXT);
    one_line(alloc, text)
}

// That a file doesn't fit.
fn unfit_text(alloc: Global) -> Result<Lines, AllocError>
    ensures { IfOk result (λ lines. lines ≡ spec.unfit_text ∷ []) }
{
    one_line(alloc, coded(b"?EDIT: file does not fit").to_vec(alloc)?)
}

// Whether records are short enough for lines.
fn are_short(records: &[Record]) -> bool
    ensures { result ≡ spec.are_short records.now }
{
    records
        .iter()
        .all(|record| record.bytes().len() <= LONGEST_TEXT)
}

// Whether records may be the lines of a buffer.
fn fits(records: &[Record]) -> bool
    ensures { result ≡ spec.fits records.now }
{
    records.len() <= MOST_LINES && are_short(records)
}

// Whether a line ends the loop.
fn ends(line: &Line) -> bool
    ensures { result ≡ spec.ends line.now }
{
    line.bytes().is_empty() || matches!(subcommand_of(line.bytes()), Some(Subcommand::End))
}

// What a line does to a buffer, as a code; where the buffer is put this code is told.
fn code_told(alloc: Global, buffer: &mut Buffer, line: &Line, told: i32) -> Result<i32, AllocError>
    ensures ok { IfOk result (λ code.
        Codes (edit_told buffer.old line.now told) buffer.new code) }
    ensures stays { IfOk result (λ code. StaysAt buffer.old buffer.new code) }
    ensures err { OnErr result (buffer.new ≡ buffer.old) }
{
    match edit(alloc, buffer, line.bytes())? {
        Outcome::Code(code) => Ok(code),
        Outcome::Said(_) => Ok(0),
        Outcome::Put => Ok(told),
    }
}

impl Editor {
    /// No file.
    pub fn new(alloc: Global) -> Editor
        ensures { result ≡ spec.new_editor }
    {
        Editor {
            phase: Phase::Idle,
            file: None,
            buffer: Buffer::new(alloc),
        }
    }

    fn done(&mut self, code: i32) -> ExtWant
        ensures { Wants (spec.done self.old code) self.new result }
    {
        self.phase = Phase::Idle;
        ExtWant::Done(within(code))
    }

    fn ask(&mut self) -> ExtWant
        ensures { Wants (spec.asks self.old) self.new result }
    {
        self.phase = Phase::Asking;
        ExtWant::Ask
    }

    fn say(&mut self, lines: Lines, phase: Phase) -> ExtWant
        ensures { Wants (spec.says self.old lines phase) self.new result }
    {
        self.phase = phase;
        ExtWant::Say(lines)
    }

    fn put(&mut self, alloc: Global, target: Target, phase: Phase) -> Result<ExtWant, AllocError>
        requires { 1 ≤ length self.old.buffer.lines }
        ensures { Comes self.old (spec.puts self.old target phase) self.new result }
    {
        let records = self.buffer.records(alloc)?;
        let letter = target.letter.number();
        self.phase = phase;
        Ok(ExtWant::Put(target.name, letter, records))
    }

    // The file of a line is asked for; what was edited before is gone.
    fn load(&mut self, alloc: Global, target: Target) -> ExtWant
        ensures { Wants (spec.loading self.old (Ok target)) self.new result }
    {
        let letter = target.letter.number();
        let name = target.name;
        self.phase = Phase::Loading;
        self.file = Some(target);
        self.buffer = Buffer::new(alloc);
        ExtWant::Get(name, letter)
    }

    // A line of EDIT: the word alone, or with a file.
    fn started(&mut self, alloc: Global, line: &Line) -> Result<ExtWant, AllocError>
        ensures { Comes self.old (spec.started self.old (tokens_of line.now)) self.new result }
    {
        let words = tokens(alloc, line)?;
        if words.len() == 1 {
            return if self.file.is_some() {
                Ok(self.ask())
            } else {
                Ok(self.done(UNABLE))
            };
        }
        match target_of(words.as_slice()) {
            Ok(target) => Ok(self.load(alloc, target)),
            Err(_) => Ok(self.done(UNABLE)),
        }
    }

    // The records of the file.
    fn loaded(&mut self, alloc: Global, records: &Records) -> Result<ExtWant, AllocError>
        ensures { Comes self.old (spec.loaded self.old records.now) self.new result }
    {
        if fits(records.as_slice()) {
            self.buffer = Buffer::of_records(alloc, records.as_slice())?;
            return Ok(self.done(0));
        }
        let lines = unfit_text(alloc)?;
        self.file = None;
        Ok(self.say(lines, Phase::Unfit))
    }

    // The file can't be had. One that isn't there is a new one; else there is none.
    fn unloaded(&mut self, code: i32) -> ExtWant
        ensures { Wants (spec.unloaded self.old code) self.new result }
    {
        if code == NOT_FOUND {
            return self.done(code);
        }
        self.file = None;
        self.done(code)
    }

    // A text that a procedure sends.
    fn told_text(&mut self, alloc: Global, text: &Line) -> Result<ExtWant, AllocError>
        ensures { Comes self.old (spec.told_text self.old self.old.file text.now) self.new result }
    {
        let Some(target) = self.file else {
            return Ok(self.done(UNABLE));
        };
        match edit(alloc, &mut self.buffer, text.bytes())? {
            Outcome::Code(code) => Ok(self.done(code)),
            Outcome::Said(lines) if lines.is_empty() => Ok(self.done(0)),
            Outcome::Said(lines) => Ok(self.say(lines, Phase::Said)),
            Outcome::Put => {
                let line = Line::of(alloc, text.bytes())?;
                self.put(alloc, target, Phase::Saving(line))
            }
        }
    }

    // A line that was asked for.
    fn told_line(&mut self, alloc: Global, line: &Line) -> Result<ExtWant, AllocError>
        ensures { Comes self.old (spec.told_line self.old self.old.file line.now) self.new result }
    {
        let Some(target) = self.file else {
            return Ok(self.done(UNABLE));
        };
        if ends(line) {
            return Ok(self.done(0));
        }
        match edit(alloc, &mut self.buffer, line.bytes())? {
            Outcome::Code(0) => Ok(self.ask()),
            Outcome::Code(_) => {
                let lines = complaint(alloc, line)?;
                Ok(self.say(lines, Phase::LoopSaid))
            }
            Outcome::Said(lines) if lines.is_empty() => Ok(self.ask()),
            Outcome::Said(lines) => Ok(self.say(lines, Phase::LoopSaid)),
            Outcome::Put => {
                let kept = Line::of(alloc, line.bytes())?;
                self.put(alloc, target, Phase::LoopSaving(kept))
            }
        }
    }

    // The reply to a put tells a code.
    fn put_answered(&mut self, alloc: Global, told: i32) -> Result<ExtWant, AllocError>
        ensures { Comes self.old (spec.put_answered self.old self.old.phase told) self.new result }
    {
        match &self.phase {
            Phase::Saving(line) => {
                let code = code_told(alloc, &mut self.buffer, line, told)?;
                Ok(self.done(code))
            }
            Phase::LoopSaving(line) => {
                let code = code_told(alloc, &mut self.buffer, line, told)?;
                if code == 0 {
                    return Ok(self.ask());
                }
                let lines = complaint(alloc, line)?;
                Ok(self.say(lines, Phase::LoopSaid))
            }
            _ => Ok(self.done(UNABLE)),
        }
    }

    // What it wanted is done.
    fn went(&mut self, alloc: Global) -> Result<ExtWant, AllocError>
        ensures { Comes self.old (spec.went self.old self.old.phase) self.new result }
    {
        match self.phase {
            Phase::LoopSaid => Ok(self.ask()),
            Phase::Said => Ok(self.done(0)),
            Phase::Unfit => Ok(self.done(UNFIT)),
            _ => self.put_answered(alloc, 0),
        }
    }

    // A line came, which is asked for in the loop alone.
    fn got(&mut self, alloc: Global, line: &Line) -> Result<ExtWant, AllocError>
        ensures { Comes self.old (spec.got self.old self.old.phase line.now) self.new result }
    {
        match self.phase {
            Phase::Asking => self.told_line(alloc, line),
            _ => Ok(self.done(UNABLE)),
        }
    }

    // Records came, which are those of a file that is loaded.
    fn filed(&mut self, alloc: Global, records: &Records) -> Result<ExtWant, AllocError>
        ensures { Comes self.old (spec.filed self.old self.old.phase records.now) self.new result }
    {
        match self.phase {
            Phase::Loading => self.loaded(alloc, records),
            _ => Ok(self.done(UNABLE)),
        }
    }

    // What it wanted was refused.
    fn refused(&mut self, alloc: Global, code: &i32) -> Result<ExtWant, AllocError>
        ensures { Comes self.old (spec.refused self.old self.old.phase code.now) self.new result }
    {
        let code = *code;
        match self.phase {
            Phase::Loading => Ok(self.unloaded(code)),
            _ => self.put_answered(alloc, code),
        }
    }
}

impl Extension for Editor {
    ghost content = { λ e. spec.held e };

    ghost does = { exactly spec.step };

    fn turn(&mut self, alloc: Global, reply: &ExtReply) -> Result<ExtWant, AllocError> {
        match reply {
            ExtReply::Start(line) => self.started(alloc, line),
            ExtReply::Sub(text) => self.told_text(alloc, text),
            ExtReply::Went => self.went(alloc),
            ExtReply::Got(line) => self.got(alloc, line),
            ExtReply::File(records) => self.filed(alloc, records),
            ExtReply::Refused(code) => self.refused(alloc, code),
        }
    }
}
