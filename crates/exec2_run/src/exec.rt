// A procedure that runs.
ghost use Rattle.std.specs.Prelude.{◌≡◌, ◌≢◌, [], IfOk, IfErr, OnOk, OnErr, Ok, Err, ◌⊎◌, MatchResult, length, unwrap_or, slice_get};
ghost use Rattle.exec2_run.specs.Faults.{Answers, Does, Leads, number_of_fault};
ghost use Rattle.exec2_run.specs.Given.{behind_name, bound, seen, seen_at};
ghost use Rattle.exec2_run.specs.Variables.{with_arguments};
ghost use Rattle.exec2_parse.specs.Words.{words_of};
ghost use Rattle.exec2_run.specs.Steps as spec;
ghost use Rattle.exec2_parse.specs.Kinds.{guards, kind_of};
ghost use Rattle.exec2_run.specs.Due.{at_place, place_of, words_due};
ghost use Rattle.exec2_run.specs.Steps.{Takes};

use crate::asked_line::Reading;
use crate::calls::{Calls, line_of_last};
use crate::comparison::{Comparison, words_hold};
use crate::destination::Destination;
use crate::given::{AtStart, Seen, Standing, behind_name};
use crate::loops::Loops;
use crate::values::{ended, expanded_words, value, whole};
use crate::variables::Variables;
use crate::words::behind_first;
use crate::{Fault, Want};
use cms_fields::{FIRST_MOMENT, Moment};
use cms_names::Name;
use cms_text::{Line, Word, WordList, number};
use exec2_parse::{Control, Kind, Procedure, copied, kind_of, words_of};
use std::alloc::{AllocError, Global};
use std::marker::Model;

/// The file of a procedure as it was found.
#[derive(Clone, Copy)]
pub struct FileName {
    pub name: Name,
    /// 0 for A to 25 for Z
    pub letter: u8,
    /// 0 to 6
    pub number: u8,
}

/// Whether the error action runs.
#[derive(Clone, Copy)]
pub enum ErrorAction {
    Idle,
    /// It runs next.
    Due,
    /// The statement that ran last is it.
    Running,
}

/// The statement that is due.
#[derive(Drop)]
enum Due {
    /// The error action, which has these words.
    Action(WordList),
    /// That on the line at a place of these lines.
    Line(Procedure, u32),
}

impl Due {
    /// The words of the statement.
    fn words(&self) -> &[Word]
        ensures { result.now ≡ words_due self.now }
    {
        match self {
            Due::Action(words) => words.as_slice(),
            Due::Line(lines, place) => lines.statement(*place as usize),
        }
    }

    /// What the statement is.
    fn kind(&self) -> Kind
        ensures { result ≡ kind_of (words_due self.now) }
    {
        match self {
            Due::Action(words) => kind_of(words.as_slice()),
            Due::Line(lines, place) => lines.kind(*place as usize),
        }
    }
}

/// A statement behind its &IFs.
#[derive(Clone, Copy)]
struct Unguarded<'w> {
    kind: Kind,
    words: &'w [Word],
}

/// A statement without words.
#[tactic(auto, unfolding(exec2_parse::specs::Kinds::kind_of))]
fn nothing<'w>() -> Unguarded<'w>
    ensures words { result.words.now ≡ [] }
    ensures kind { result.kind ≡ kind_of [] }
{
    Unguarded {
        kind: Kind::Nothing,
        words: &[],
    }
}

/// Where a procedure stands: what a turn changes before its statement runs.
#[derive(Clone, Copy)]
struct Place {
    next: u32,
    line: u32,
    moment: Moment,
    action: ErrorAction,
}

/// What there is of a procedure that runs, seen without its allocator.
#[derive(Drop)]
pub struct ExecState {
    pub(crate) alloc: Global,
    pub(crate) lines: Procedure,
    /// The place of the next line, from 0.
    pub(crate) next: u32,
    /// The line of the statement or test that ran last, from 1.
    pub(crate) line: u32,
    /// The moment of the statement that ran last.
    pub(crate) moment: Moment,
    pub(crate) start: AtStart,
    pub(crate) variables: Variables,
    /// How many arguments there are, which is &N.
    pub(crate) count: usize,
    pub(crate) loops: Loops,
    pub(crate) calls: Calls,
    /// The words of the error action, unexpanded.
    pub(crate) error: Option<WordList>,
    pub(crate) action: ErrorAction,
    /// The last command's code.
    pub(crate) code: i32,
    pub(crate) destination: Destination,
    pub(crate) reading: Reading,
}

impl Model for ExecState {
    ghost use Rattle.exec2_parse.specs.contracts.vars.Vars as vars;
    ghost use Rattle.std.specs.Coded.{codes};
    ghost use Rattle.exec2_run.specs.State as states;

    ghost Value = { states.Exec };

    ghost coded = { Prim.hlevel (codes, vars.the_row.coded) };

    ghost view = { λ s. record {
      lines = s.lines;
      next = s.next;
      line = s.line;
      moment = s.moment;
      start = s.start;
      variables = s.variables;
      count = s.count;
      loops = s.loops;
      calls = s.calls;
      error = s.error;
      action = s.action;
      code = s.code;
      destination = s.destination;
      reading = s.reading;
    } };
}

/// A procedure that runs, a statement at a time, seen as its state. It is one pointer, so that nothing is copied where it is handed on.
#[derive(Drop)]
pub struct Exec {
    state: Box<ExecState>,
}

impl Model for Exec {
    ghost use Rattle.exec2_parse.specs.contracts.vars.Vars as vars;
    ghost use Rattle.std.specs.Coded.{codes};
    ghost use Rattle.exec2_run.specs.State as states;

    ghost Value = { states.Exec };

    ghost coded = { Prim.hlevel (codes, vars.the_row.coded) };

    ghost view = { λ e. e.state.value };
}

impl Exec {
    /// A procedure that begins, called by a line, which goes from the procedure's name on, and found in a file.
    #[tactic(auto, unfolding(crate::specs::Steps::begun))]
    pub fn start(
        alloc: Global,
        procedure: Procedure,
        called: &Line,
        found: &FileName,
    ) -> Result<Exec, AllocError>
        ensures { IfOk result (λ exec. spec.begun procedure called.now found.now ≡ Ok exec) }
    {
        let start = AtStart::of(alloc, called, found)?;
        let mut state = Box::new(alloc, ExecState::before_first(alloc, procedure, start))?;
        state.set_called(called)?;
        Ok(Exec { state })
    }

    /// The procedure's name.
    pub fn name(&self) -> &Word
        ensures { result.now ≡ self.now.start.name }
    {
        self.state.start.name()
    }

    /// The moment of the statement that ran last; 1970-01-01 00:00:00 before the first.
    pub fn moment(&self) -> Moment
        ensures { result ≡ self.now.moment }
    {
        self.state.moment
    }

    /// Finds the next line, and makes the loops' tests that are due at the moment of the last statement. It spends no turn. It answers
    /// `Next` where a statement is due, `Ended(0)` past the last line, and `Failed` where a test has a fault. After that, and without
    /// memory, the procedure stands as before.
    pub fn settle(&mut self, moment: &Moment) -> Result<Want, AllocError>
        ensures step { IfOk result (λ want.
            Takes (spec.settled moment.now self.old) self.old self.new want) }
        ensures err { OnErr result (self.new ≡ self.old) }
    {
        self.state.settle(moment)
    }

    /// Runs one statement at a turn's moment: the error action where it is due, else that of the next line. After `Failed`, and without
    /// memory, the procedure stands as before.
    pub fn turn(&mut self, moment: &Moment) -> Result<Want, AllocError>
        ensures step { IfOk result (λ want.
            Takes (spec.turned moment.now self.old) self.old self.new want) }
        ensures err { OnErr result (self.new ≡ self.old) }
    {
        self.state.turn(moment)
    }

    /// Takes the line that `Read` asked for. After `Failed`, and without memory, it is still asked for.
    pub fn take_line(&mut self, line: &Line) -> Result<Want, AllocError>
        ensures step { IfOk result (λ want.
            Takes (spec.line_taken self.old line.now) self.old self.new want) }
        ensures err { OnErr result (self.new ≡ self.old) }
    {
        self.state.take_line(line)
    }

    /// Takes the code of the command that was issued, or of the text that was sent. With one other than 0 the error action is due, unless it
    /// issued the command or sent the text.
    pub fn take_code(&mut self, code: i32)
        ensures { self.new ≡ spec.code_taken self.old code }
    {
        self.state.take_code(code);
    }

    /// What follows where the program stack has no room for the lines: fault 13 at this line, and the procedure stays as it was.
    pub fn refuse_stack(&mut self) -> Want
        ensures { Takes (spec.refused self.old) self.old self.new result }
    {
        self.state.refuse_stack()
    }
}

impl ExecState {
    /// A procedure before its first line, without arguments.
    fn before_first(alloc: Global, lines: Procedure, start: AtStart) -> ExecState
        ensures { result ≡ spec.before_first lines start }
    {
        ExecState {
            alloc,
            lines,
            next: 0,
            line: 0,
            // before the first statement; no statement sees it
            moment: FIRST_MOMENT,
            start,
            variables: Variables::new(alloc),
            count: 0,
            loops: Loops::new(alloc),
            calls: Calls::new(alloc),
            error: None,
            action: ErrorAction::Idle,
            code: 0,
            destination: Destination::Cms,
            reading: Reading::Nothing,
        }
    }

    /// The words behind the name in the line that called it become the arguments.
    fn set_called(&mut self, called: &Line) -> Result<(), AllocError>
        ensures { OnOk result (with_arguments self.old (words_of (behind_name called.now))
            ≡ Ok self.new) }
    {
        let words = words_of(self.alloc, behind_name(called.bytes()))?;
        match self.set_arguments(words.as_slice()) {
            Ok(()) => Ok(()),
            Err(_) => Err(AllocError),
        }
    }

    /// Finds the next line, and makes the loops' tests that are due at the moment of the last statement. It spends no turn. It answers
    /// `Next` where a statement is due, `Ended(0)` past the last line, and `Failed` where a test has a fault. After that, and without
    /// memory, the procedure stands as before.
    #[tactic(auto, unfolding(crate::specs::Steps::settled))]
    pub fn settle(&mut self, moment: &Moment) -> Result<Want, AllocError>
        ensures step { IfOk result (λ want.
            Takes (spec.settled moment.now self.old) self.old self.new want) }
        ensures err { OnErr result (self.new ≡ self.old) }
    {
        if self.is_due() {
            return Ok(Want::Next);
        }
        match self.settle_loops(moment) {
            Ok(()) => Ok(self.at_next()),
            Err((fault, line)) => failed(fault, line),
        }
    }

    /// What the names stand for in the statement that runs.
    pub(crate) fn seen(&self) -> Seen<'_>
        ensures { bound result ≡ seen self.now }
    {
        self.seen_at(self.line, &self.moment)
    }

    /// What they stand for at a line and a moment.
    pub(crate) fn seen_at(&self, line: u32, moment: &Moment) -> Seen<'_>
        ensures { bound result ≡ seen_at self.now line moment.now }
    {
        Seen {
            start: &self.start,
            standing: Standing {
                count: self.count,
                code: self.code,
                line,
                depth: self.calls.len(),
                from: line_of_last(&self.calls),
                moment: *moment,
            },
            variables: &self.variables,
        }
    }

    /// Whether a statement is due.
    fn at_next(&self) -> Want
        ensures { result ≡ spec.at_next self.now }
    {
        if (self.next as usize) < self.lines.len() {
            Want::Next
        } else {
            Want::Ended(0)
        }
    }

    /// Runs one statement at a turn's moment: the error action where it is due, else that of the next line. After `Failed`, and without
    /// memory, the procedure stands as before.
    #[tactic(auto, unfolding(crate::specs::Steps::turned))]
    pub fn turn(&mut self, moment: &Moment) -> Result<Want, AllocError>
        ensures step { IfOk result (λ want.
            Takes (spec.turned moment.now self.old) self.old self.new want) }
        ensures err { OnErr result (self.new ≡ self.old) }
    {
        let due = self.statement_due()?;
        let before = self.place();
        self.advance(moment);
        let done = self.run(due.kind(), due.words());
        drop(due);
        match done {
            Ok(want) => Ok(want),
            Err(fault) => {
                let line = self.line;
                self.go_to_place(before);
                failed(fault, line)
            }
        }
    }

    fn place(&self) -> Place
        ensures { result ≡ place_of self.now }
    {
        Place {
            next: self.next,
            line: self.line,
            moment: self.moment,
            action: self.action,
        }
    }

    fn go_to_place(&mut self, place: Place)
        ensures { self.new ≡ at_place self.old place }
    {
        self.next = place.next;
        self.line = place.line;
        self.moment = place.moment;
        self.action = place.action;
    }

    /// Takes the line that `Read` asked for. After `Failed`, and without memory, it is still asked for.
    #[tactic(auto, unfolding(crate::specs::Steps::line_taken))]
    pub fn take_line(&mut self, line: &Line) -> Result<Want, AllocError>
        ensures step { IfOk result (λ want.
            Takes (spec.line_taken self.old line.now) self.old self.new want) }
        ensures err { OnErr result (self.new ≡ self.old) }
    {
        let reading = std::mem::replace(&mut self.reading, Reading::Nothing);
        match self.take(&reading, line) {
            Ok(()) => {
                drop(reading);
                Ok(Want::Next)
            }
            Err(fault) => {
                self.reading = reading;
                failed(fault, self.line)
            }
        }
    }

    /// Takes the code of the command that was issued, or of the text that was sent. With one other than 0 the error action is due, unless it
    /// issued the command or sent the text.
    #[tactic(auto, unfolding(crate::specs::Steps::code_taken))]
    pub fn take_code(&mut self, code: i32)
        ensures { self.new ≡ spec.code_taken self.old code }
    {
        self.code = code;
        self.action = self.action_after(code);
    }

    fn action_after(&self, code: i32) -> ErrorAction
        ensures { result ≡ spec.action_after self.now code }
    {
        if code != 0 && self.error.is_some() && !self.is_running() {
            ErrorAction::Due
        } else {
            ErrorAction::Idle
        }
    }

    /// What follows where the program stack has no room for the lines: fault 13 at this line, and the procedure stays as it was.
    pub fn refuse_stack(&mut self) -> Want
        ensures { Takes (spec.refused self.old) self.old self.new result }
    {
        Want::Failed {
            number: Fault::StackFull.number(),
            line: self.line,
        }
    }

    /// Whether the error action runs next.
    fn is_due(&self) -> bool
        ensures { result ≡ spec.is_due self.now.action }
    {
        match self.action {
            ErrorAction::Due => true,
            ErrorAction::Idle | ErrorAction::Running => false,
        }
    }

    fn is_running(&self) -> bool
        ensures { result ≡ spec.is_running self.now.action }
    {
        match self.action {
            ErrorAction::Running => true,
            ErrorAction::Idle | ErrorAction::Due => false,
        }
    }

    fn statement_due(&self) -> Result<Due, AllocError>
        ensures { IfOk result (λ due. words_due due ≡ spec.due_words self.now) }
    {
        if self.is_due() {
            return Ok(Due::Action(self.error_words()?));
        }
        let lines = self.lines.share()?;
        Ok(Due::Line(lines, self.next))
    }

    /// Goes to the statement that is due.
    fn advance(&mut self, moment: &Moment)
        ensures { self.new ≡ spec.advanced moment.now self.old }
    {
        self.moment = *moment;
        if self.is_due() {
            self.action = ErrorAction::Running;
        } else {
            self.action = ErrorAction::Idle;
            self.pass_line();
        }
    }

    /// The next line becomes this one.
    fn pass_line(&mut self)
        ensures { self.new ≡ spec.past_line self.old }
    {
        if (self.next as usize) < self.lines.len() {
            self.next += 1;
            self.line = self.next;
        }
    }

    fn error_words(&self) -> Result<WordList, AllocError>
        ensures { IfOk result (λ words. words ≡ spec.action_words self.now.error) }
    {
        match &self.error {
            Some(words) => copied(self.alloc, words.as_slice()),
            None => Ok(WordList::new(self.alloc)),
        }
    }

    /// Runs a statement, which is of this kind.
    #[tactic(auto, unfolding(crate::specs::Steps::run, crate::specs::Steps::run_kind))]
    fn run(&mut self, kind: Kind, words: &[Word]) -> Result<Want, Fault>
        requires { kind ≡ kind_of words.now }
        ensures { Does (spec.run self.old words.now) self.old self.new result }
    {
        let statement = self.guarded(kind, words)?;
        self.run_kind(statement.kind, statement.words)
    }

    /// The statement that runs: of &IF and a comparison what follows it, or nothing where that doesn't hold.
    #[tactic(auto, unfolding(crate::specs::Steps::guarded))]
    fn guarded<'w>(&self, kind: Kind, words: &'w [Word]) -> Result<Unguarded<'w>, Fault>
        requires { kind ≡ kind_of words.now }
        ensures statement { MatchResult result
            (λ statement. spec.guarded (seen self.now) words.now ≡ Ok statement.words.now)
            (λ fault. (fault ≡ Fault.Memory)
            ⊎ (spec.guarded (seen self.now) words.now ≡ Err fault)) }
        ensures kind { IfOk result (λ statement. statement.kind ≡ kind_of statement.words.now) }
    {
        let mut rest = words;
        let mut kind = kind;
        while is_if(kind) {
            let [_, left, sign, right, statement @ ..] = rest else {
                return Err(self.fault_of_if(rest));
            };
            if !self.compare(left, sign, right)? {
                return Ok(nothing());
            }
            rest = statement;
            kind = kind_of(rest);
        }
        Ok(Unguarded { kind, words: rest })
    }

    /// The fault of an &IF without three words behind it.
    fn fault_of_if(&self, words: &[Word]) -> Fault
        ensures { (result ≡ Fault.Memory) ⊎ (spec.incomplete (seen self.now) words.now ≡ Err result) }
    {
        if let [_, left, ..] = words {
            if let Err(fault) = value(self.alloc, &self.seen(), left) {
                return fault;
            }
        }
        Fault::BadStatement
    }

    /// Whether the comparison of an &IF holds.
    #[tactic(auto, unfolding(crate::specs::Comparisons::test_holds))]
    fn compare(&self, left: &Word, sign: &Word, right: &Word) -> Result<bool, Fault>
        ensures { Answers (spec.compared (seen self.now) left.now sign.now right.now) result }
    {
        let Some(comparison) = Comparison::read(sign.bytes()) else {
            value(self.alloc, &self.seen(), left)?;
            return Err(Fault::BadStatement);
        };
        words_hold(self.alloc, &self.seen(), left, comparison, right)
    }

    /// Runs a statement of this kind that no &IF guards.
    fn run_kind(&mut self, kind: Kind, words: &[Word]) -> Result<Want, Fault>
        ensures { Does (spec.run_by kind self.old words.now) self.old self.new result }
    {
        match kind {
            Kind::Nothing => Ok(Want::Next),
            Kind::Assignment => self.assign(words),
            Kind::Control(control) => self.run_control(control, behind_first(words)),
            Kind::Command => self.send(words),
        }
    }

    #[tactic(auto, unfolding(crate::specs::Steps::run_control))]
    fn run_control(&mut self, control: Control, words: &[Word]) -> Result<Want, Fault>
        ensures { Does (spec.run_control control self.old words.now) self.old self.new result }
    {
        match control {
            Control::Trace | Control::End | Control::If => Ok(Want::Next),
            Control::Type => self.type_text(words),
            Control::BegType => self.type_block(words),
            Control::Stack => self.stack_text(words),
            Control::BegStack => self.stack_block(words),
            Control::Command => self.command(words),
            Control::Subcommand => self.subcommand(words),
            Control::Presume => self.presume(words),
            Control::Read => self.read(words),
            Control::Args => self.args(words),
            Control::Goto => self.go_to(words),
            Control::Skip => self.skip(words),
            Control::Loop => self.repeat(words),
            Control::Call => self.call(words),
            Control::Return => self.give_back(words),
            Control::Error => self.set_error(words),
            Control::Exit => self.exit(words),
        }
    }

    /// &ERROR and a statement, which is kept, or alone.
    fn set_error(&mut self, words: &[Word]) -> Result<Want, Fault>
        ensures { Does (Ok (spec.with_error self.old words.now, Want.Next)) self.old self.new
            result }
    {
        self.error = self.error_of(words)?;
        Ok(Want::Next)
    }

    fn error_of(&self, words: &[Word]) -> Result<Option<WordList>, AllocError>
        ensures { IfOk result (λ action. action ≡ spec.action_of words.now) }
    {
        if words.is_empty() {
            return Ok(None);
        }
        Ok(Some(copied(self.alloc, words)?))
    }

    /// &EXIT, with a code or without.
    #[tactic(auto, unfolding(crate::specs::Steps::exited))]
    fn exit(&self, words: &[Word]) -> Result<Want, Fault>
        ensures { Answers (spec.exited self.now words.now) result }
    {
        let operands = expanded_words(self.alloc, &self.seen(), words)?;
        let code = code_of(operands.words.as_slice(), operands.is_cut)?;
        Ok(Want::Ended(code))
    }
}

/// The code that these words give; 0 without one.
fn code_of(words: &[Word], is_cut: bool) -> Result<i32, Fault>
    ensures { MatchResult result
        (λ code. spec.exited_by words.now is_cut ≡ Ok (Want.Ended code))
        (λ fault. spec.exited_by words.now is_cut ≡ Err fault) }
{
    let [code, others @ ..] = words else {
        whole(is_cut)?;
        return Ok(0);
    };
    let code = exit_code(code.bytes())?;
    ended(others, is_cut)?;
    Ok(code)
}

/// A procedure's code, -9999 to 99999.
fn exit_code(word: &[u8]) -> Result<i32, Fault>
    ensures { result ≡ spec.exit_code word.now }
{
    match number(word) {
        Some(code) if -9999 <= code && code <= 99999 => Ok(code as i32),
        _ => Err(Fault::NotNumber),
    }
}

/// Whether a statement is an &IF.
fn is_if(kind: Kind) -> bool
    ensures { result ≡ guards kind }
{
    matches!(kind, Kind::Control(Control::If))
}

/// What a fault of a line is for the session.
fn failed(fault: Fault, line: u32) -> Result<Want, AllocError>
    ensures want { IfOk result (λ want. want ≡ Want.Failed (number_of_fault fault) line) }
    ensures memory { IfErr result (λ _. fault ≡ Fault.Memory) }
    ensures fault { OnOk result (fault ≢ Fault.Memory) }
{
    match fault {
        Fault::Memory => Err(AllocError),
        _ => Ok(Want::Failed {
            number: fault.number(),
            line,
        }),
    }
}
