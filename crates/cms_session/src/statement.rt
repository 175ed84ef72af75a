// A statement of the newest procedure: it is run, what it wants is met, and procedures end.
ghost use Rattle.std.specs.Prelude.{◌≡◌, ◌+◌, ◌≤◌, ◌<◌, pos, true, IfOk};
ghost use Rattle.cms_fields.specs.Moments.{is_moment};
ghost use Rattle.cms_fields.specs.Offsets.{IsOffset};
ghost use Rattle.cms_line.specs.Messages.{message_text};
ghost use Rattle.cms_line.specs.declared.message.Message.TheVariants.{M085};
ghost use Rattle.cms_model.specs.Acts.{saying, typed_line};
ghost use Rattle.cms_search.specs.Calls.{spot, spot_with, Acts, Does, IsUsable, itself};
ghost use Rattle.cms_exec.specs.Exec.{stopped_code};
ghost use Rattle.cms_ext.specs.Objects.{objects_of};
ghost use Rattle.cms_files.specs.StackedLines.{StacksSome};
ghost use Rattle.cms_text.specs.Numbers.{decimal_of};
ghost use Rattle.cms_world.specs.Seen.{seen};
ghost use Rattle.cms_session.specs.RoundCalls as tree;
ghost use Rattle.cms_session.specs.RoundCalls.{passed_of, round_of, waiting};
ghost use Rattle.cms_session.specs.Procedures as spec;
ghost use Rattle.cms_session.specs.declared.state.Round.TheVariants.{Ready};

use crate::dispatch::{Issued, issue};
use crate::state::{Finish, Round, Session};
use crate::subcommand::send;
use cms_ext::{ExtList, Extension};
use cms_files::{StackEnd, has_room, stack_lines};
use cms_line::{Line, Lines, Message, Word};
use cms_search::{Asked, Course, End, PlaceEvent, State, say_lines, say_message, say_ready, turn};
use cms_text::decimal;
use cms_world::World;
use exec2_run::{Exec, Side, Want};
use std::alloc::{AllocError, Global};

// The code of a procedure that stopped, to which its fault's number is added.
const STOPPED: i32 = 10_000;

// ---- how a procedure ends

// The message of a fault.
fn stopped(alloc: Global, exec: &Exec, number: u8, line: u32) -> Result<Message, AllocError>
    ensures { IfOk result (λ message. message
        ≡ M085 exec.now.start.name (decimal_of line) (decimal_of number)) }
{
    Ok(Message::M085(
        Word::of(alloc, exec.name().bytes())?,
        decimal(alloc, line)?,
        decimal(alloc, u32::from(number))?,
    ))
}

// Types the message of a fault.
fn tell_stop<W: World>(
    alloc: Global,
    world: &mut W,
    exec: &Exec,
    number: u8,
    line: u32,
) -> Result<(), End>
    ensures { Does (seen W.World world.old) (seen W.World world.new)
        (saying (typed_line
        (message_text (M085 exec.now.start.name (decimal_of line) (decimal_of number))))) result
        itself }
{
    let message = stopped(alloc, exec, number, line)?;
    say_message(alloc, world, message)
}

// The code of a procedure that stopped by a fault.
fn code_of(number: u8) -> i32
    ensures { result ≡ pos (stopped_code + number) }
{
    STOPPED + i32::from(number)
}

// The code of a procedure that has ended by what it wants, none where it hasn't. A fault is typed.
fn over<W: World>(
    alloc: Global,
    world: &mut W,
    exec: &Exec,
    want: &Want,
) -> Result<Option<i32>, End>
    ensures { Does (seen W.World world.old) (seen W.World world.new)
        (spec.over exec.now want.now) result itself }
{
    match want {
        Want::Ended(code) => Ok(Some(*code)),
        Want::Failed { number, line } => {
            tell_stop(alloc, world, exec, *number, *line)?;
            Ok(Some(code_of(*number)))
        }
        Want::Next
        | Want::Say(_)
        | Want::Stack(_, _)
        | Want::Read
        | Want::Command(_)
        | Want::Sub(_, _) => Ok(None),
    }
}

// ---- between two statements

// The ready line, which forgets the reading places, and drops the readings that disks keep.
fn ready<W: World>(world: &mut W, session: &mut Session, code: i32) -> Result<Round, End>
    ensures acts { Acts (spot W.World world.old session.old.state)
        (spot W.World world.new session.new.state)
        (tree.ready_tree session.old code) result (round_of session.new) }
    ensures stack { session.new.state.stack ≡ session.old.state.stack }
    ensures reader { session.new.reader ≡ session.old.reader }
    ensures offset { session.new.state.offset ≡ session.old.state.offset }
    ensures left { session.new.state.left ≡ session.old.state.left }
{
    session.state.table.drop_readings();
    say_ready(world, code)?;
    session.state.places.after(PlaceEvent::Ready);
    Ok(Round::Ready)
}

// A procedure finds its next line, and waits for its turn above the others; the code of one that has ended is given.
fn settle<W: World>(
    alloc: Global,
    world: &mut W,
    session: &mut Session,
    procedure: Exec,
) -> Result<Option<i32>, End>
    ensures does { Does (seen W.World world.old) (seen W.World world.new)
        (tree.over_tree (spec.settled procedure)) result itself }
    ensures state { session.new.state ≡ session.old.state }
    ensures reader { session.new.reader ≡ session.old.reader }
    ensures procedures { IfOk result
        (λ code. tree.procedures_of session.new
        ≡ waiting code (spec.settled procedure).0 (tree.procedures_of session.old)) }
{
    let mut procedure = procedure;
    let moment = procedure.moment();
    let want = procedure.settle(&moment)?;
    match over(alloc, world, &procedure, &want)? {
        Some(code) => Ok(Some(code)),
        None => {
            let Ok(()) = session.procedures.push(procedure) else {
                return Err(End::Memory);
            };
            Ok(None)
        }
    }
}

/// Gives a code to the newest procedure, as that of the line that it issued. Each procedure that has ended so gives its own to the next,
/// and the last to CMS.
fn give<W: World>(
    alloc: Global,
    world: &mut W,
    session: &mut Session,
    code: i32,
) -> Result<Round, End>
    ensures acts { Acts (spot W.World world.old session.old.state)
        (spot W.World world.new session.new.state)
        (tree.give_tree session.old code) result (round_of session.new) }
    ensures stack { session.new.state.stack ≡ session.old.state.stack }
    ensures reader { session.new.reader ≡ session.old.reader }
    ensures offset { session.new.state.offset ≡ session.old.state.offset }
    ensures left { session.new.state.left ≤ session.old.state.left }
{
    let mut code = code;
    while let Some(mut procedure) = session.procedures.pop() {
        procedure.take_code(code);
        match settle(alloc, world, session, procedure)? {
            Some(own) => code = own,
            None => return Ok(Round::Ready),
        }
    }
    ready(world, session, code)
}

// A procedure goes on above the others: it waits for its turn, or has ended.
fn go_on<W: World>(
    alloc: Global,
    world: &mut W,
    session: &mut Session,
    procedure: Exec,
) -> Result<Round, End>
    ensures acts { Acts (spot W.World world.old session.old.state)
        (spot W.World world.new session.new.state)
        (tree.go_on_tree session.old procedure) result (round_of session.new) }
    ensures stack { session.new.state.stack ≡ session.old.state.stack }
    ensures reader { session.new.reader ≡ session.old.reader }
    ensures offset { session.new.state.offset ≡ session.old.state.offset }
    ensures left { session.new.state.left ≤ session.old.state.left }
{
    match settle(alloc, world, session, procedure)? {
        Some(code) => give(alloc, world, session, code),
        None => Ok(Round::Ready),
    }
}

// A procedure goes on, but where it has ended by what it wants.
fn follow<W: World>(
    alloc: Global,
    world: &mut W,
    session: &mut Session,
    procedure: Exec,
    want: &Want,
) -> Result<Round, End>
    ensures acts { Acts (spot W.World world.old session.old.state)
        (spot W.World world.new session.new.state)
        (tree.follow_tree session.old procedure want.now) result (round_of session.new) }
    ensures stack { session.new.state.stack ≡ session.old.state.stack }
    ensures reader { session.new.reader ≡ session.old.reader }
    ensures offset { session.new.state.offset ≡ session.old.state.offset }
    ensures left { session.new.state.left ≤ session.old.state.left }
{
    match over(alloc, world, &procedure, want)? {
        Some(code) => give(alloc, world, session, code),
        None => go_on(alloc, world, session, procedure),
    }
}

// ---- what a line came to

/// What a line came to: its code goes to the newest procedure, or to CMS; or a procedure begins above the others.
pub fn answer<W: World>(
    alloc: Global,
    world: &mut W,
    session: &mut Session,
    issued: Issued,
) -> Result<Round, End>
    ensures acts { Acts (spot W.World world.old session.old.state)
        (spot W.World world.new session.new.state)
        (tree.answer_tree session.old issued) result (round_of session.new) }
    ensures reader { session.new.reader ≡ session.old.reader }
    ensures offset { session.new.state.offset ≡ session.old.state.offset }
    ensures left { session.new.state.left ≤ session.old.state.left }
{
    match issued {
        Issued::Came(Course::Went(code)) => give(alloc, world, session, code),
        Issued::Came(Course::OutOfTurns) => Ok(Round::Ended(Finish::AtTurns)),
        Issued::Begun(procedure) => go_on(alloc, world, session, procedure),
    }
}

// ---- what a statement wants

// Lines are typed.
fn type_lines<W: World>(
    alloc: Global,
    world: &mut W,
    session: &mut Session,
    procedure: Exec,
    lines: &Lines,
) -> Result<Round, End>
    ensures acts { Acts (spot W.World world.old session.old.state)
        (spot W.World world.new session.new.state)
        (tree.type_tree session.old procedure lines.now) result (round_of session.new) }
    ensures reader { session.new.reader ≡ session.old.reader }
    ensures offset { session.new.state.offset ≡ session.old.state.offset }
    ensures left { session.new.state.left ≤ session.old.state.left }
{
    say_lines(world, lines)?;
    go_on(alloc, world, session, procedure)
}

fn end_of(side: Side) -> StackEnd
    ensures { result ≡ spec.end_of side }
{
    match side {
        Side::Front => StackEnd::Front,
        Side::Back => StackEnd::Back,
    }
}

// Lines are stacked; where they don't all fit none is, which is a fault. Without memory for one of
// them those before it stay stacked.
fn stack<W: World>(
    alloc: Global,
    world: &mut W,
    session: &mut Session,
    procedure: Exec,
    lines: &Lines,
    side: Side,
) -> Result<Round, End>
    ensures acts { Acts (spot W.World world.old session.old.state)
        (spot W.World world.new session.new.state)
        (tree.stack_tree session.old procedure lines.now side) result (round_of session.new) }
    ensures stack { StacksSome (spec.end_of side) lines.now
        session.old.state.stack session.new.state.stack }
    ensures reader { session.new.reader ≡ session.old.reader }
    ensures offset { session.new.state.offset ≡ session.old.state.offset }
    ensures left { session.new.state.left ≤ session.old.state.left }
{
    let mut procedure = procedure;
    if !has_room(&session.state.stack, lines) {
        let want = procedure.refuse_stack();
        return follow(alloc, world, session, procedure, &want);
    }
    match stack_lines(alloc, world, &mut session.state, end_of(side), lines)? {
        Course::Went(_) => go_on(alloc, world, session, procedure),
        Course::OutOfTurns => Ok(Round::Ended(Finish::AtTurns)),
    }
}

// A line is asked for.
fn read<W: World>(
    alloc: Global,
    world: &mut W,
    session: &mut Session,
    procedure: Exec,
) -> Result<Round, End>
    ensures acts { Acts (spot W.World world.old session.old.state)
        (spot W.World world.new session.new.state)
        (tree.read_tree session.old procedure) result (round_of session.new) }
    ensures reader { session.new.reader ≡ session.old.reader }
    ensures offset { session.new.state.offset ≡ session.old.state.offset }
    ensures left { session.new.state.left ≤ session.old.state.left }
{
    let mut procedure = procedure;
    match session.state.ask(alloc, world)? {
        Asked::Given(line) => {
            let want = procedure.take_line(&line)?;
            follow(alloc, world, session, procedure, &want)
        }
        Asked::Spent => Ok(Round::Ended(Finish::AtTurns)),
    }
}

// A line is issued.
fn command<W: World>(
    alloc: Global,
    world: &mut W,
    session: &mut Session,
    extensions: &mut ExtList,
    procedure: Exec,
    line: &Line,
) -> Result<Round, End>
    requires usable { IsUsable (spot W.World world.old session.old.state) }
    requires moment { is_moment session.old.state.moment ≡ true }
    requires offset { IsOffset session.old.state.offset }
    ensures acts { Acts (spot_with W.World world.old session.old.state
        (objects_of ⟦<dyn Extension as Extension>⟧ extensions.old))
        (spot_with W.World world.new session.new.state
        (objects_of ⟦<dyn Extension as Extension>⟧ extensions.new))
        (tree.issued_tree session.old
        (objects_of ⟦<dyn Extension as Extension>⟧ extensions.old) procedure line.now)
        result (passed_of session.new (objects_of ⟦<dyn Extension as Extension>⟧ extensions.new)) }
    ensures offset { session.new.state.offset ≡ session.old.state.offset }
    ensures left { session.new.state.left ≤ session.old.state.left }
{
    let Ok(()) = session.procedures.push(procedure) else {
        return Err(End::Memory);
    };
    let running = session.procedures.len();
    let issued = issue(
        alloc,
        world,
        &mut session.state,
        extensions,
        &mut session.reader,
        running,
        line,
    )?;
    answer(alloc, world, session, issued)
}

// A text is sent to an extension.
fn subcommand<W: World>(
    alloc: Global,
    world: &mut W,
    session: &mut Session,
    extensions: &mut ExtList,
    procedure: Exec,
    word: &Word,
    text: Line,
) -> Result<Round, End>
    requires usable { IsUsable (spot W.World world.old session.old.state) }
    requires moment { is_moment session.old.state.moment ≡ true }
    requires offset { IsOffset session.old.state.offset }
    ensures acts { Acts (spot_with W.World world.old session.old.state
        (objects_of ⟦<dyn Extension as Extension>⟧ extensions.old))
        (spot_with W.World world.new session.new.state
        (objects_of ⟦<dyn Extension as Extension>⟧ extensions.new))
        (tree.sent_tree session.old
        (objects_of ⟦<dyn Extension as Extension>⟧ extensions.old) procedure word.now text)
        result (passed_of session.new (objects_of ⟦<dyn Extension as Extension>⟧ extensions.new)) }
    ensures offset { session.new.state.offset ≡ session.old.state.offset }
    ensures left { session.new.state.left ≤ session.old.state.left }
{
    let Ok(()) = session.procedures.push(procedure) else {
        return Err(End::Memory);
    };
    let course = send(alloc, world, &mut session.state, extensions, word, text)?;
    answer(alloc, world, session, Issued::Came(course))
}

// What a statement wants is met.
fn meet<W: World>(
    alloc: Global,
    world: &mut W,
    session: &mut Session,
    extensions: &mut ExtList,
    procedure: Exec,
    want: Want,
) -> Result<Round, End>
    requires usable { IsUsable (spot W.World world.old session.old.state) }
    requires moment { is_moment session.old.state.moment ≡ true }
    requires offset { IsOffset session.old.state.offset }
    ensures acts { Acts (spot_with W.World world.old session.old.state
        (objects_of ⟦<dyn Extension as Extension>⟧ extensions.old))
        (spot_with W.World world.new session.new.state
        (objects_of ⟦<dyn Extension as Extension>⟧ extensions.new))
        (tree.meet_tree session.old
        (objects_of ⟦<dyn Extension as Extension>⟧ extensions.old) procedure want)
        result (passed_of session.new (objects_of ⟦<dyn Extension as Extension>⟧ extensions.new)) }
    ensures offset { session.new.state.offset ≡ session.old.state.offset }
    ensures left { session.new.state.left ≤ session.old.state.left }
{
    match want {
        Want::Say(lines) => type_lines(alloc, world, session, procedure, &lines),
        Want::Stack(lines, side) => stack(alloc, world, session, procedure, &lines, side),
        Want::Read => read(alloc, world, session, procedure),
        Want::Command(line) => command(alloc, world, session, extensions, procedure, &line),
        Want::Sub(word, text) => {
            subcommand(alloc, world, session, extensions, procedure, &word, text)
        }
        Want::Next => follow(alloc, world, session, procedure, &Want::Next),
        Want::Ended(code) => follow(alloc, world, session, procedure, &Want::Ended(code)),
        Want::Failed { number, line } => {
            follow(
                alloc,
                world,
                session,
                procedure,
                &Want::Failed { number, line },
            )
        }
    }
}

/// Spends a turn, and runs the statement of the newest procedure that is due, above the others.
pub fn statement<W: World>(
    alloc: Global,
    world: &mut W,
    session: &mut Session,
    extensions: &mut ExtList,
    procedure: Exec,
) -> Result<Round, End>
    requires usable { IsUsable (spot W.World world.old session.old.state) }
    requires offset { IsOffset session.old.state.offset }
    ensures acts { Acts (spot_with W.World world.old session.old.state
        (objects_of ⟦<dyn Extension as Extension>⟧ extensions.old))
        (spot_with W.World world.new session.new.state
        (objects_of ⟦<dyn Extension as Extension>⟧ extensions.new))
        (tree.statement_tree session.old
        (objects_of ⟦<dyn Extension as Extension>⟧ extensions.old) procedure)
        result (passed_of session.new (objects_of ⟦<dyn Extension as Extension>⟧ extensions.new)) }
    ensures offset { session.new.state.offset ≡ session.old.state.offset }
    ensures falls { IfOk result (λ round. round ≡ Ready
        → session.new.state.left < session.old.state.left) }
{
    let mut procedure = procedure;
    if session.state.left == 0 {
        return Ok(Round::Ended(Finish::AtTurns));
    }
    turn(world, &mut session.state)?;
    let want = procedure.turn(&session.state.moment)?;
    meet(alloc, world, session, extensions, procedure, want)
}
