// A round of the session: a line is taken, and done; or where a procedure runs a statement of it.
ghost use Rattle.std.specs.Prelude.{◌≡◌, ◌<◌, ◌≤◌, true, IfOk, option_map};
ghost use Rattle.cms_fields.specs.Moments.{is_moment};
ghost use Rattle.cms_fields.specs.Offsets.{IsOffset};
ghost use Rattle.cms_line.specs.Consoles.{item_of};
ghost use Rattle.cms_search.specs.Calls.{spot, spot_with, Acts, IsUsable, beside};
ghost use Rattle.cms_ext.specs.Objects.{objects_of};
ghost use Rattle.cms_world.specs.Seen.{seen};
ghost use Rattle.cms_session.specs.RoundCalls.{passed_of, round_of, item_in, taking_tree, line_tree, item_tree, line_round_tree, refused_tree, round_tree};
ghost use Rattle.cms_session.specs.declared.state.Round.TheVariants.{Ready};

use crate::command::is_comment;
use crate::dispatch::{Issued, take_up};
use crate::state::{Finish, Round, Session};
use crate::statement::{answer, statement};
use cms_ext::{ExtList, Extension};
use cms_line::{ConsoleLine, Line, LineFault, Message};
use cms_search::{End, State, refuse, turn};
use cms_world::World;
use std::alloc::Global;

// The return code of a line that is refused.
const BAD_LINE: i32 = 20;

// What CMS takes.
#[derive(Drop)]
enum Taken {
    /// a line of the stack or the console
    Text(Line),
    /// a line with a character that isn't printable
    Bad,
    /// the beginning of a line of more than 255 bytes
    Long,
    /// a further piece of one
    Rest,
}

// What a console gives; none at the script's end.
fn from_console(line: ConsoleLine) -> Option<Taken>
    ensures { option_map item_in result ≡ item_of line }
{
    match line {
        ConsoleLine::Text(line) => Some(Taken::Text(line)),
        ConsoleLine::Bad => Some(Taken::Bad),
        ConsoleLine::Long => Some(Taken::Long),
        ConsoleLine::Rest => Some(Taken::Rest),
        ConsoleLine::End => None,
    }
}

// The next stacked line, else what the console gives next.
fn take<W: World>(world: &mut W, state: &mut State) -> Result<Option<Taken>, End>
    ensures acts { Acts (spot W.World world.old state.old) (spot W.World world.new state.new)
        (taking_tree state.old) result (beside state.new (option_map item_in)) }
    ensures kept { state.new ≡ record state.old {
      console = state.new.console;
      stack = state.new.stack;
    } }
{
    if let Some(line) = state.stack.pop() {
        return Ok(Some(Taken::Text(line)));
    }
    match state.console.next(world) {
        Ok(line) => Ok(from_console(line)),
        Err(LineFault::World) => Err(End::Edge),
        Err(LineFault::Memory) => Err(End::Memory),
    }
}

// Runs a line.
fn run_line<W: World>(
    alloc: Global,
    world: &mut W,
    session: &mut Session,
    extensions: &mut ExtList,
    line: &Line,
) -> Result<Round, End>
    requires usable { IsUsable (spot W.World world.old session.old.state) }
    requires moment { is_moment session.old.state.moment ≡ true }
    requires offset { IsOffset session.old.state.offset }
    ensures acts { Acts (spot_with W.World world.old session.old.state
        (objects_of ⟦<dyn Extension as Extension>⟧ extensions.old))
        (spot_with W.World world.new session.new.state
        (objects_of ⟦<dyn Extension as Extension>⟧ extensions.new))
        (line_tree session.old (objects_of ⟦<dyn Extension as Extension>⟧ extensions.old) line.now)
        result (passed_of session.new (objects_of ⟦<dyn Extension as Extension>⟧ extensions.new)) }
    ensures offset { session.new.state.offset ≡ session.old.state.offset }
    ensures left { session.new.state.left ≤ session.old.state.left }
{
    if is_comment(line.bytes()) {
        return Ok(Round::Ready);
    }
    let running = session.procedures.len();
    let issued = take_up(
        alloc,
        world,
        &mut session.state,
        extensions,
        &mut session.reader,
        running,
        line,
    )?;
    answer(alloc, world, session, issued)
}

// Types why a line is refused.
fn refuse_taken<W: World>(
    alloc: Global,
    world: &mut W,
    session: &mut Session,
    message: Message,
) -> Result<Round, End>
    ensures acts { Acts (spot W.World world.old session.old.state)
        (spot W.World world.new session.new.state)
        (refused_tree session.old message) result (round_of session.new) }
    ensures reader { session.new.reader ≡ session.old.reader }
    ensures offset { session.new.state.offset ≡ session.old.state.offset }
    ensures left { session.new.state.left ≤ session.old.state.left }
{
    let course = refuse(alloc, world, message, BAD_LINE)?;
    answer(alloc, world, session, Issued::Came(course))
}

// Does what was taken; of a further piece of a long line nothing is typed.
fn run_taken<W: World>(
    alloc: Global,
    world: &mut W,
    session: &mut Session,
    extensions: &mut ExtList,
    item: Taken,
) -> Result<Round, End>
    requires usable { IsUsable (spot W.World world.old session.old.state) }
    requires moment { is_moment session.old.state.moment ≡ true }
    requires offset { IsOffset session.old.state.offset }
    ensures acts { Acts (spot_with W.World world.old session.old.state
        (objects_of ⟦<dyn Extension as Extension>⟧ extensions.old))
        (spot_with W.World world.new session.new.state
        (objects_of ⟦<dyn Extension as Extension>⟧ extensions.new))
        (item_tree session.old (objects_of ⟦<dyn Extension as Extension>⟧ extensions.old)
        (item_in item))
        result (passed_of session.new (objects_of ⟦<dyn Extension as Extension>⟧ extensions.new)) }
    ensures offset { session.new.state.offset ≡ session.old.state.offset }
    ensures left { session.new.state.left ≤ session.old.state.left }
{
    match item {
        Taken::Text(line) => run_line(alloc, world, session, extensions, &line),
        Taken::Bad => refuse_taken(alloc, world, session, Message::M010),
        Taken::Long => refuse_taken(alloc, world, session, Message::M011),
        Taken::Rest => Ok(Round::Ready),
    }
}

// Takes a line, spends a turn and does what the line asks for.
fn line_round<W: World>(
    alloc: Global,
    world: &mut W,
    session: &mut Session,
    extensions: &mut ExtList,
) -> Result<Round, End>
    requires usable { IsUsable (spot W.World world.old session.old.state) }
    requires offset { IsOffset session.old.state.offset }
    ensures acts { Acts (spot_with W.World world.old session.old.state
        (objects_of ⟦<dyn Extension as Extension>⟧ extensions.old))
        (spot_with W.World world.new session.new.state
        (objects_of ⟦<dyn Extension as Extension>⟧ extensions.new))
        (line_round_tree session.old (objects_of ⟦<dyn Extension as Extension>⟧ extensions.old))
        result (passed_of session.new (objects_of ⟦<dyn Extension as Extension>⟧ extensions.new)) }
    ensures offset { session.new.state.offset ≡ session.old.state.offset }
    ensures falls { IfOk result (λ round. round ≡ Ready
        → session.new.state.left < session.old.state.left) }
{
    let Some(item) = take(world, &mut session.state)? else {
        return Ok(Round::Ended(Finish::AtEnd));
    };
    if session.state.left == 0 {
        return Ok(Round::Ended(Finish::AtTurns));
    }
    turn(world, &mut session.state)?;
    run_taken(alloc, world, session, extensions, item)
}

/// A line of CMS, or where a procedure runs a statement of the newest.
pub fn run_round<W: World>(
    alloc: Global,
    world: &mut W,
    session: &mut Session,
    extensions: &mut ExtList,
) -> Result<Round, End>
    requires usable { IsUsable (spot W.World world.old session.old.state) }
    requires offset { IsOffset session.old.state.offset }
    ensures acts { Acts (spot_with W.World world.old session.old.state
        (objects_of ⟦<dyn Extension as Extension>⟧ extensions.old))
        (spot_with W.World world.new session.new.state
        (objects_of ⟦<dyn Extension as Extension>⟧ extensions.new))
        (round_tree session.old (objects_of ⟦<dyn Extension as Extension>⟧ extensions.old))
        result (passed_of session.new (objects_of ⟦<dyn Extension as Extension>⟧ extensions.new)) }
    ensures offset { session.new.state.offset ≡ session.old.state.offset }
    ensures falls { IfOk result (λ round. round ≡ Ready
        → session.new.state.left < session.old.state.left) }
{
    match session.procedures.pop() {
        Some(newest) => statement(alloc, world, session, extensions, newest),
        None => line_round(alloc, world, session, extensions),
    }
}
