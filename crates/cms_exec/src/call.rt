// EXEC, and a line whose first word is the name of a procedure.
ghost use Rattle.std.specs.Prelude.{◌≡◌, IfOk};
ghost use Rattle.cms_search.specs.Calls.{Acts, IsUsable, machine_of, spot};
ghost use Rattle.cms_world.specs.Seen.{seen};
ghost use Rattle.cms_exec.specs.Exec as spec;
ghost use Rattle.cms_exec.specs.Searches.{IsThere};

use crate::refusals::refuse_no_procedure;
use crate::search::{FoundProcedure, find_procedure};
use crate::start::{Started, refused, start};
use cms_line::{Line, Token, Tokens};
use cms_names::Part;
use cms_operands::{Refusal, name, needed};
use cms_search::{End, State, refuse_line};
use cms_world::World;
use std::alloc::{AllocError, Global};

// The line from the word in a place on, as it was given.
fn line_from(alloc: Global, place: usize, line: &Line, words: &[Token]) -> Result<Line, AllocError>
    ensures { IfOk result (λ called. called ≡ spec.line_from place line.now words.now) }
{
    match words.get(place) {
        Some(word) => {
            let bytes = line.bytes();
            let start = usize::from(word.start).min(bytes.len());
            Line::of(alloc, &bytes[start..])
        }
        None => Line::of(alloc, &[]),
    }
}

// EXEC's operand.
#[tactic(auto, unfolding(crate::specs::Exec::exec_operand))]
fn exec_operand(words: &[Token]) -> Result<Part, Refusal>
    ensures { result ≡ spec.exec_operand words.now }
{
    let text = needed(words, 1)?;
    name(1, text)
}

// The procedure of a name begins, which is found first over all disks.
fn start_named<W: World>(
    alloc: Global,
    world: &mut W,
    state: &State,
    called: &Line,
    file: Part,
    running: usize,
) -> Result<Started, End>
    requires usable { IsUsable (spot W.World world.old state.now) }
    ensures { Acts (spot W.World world.old state.now) (spot W.World world.new state.now)
        (λ units. spec.start_named running (machine_of state.now units) called.now file) result
        (spec.started_of state.now) }
{
    match find_procedure(&state.table, file) {
        Some(found) => start(alloc, world, state, called, &found, running),
        None => refused(refuse_no_procedure(alloc, world, &file)),
    }
}

/// EXEC fn [words], where so many procedures run: the procedure begins, called by the line from its name on. It is refused, in this order,
/// without a name, with a bad one, where no disk has the procedure, where as many run as may, where the device fails, and where the file
/// is no procedure that can be run.
pub fn run_exec<W: World>(
    alloc: Global,
    world: &mut W,
    state: &State,
    line: &Line,
    words: &Tokens,
    running: usize,
) -> Result<Started, End>
    requires usable { IsUsable (spot W.World world.old state.now) }
    ensures { Acts (spot W.World world.old state.now) (spot W.World world.new state.now)
        (λ units. spec.exec_command running (machine_of state.now units) line.now words.now) result
        (spec.started_of state.now) }
{
    let called = line_from(alloc, 1, line, words.as_slice())?;
    match exec_operand(words.as_slice()) {
        Ok(file) => start_named(alloc, world, state, &called, file, running),
        Err(why) => refused(refuse_line(alloc, world, words.as_slice(), why)),
    }
}

/// A line whose first word is the name of the procedure that was found, where so many procedures run: it begins, called by the line from
/// that word on. It is refused, in this order, where as many run as may, where the device fails, and where the file is no procedure that
/// can be run.
pub fn run_called<W: World>(
    alloc: Global,
    world: &mut W,
    state: &State,
    line: &Line,
    words: &Tokens,
    found: &FoundProcedure,
    running: usize,
) -> Result<Started, End>
    requires usable { IsUsable (spot W.World world.old state.now) }
    requires there { IsThere state.now.table found.now }
    ensures { Acts (spot W.World world.old state.now) (spot W.World world.new state.now)
        (λ units. spec.call_command running
        (machine_of state.now units) line.now words.now found.now.file)
        result (spec.started_of state.now) }
{
    let called = line_from(alloc, 0, line, words.as_slice())?;
    start(alloc, world, state, &called, found, running)
}
