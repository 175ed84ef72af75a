// How EXECIO runs.
ghost use Rattle.std.specs.Prelude.{◌≡◌, ◌≤◌, true};
ghost use Rattle.cms_fields.specs.Moments.{is_moment};
ghost use Rattle.cms_search.specs.Calls.{Acts, IsUsable, course_of, machine_of, spot};
ghost use Rattle.cms_execio.specs.Execio as spec;

use crate::diskr::disk_read;
use crate::diskw::disk_write;
use crate::line::{ExecioLine, execio_line};
use cms_line::{Line, Tokens};
use cms_search::{Course, End, State, refuse_command};
use cms_world::World;
use std::alloc::Global;

// Does what the line says.
fn transfer<W: World>(
    alloc: Global,
    world: &mut W,
    state: &mut State,
    words: &Tokens,
    line: ExecioLine,
) -> Result<Course, End>
    requires usable { IsUsable (spot W.World world.old state.old) }
    requires moment { is_moment state.old.moment ≡ true }
    ensures acts { Acts (spot W.World world.old state.old) (spot W.World world.new state.new)
        (λ units. spec.transferring (machine_of state.old units) words.now line) result
        (course_of state.new) }
    ensures kept { state.new ≡ record state.old {
      table = state.new.table;
      stack = state.new.stack;
      console = state.new.console;
      places = state.new.places;
      left = state.new.left;
    } }
    ensures left { state.new.left ≤ state.old.left }
{
    match line {
        ExecioLine::Read(read) => disk_read(alloc, world, state, words, &read),
        ExecioLine::Write(target, text) => disk_write(alloc, world, state, words, &target, text),
    }
}

/// EXECIO, on a line and its words: records of a file are stacked, or lines are written into one.
pub fn run_execio<W: World>(
    alloc: Global,
    world: &mut W,
    state: &mut State,
    line: &Line,
    words: &Tokens,
) -> Result<Course, End>
    requires usable { IsUsable (spot W.World world.old state.old) }
    requires moment { is_moment state.old.moment ≡ true }
    ensures acts { Acts (spot W.World world.old state.old) (spot W.World world.new state.new)
        (λ units. spec.execio (machine_of state.old units) line.now words.now) result
        (course_of state.new) }
    ensures kept { state.new ≡ record state.old {
      table = state.new.table;
      stack = state.new.stack;
      console = state.new.console;
      places = state.new.places;
      left = state.new.left;
    } }
    ensures left { state.new.left ≤ state.old.left }
{
    match execio_line(alloc, line, words) {
        Ok(said) => transfer(alloc, world, state, words, said),
        Err(fault) => refuse_command(alloc, world, words, fault),
    }
}
