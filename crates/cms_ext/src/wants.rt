// What an extension wants is done.
ghost use Rattle.std.specs.Prelude.{◌≡◌, ◌≤◌, true};
ghost use Rattle.cms_fields.specs.Moments.{is_moment};
ghost use Rattle.cms_model.specs.Acts.{Done};
ghost use Rattle.cms_model.specs.Objects.{Went};
ghost use Rattle.cms_search.specs.Calls.{IsUsable, spot};
ghost use Rattle.cms_search.specs.Machine.{typing};
ghost use Rattle.cms_ext.specs.Calls.{Meets};
ghost use Rattle.cms_ext.specs.Extensions as spec;
ghost use Rattle.cms_ext.specs.Replies.{MayBe, want_of};

use crate::extension::{ExtReply, ExtWant};
use crate::file_read::get;
use crate::file_write::put;
use cms_search::{Asked, End, State, say_lines};
use cms_text::Lines;
use cms_world::World;
use std::alloc::Global;

/// What a want comes to.
#[derive(Drop)]
pub(crate) enum Met {
    /// the extension is told this
    Told(ExtReply),
    /// it is done, with this code
    Over(i32),
    /// no turn is left for the line that it asks for
    NoTurns,
}

// Types the lines that an extension says.
fn say_all<W: World>(world: &mut W, state: &State, lines: &Lines) -> Result<Met, End>
    ensures { Meets (spot W.World world.old state.now) (spot W.World world.new state.now)
        (λ d. typing lines.now (Done (spec.Told d Went))) result }
{
    say_lines(world, lines)?;
    Ok(Met::Told(ExtReply::Went))
}

// Asks for the line that an extension asks for.
fn ask<W: World>(alloc: Global, world: &mut W, state: &mut State) -> Result<Met, End>
    ensures acts { Meets (spot W.World world.old state.old) (spot W.World world.new state.new)
        spec.asking result }
    ensures kept { state.new ≡ record state.old {
      stack = state.new.stack;
      console = state.new.console;
      left = state.new.left;
    } }
    ensures left { state.new.left ≤ state.old.left }
{
    match state.ask(alloc, world)? {
        Asked::Given(line) => Ok(Met::Told(ExtReply::Got(line))),
        Asked::Spent => Ok(Met::NoTurns),
    }
}

/// Does what an extension wants.
pub(crate) fn meet<W: World>(
    alloc: Global,
    world: &mut W,
    state: &mut State,
    want: ExtWant,
) -> Result<Met, End>
    requires usable { IsUsable (spot W.World world.old state.old) }
    requires moment { is_moment state.old.moment ≡ true }
    requires may { MayBe want }
    ensures acts { Meets (spot W.World world.old state.old) (spot W.World world.new state.new)
        (λ d. spec.meeting d (want_of want)) result }
    ensures kept { state.new ≡ record state.old {
      table = state.new.table;
      stack = state.new.stack;
      console = state.new.console;
      places = state.new.places;
      left = state.new.left;
    } }
    ensures left { state.new.left ≤ state.old.left }
{
    match want {
        ExtWant::Say(lines) => say_all(world, state, &lines),
        ExtWant::Ask => ask(alloc, world, state),
        ExtWant::Get(name, letter) => get(alloc, world, state, &name, letter),
        ExtWant::Put(name, letter, records) => put(alloc, world, state, &name, letter, &records),
        ExtWant::Done(code) => Ok(Met::Over(code)),
    }
}
