// An extension is asked until it is done.
ghost use Rattle.std.specs.Prelude.{◌≡◌, ◌≤◌, true, OnOk};
ghost use Rattle.cms_fields.specs.Moments.{is_moment};
ghost use Rattle.cms_fields.specs.Offsets.{IsOffset};
ghost use Rattle.cms_search.specs.Calls.{Acts, IsUsable, spot, spot_with};
ghost use Rattle.cms_ext.specs.Calls.{desk_of, ended_of, met_of, run_tree};
ghost use Rattle.cms_ext.specs.Extensions.{round};
ghost use Rattle.cms_ext.specs.Objects.{HasPlace, objects_of, words_of};
ghost use Rattle.cms_ext.specs.Replies.{reply_of};

use crate::extension::{ExtReply, Extension};
use crate::list::ExtList;
use crate::wants::{Met, meet};
use cms_search::{Course, End, State, turn};
use cms_world::World;
use std::alloc::Global;

// Asks the extension in a place, and does what it wants.
fn round<W: World>(
    alloc: Global,
    world: &mut W,
    state: &mut State,
    list: &mut ExtList,
    place: u32,
    reply: &ExtReply,
) -> Result<Met, End>
    requires usable { IsUsable (spot W.World world.old state.old) }
    requires moment { is_moment state.old.moment ≡ true }
    requires there { HasPlace place (objects_of ⟦<dyn Extension as Extension>⟧ list.old) }
    ensures acts { Acts
        (spot_with W.World world.old state.old (objects_of ⟦<dyn Extension as Extension>⟧ list.old))
        (spot_with W.World world.new state.new (objects_of ⟦<dyn Extension as Extension>⟧ list.new))
        (λ units. round place
        (desk_of state.old (objects_of ⟦<dyn Extension as Extension>⟧ list.old) units)
        (reply_of reply.now))
        result (met_of state.new (objects_of ⟦<dyn Extension as Extension>⟧ list.new)) }
    ensures words { words_of (objects_of ⟦<dyn Extension as Extension>⟧ list.new)
        ≡ words_of (objects_of ⟦<dyn Extension as Extension>⟧ list.old) }
    ensures kept { state.new ≡ record state.old {
      table = state.new.table;
      stack = state.new.stack;
      console = state.new.console;
      places = state.new.places;
      left = state.new.left;
    } }
    ensures left { state.new.left ≤ state.old.left }
{
    let want = list.ask(alloc, place, reply)?;
    meet(alloc, world, state, want)
}

/// Runs the extension in a place of the list, which is told this first. What it wants is done, and it is asked again with the reply, until
/// it is done, with its code. Each time but the first costs a turn, with a moment of its own; no turn may be left for one.
pub fn run<W: World>(
    alloc: Global,
    world: &mut W,
    state: &mut State,
    list: &mut ExtList,
    place: u32,
    reply: ExtReply,
) -> Result<Course, End>
    requires usable { IsUsable (spot W.World world.old state.old) }
    requires moment { is_moment state.old.moment ≡ true }
    requires offset { IsOffset state.old.offset }
    requires there { HasPlace place (objects_of ⟦<dyn Extension as Extension>⟧ list.old) }
    ensures acts { Acts
        (spot_with W.World world.old state.old (objects_of ⟦<dyn Extension as Extension>⟧ list.old))
        (spot_with W.World world.new state.new (objects_of ⟦<dyn Extension as Extension>⟧ list.new))
        (run_tree state.old (objects_of ⟦<dyn Extension as Extension>⟧ list.old) place
        (reply_of reply))
        result (ended_of state.new (objects_of ⟦<dyn Extension as Extension>⟧ list.new)) }
    ensures words { words_of (objects_of ⟦<dyn Extension as Extension>⟧ list.new)
        ≡ words_of (objects_of ⟦<dyn Extension as Extension>⟧ list.old) }
    ensures kept { state.new ≡ record state.old {
      table = state.new.table;
      stack = state.new.stack;
      console = state.new.console;
      places = state.new.places;
      moment = state.new.moment;
      left = state.new.left;
    } }
    ensures moment { OnOk result (is_moment state.new.moment ≡ true) }
    ensures left { state.new.left ≤ state.old.left }
{
    let mut reply = reply;
    loop {
        let met = round(alloc, world, state, list, place, &reply);
        drop(reply);
        match met? {
            Met::Told(next) => reply = next,
            Met::Over(code) => return Ok(Course::Went(code)),
            Met::NoTurns => return Ok(Course::OutOfTurns),
        }
        if state.left == 0 {
            drop(reply);
            return Ok(Course::OutOfTurns);
        }
        if let Err(end) = turn(world, state) {
            drop(reply);
            return Err(end);
        }
    }
}
