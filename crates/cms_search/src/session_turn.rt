// A turn of the session.
ghost use Rattle.std.specs.Prelude.{◌≡◌, ◌<◌, suc, true, OnOk};
ghost use Rattle.cms_fields.specs.Moments.{is_moment};
ghost use Rattle.cms_fields.specs.Offsets.{IsOffset};
ghost use Rattle.cms_search.specs.Calls.{spot, Acts};
ghost use Rattle.cms_world.specs.Seen.{seen};
ghost use Rattle.cms_search.specs.Turns.{machine_now, turning_tree};

use crate::asked_line::clock;
use crate::state::{End, State};
use cms_fields::Moment;
use cms_world::World;

/// Spends a turn, and asks the clock once for its moment.
pub fn turn<W: World>(world: &mut W, state: &mut State) -> Result<(), End>
    requires left { 0 < state.old.left }
    requires offset { IsOffset state.old.offset }
    ensures acts { Acts (spot W.World world.old state.old) (spot W.World world.new state.new)
        (turning_tree state.old state.new.left) result (machine_now state.new) }
    ensures kept { state.new ≡ record state.old {
      moment = state.new.moment;
      left = state.new.left;
    } }
    ensures left { state.old.left ≡ suc state.new.left }
    ensures moment { OnOk result (is_moment state.new.moment ≡ true) }
{
    state.left -= 1;
    state.moment = Moment::of_epoch(clock(world)?, state.offset);
    Ok(())
}
