// The moment of a command.
ghost use Rattle.std.specs.Prelude.{◌≡◌, ℕ, true, IfOk};
ghost use Rattle.cms_fields.specs.Offsets.{IsOffset};
ghost use Rattle.cms_fields.specs.Stamps.{is_stamp};
ghost use Rattle.cms_journal.specs.Told.{Grown};
ghost use Rattle.cms_disk.specs.Disks.{Accessed};
ghost use Rattle.mini_work.specs.Causes.{HasCause, on_world};
ghost use Rattle.mini_work.specs.Changes.{Asks, IsAsked};
ghost use Rattle.mini_work.specs.CommandActs.{Continues};

use crate::fault::Fault;
use cms_fields::{Moment, Stamp};
use cms_world::World;

/// The stamp of the clock's moment, where civil time is `offset` seconds ahead of it.
pub(crate) fn ask_clock<W: World>(world: &mut W, offset: i32) -> Result<Stamp, Fault>
    requires { IsOffset offset }
    ensures goes { (d : Accessed)
        → Continues (IsAsked offset) (W.told world.old) d (W.told world.new) d result }
    ensures asks { Asks offset (W.told world.old) (W.told world.new) result }
    ensures stamp { IfOk result (λ stamp. is_stamp stamp ≡ true) }
    ensures grown { Grown (W.told world.old) (W.told world.new) }
    ensures cause { (n : ℕ) → HasCause (on_world W.World world.old n)
        (on_world W.World world.new n) result }
{
    match world.now() {
        Ok(seconds) => Ok(Stamp::of(&Moment::of_epoch(seconds, offset))),
        Err(_) => Err(Fault::Clock),
    }
}
