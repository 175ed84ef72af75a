// The end of an update, and what is left where one is cut off.
ghost use Rattle.std.specs.Prelude.{◌≡◌, ◌⊎◌, ◌≤◌, ◌∷◌, [], length, OnOk, OnErr, IfErr};
ghost use Rattle.std.specs.Option.{ForSome};
ghost use Rattle.cms_journal.specs.Journal.{HasBlocks, IsWritable, MayAdd};
ghost use Rattle.cms_journal.specs.declared.event.Event.TheVariants.{Wrote};
ghost use Rattle.cms_journal.specs.Told.{plus};
ghost use Rattle.cms_model.specs.LawsUpdates.{relabel};
ghost use Rattle.cms_edf.specs.Doubts.{Updates};
ghost use Rattle.cms_edf.specs.declared.doubt.Doubt.TheVariants.{Either};
ghost use Rattle.cms_world.specs.Seen.{OnUnits, seen};

use crate::blocks::LABEL;
use cms_journal::BlockSize;
use cms_world::{Failed, World};

/// What a crash may find where an update was cut off.
#[derive(Clone, Copy)]
pub enum Doubt {
    /// the old volume
    Old,
    /// the old volume or the new one
    Either,
}

/// Writes the block of a label, and syncs. Its only refusal is `Either`: the block may have been written, and nothing was synced.
pub fn write_label_block<W: World>(world: &mut W, unit: u8, bytes: &[u8]) -> Result<(), Doubt>
    requires blocks { ForSome (W.told world.old)
        (λ j. HasBlocks j.units unit 3 (length bytes.now)) }
    requires writable { ForSome (W.told world.old) (λ j. IsWritable j.units unit) }
    ensures done { OnOk result (W.told world.new
        ≡ plus (W.told world.old) (relabel unit bytes.now)) }
    ensures either { IfErr result (λ why. why ≡ Either) }
    ensures cut_off { OnErr result (MayAdd (Wrote unit 3 bytes.now) (W.told world.old)
        (W.told world.new)) }
    ensures counts { OnUnits (seen W.World world.old) (seen W.World world.new) result }
{
    match world.write_block(unit, LABEL, bytes) {
        Ok(()) => {}
        Err(Failed) => return Err(Doubt::Either),
    }
    match world.sync(unit) {
        Ok(()) => Ok(()),
        Err(Failed) => Err(Doubt::Either),
    }
}

/// Syncs, writes the label, and syncs: the end of an update of no more writes.
#[tactic(auto, using(cms_held::proofs::Fronts::front_none))]
pub fn confirm<W: World>(
    world: &mut W,
    unit: u8,
    bsize: BlockSize,
    label: &[u8],
) -> Result<(), Doubt>
    requires size { length label.now ≡ bsize }
    requires blocks { ForSome (W.told world.old) (λ j. HasBlocks j.units unit 3 bsize) }
    requires writable { ForSome (W.told world.old) (λ j. IsWritable j.units unit) }
    ensures updates { Updates (W.told world.old) (W.told world.new) unit [] label.now result }
    ensures counts { OnUnits (seen W.World world.old) (seen W.World world.new) result }
{
    match world.sync(unit) {
        Ok(()) => write_label_block(world, unit, label),
        Err(Failed) => Err(Doubt::Old),
    }
}
