// An empty minidisk is made.
ghost use Rattle.std.specs.Prelude.{◌≡◌, ◌≤◌, true, Some, IfOk, IfErr};
ghost use Rattle.std.specs.Option.{ForSome};
ghost use Rattle.cms_journal.specs.Journal.{Journal, HasBlocks, IsWritable};
ghost use Rattle.cms_fields.specs.Stamps.{is_stamp};
ghost use Rattle.cms_model.specs.Minidisks.{State};
ghost use Rattle.cms_world.specs.Seen.{ChangesUnits, seen};
ghost use Rattle.cms_disk.specs.Changes.{IsDevices};
ghost use Rattle.cms_disk.specs.Disks.{IsOn};
ghost use Rattle.cms_disk.specs.EmptyMinidisks.{Formats, GrownOf, IsEmptyOn, IsMakeFault, IsReady, LeavesQuiet};
ghost use Rattle.cms_disk.specs.declared.fault.DiskFault.TheVariants.{Memory};

use crate::fault::DiskFault;
use crate::minidisk::Minidisk;
use crate::unit::UnitInfo;
use cms_edf::{make, plan_make, wipe};
use cms_fields::Stamp;
use cms_world::World;
use std::alloc::Global;

impl Minidisk {
    /// Makes an empty minidisk of all blocks that are told of an attached unit that may be written, 8 at least: with this volume id, in
    /// EBCDIC, and this stamp. What the unit held is lost.
    ///
    /// The unit is wiped first. `Memory` comes before that. `Device` says that the device failed behind it, and the unit is wiped;
    /// `InDoubt` that it failed in the wiping, so that the unit holds what it held or nothing, or with the last write, so that it
    /// holds nothing or the empty minidisk. The unit is left quiet, where it was quiet, but for `InDoubt`.
    pub fn make<W: World>(
        alloc: Global,
        world: &mut W,
        unit: &UnitInfo,
        volid: [u8; 6],
        stamp: &Stamp,
    ) -> Result<Minidisk, DiskFault>
        requires least { 8 ≤ unit.now.unit.blocks }
        requires stamp { is_stamp stamp.now ≡ true }
        requires blocks { ForSome (W.told world.old)
            (λ j. HasBlocks j.units unit.now.unit.number unit.now.unit.blocks unit.now.bsize) }
        requires writable { ForSome (W.told world.old)
            (λ j. IsWritable j.units unit.now.unit.number) }
        ensures unit { IfOk result (IsOn unit.now) }
        ensures empty { IfOk result (IsEmptyOn unit.now volid) }
        ensures formats { (j : Journal) (before : State) → W.told world.old ≡ Some j
            → IsReady j unit.now before
            → Formats (W.told world.old) (W.told world.new) unit.now before volid stamp.now result }
        ensures quiet { (j : Journal) (before : State) → W.told world.old ≡ Some j
            → IsReady j unit.now before
            → LeavesQuiet (W.told world.new) unit.now result }
        ensures fault { IfErr result IsMakeFault }
        ensures nothing { IfErr result (λ e. e ≡ Memory → W.told world.new ≡ W.told world.old) }
        ensures of_unit { GrownOf unit.now.unit.number (W.told world.old) (W.told world.new) }
        ensures changes { ChangesUnits (seen W.World world.old)
            (seen W.World world.new) IsDevices result }
    {
        let plan = plan_make(alloc, &unit.unit, unit.bsize, volid, stamp)?;
        match wipe(world, unit.unit.number, unit.bsize) {
            Ok(()) => {}
            Err(doubt) => {
                drop(plan);
                return Err(DiskFault::from(doubt));
            }
        }
        let held = make(world, plan)?;
        Ok(Minidisk { unit: *unit, held })
    }
}
