// An empty volume is made on a unit of a table.
ghost use Rattle.std.specs.Prelude.{◌≡◌, ◌<◌, ℕ, true, length, slice_get, Some, IsSome};
ghost use Rattle.std.specs.Option.{ForSome};
ghost use Rattle.cms_fields.specs.Stamps.{is_stamp};
ghost use Rattle.cms_world.specs.Seen.{seen};
ghost use Rattle.cms_disk.specs.declared.unit.UnitInfo.{UnitInfo};
ghost use Rattle.cms_search.specs.Format.{FormatsUnit, MayFormat, answer_made, table_made};
ghost use Rattle.cms_search.specs.Tables.{place_of_device, unit_of_device};

use crate::table::AccessTable;
use cms_disk::{DiskFault, Minidisk};
use cms_fields::Stamp;
use cms_world::World;
use std::alloc::Global;

impl AccessTable {
    // Releases the unit in a place and the letter, and seats the disk that was made.
    fn take_made(
        &mut self,
        place: usize,
        letter: u8,
        made: Result<Minidisk, DiskFault>,
    ) -> Result<(), DiskFault>
        requires within { place < length self.old.units }
        requires letter { letter < 26 }
        ensures answer { result ≡ answer_made made }
        ensures table { (unit : UnitInfo) → slice_get self.old.units place ≡ Some unit
            → self.new ≡ table_made self.old place unit letter made }
    {
        match made {
            Ok(disk) => {
                self.seat_on(place, letter, None, disk);
                Ok(())
            }
            Err(DiskFault::Memory) => Err(DiskFault::Memory),
            Err(DiskFault::InDoubt) => {
                self.vacate(place, letter, true);
                Err(DiskFault::InDoubt)
            }
            Err(fault) => {
                self.vacate(place, letter, false);
                Err(fault)
            }
        }
    }

    /// Makes an empty volume on the unit of a device, with this volume id, in EBCDIC, and this stamp, and accesses it as the letter.
    /// The unit leaves its letter, and the letter its disk, also where the device fails.
    ///
    /// `Device` says that the device failed and the unit holds nothing; `InDoubt` that it failed and the unit is in doubt. `Memory` comes
    /// before anything is done.
    pub fn format<W: World>(
        &mut self,
        alloc: Global,
        world: &mut W,
        vdev: u16,
        letter: u8,
        volid: [u8; 6],
        stamp: &Stamp,
    ) -> Result<(), DiskFault>
        requires letter { letter < 26 }
        requires stamp { is_stamp stamp.now ≡ true }
        requires unit { IsSome (unit_of_device vdev self.old.units) }
        requires may { ForSome (unit_of_device vdev self.old.units) (MayFormat (W.told world.old)) }
        ensures formats { (place : ℕ) (unit : UnitInfo)
            → place_of_device vdev self.old.units ≡ Some place
            → slice_get self.old.units place ≡ Some unit
            → FormatsUnit (seen W.World world.old)
            (seen W.World world.new) self.old self.new place letter unit volid stamp.now result }
    {
        // callers ask for the device of a unit
        let Some(place) = self.place(vdev) else {
            return Err(DiskFault::NotFound);
        };
        let unit = self.unit_in(place);
        let made = Minidisk::make(alloc, world, &unit, volid, stamp);
        self.take_made(place, letter, made)
    }
}
