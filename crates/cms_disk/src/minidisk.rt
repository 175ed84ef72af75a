// A volume that is accessed.
ghost use Rattle.std.specs.Prelude.{◌≡◌, ◌↔◌, ◌⊎◌, ◌<◌, ◌≤◌, true, false, length, slice_get, Some, None, Err, IsSome, IsTrue, IfOk, IfErr, IfSome, OnOk, OnErr};
ghost use Rattle.std.specs.Option.{ForSome};
ghost use Rattle.cms_world.specs.Seen.{ChangesUnits, OnlyReads, seen};
ghost use Rattle.cms_journal.specs.Journal.{HasBlocks, contents_of};
ghost use Rattle.cms_fields.specs.Limits.{longest_record};
ghost use Rattle.cms_names.specs.declared.name.Name as names;
ghost use Rattle.cms_model.specs.LawsSizes.{IsWhole};
ghost use Rattle.cms_model.specs.LawsUpdates.{now};
ghost use Rattle.cms_model.specs.Trees.{image_of};
ghost use Rattle.cms_model.specs.declared.fault.OpenFault.TheVariants as failed;
ghost use Rattle.cms_edf.specs.FilesTold.{infos_in, space_of, stored_in};
ghost use Rattle.cms_held.specs.Kept.{IsSized, Keeps};
ghost use Rattle.cms_edf.specs.OpeningSteps.{OfImage};
ghost use Rattle.cms_disk.specs.Disks.{AnswersAccess, FirstIn, HasNone, HasStored, IsDevices, IsFileInfo, IsLeft, IsOn, IsQuiet, OpensIn, StartsAt, disk_on, place_of, synced, told_with};
ghost use Rattle.cms_disk.specs.declared.fault.AccessFault.TheVariants.{Open, Sync};
ghost use Rattle.cms_disk.specs.declared.fault.DiskFault.TheVariants.{Memory, NotFound};

use crate::cursor::Cursor;
use crate::fault::{AccessFault, DiskFault};
use crate::unit::UnitInfo;
use cms_edf::{FileInfo, Held, Space, open_volume};
use cms_names::Name;
use cms_world::World;
use std::alloc::Global;
use std::marker::Model;

/// An accessed volume. It holds all of it but the files' data.
#[derive(Drop)]
pub struct Minidisk {
    pub(crate) unit: UnitInfo,
    pub(crate) held: Held,
}

impl Model for Minidisk {
    ghost use Rattle.cms_disk.specs.Disks.{Accessed, IsVolumeOf};

    ghost Value = { Accessed };

    ghost view = { λ d. record { vdev = d.unit.vdev; writable = d.unit.writable; volume = d.held.volume; spare = d.held.spare } };

    ghost invariant = { λ d. IsVolumeOf d.unit d.held.volume };
}

impl Minidisk {
    /// Opens the volume on an attached unit. A unit in doubt is synced first: `Sync` says that this failed, and nothing was read. `Open`
    /// says why the volume doesn't open. The unit is left quiet, where it was quiet or is synced.
    pub fn access<W: World>(
        alloc: Global,
        world: &mut W,
        unit: &UnitInfo,
        doubt: bool,
    ) -> Result<Minidisk, AccessFault>
        requires blocks { ForSome (W.told world.old)
            (λ j. HasBlocks j.units unit.now.unit.number unit.now.unit.blocks unit.now.bsize) }
        ensures unit { IfOk result (IsOn unit.now) }
        ensures answers { OfImage (W.told world.new) unit.now.unit.number
            (λ image. AnswersAccess unit.now image result) }
        ensures left { ForSome (W.told world.new)
            (λ j. IsWhole (disk_on unit.now) (now j unit.now.unit.number)
            → (doubt ≡ false → IsQuiet (disk_on unit.now) j unit.now.unit.number)
            → IsLeft (disk_on unit.now) j unit.now.unit.number result) }
        ensures synced { OnOk result (W.told world.new
            ≡ synced doubt unit.now.unit.number (W.told world.old)) }
        ensures refused { IfErr result (λ e. W.told world.new
            ≡ told_with e doubt unit.now.unit.number (W.told world.old)) }
        ensures doubt { IfErr result (λ e. e ≡ Sync → doubt ≡ true) }
        ensures changes { ChangesUnits (seen W.World world.old)
            (seen W.World world.new) IsDevices result }
    {
        settle(world, unit, doubt)?;
        Minidisk::read(alloc, world, unit)
    }

    // The volume of a unit.
    fn read<W: World>(
        alloc: Global,
        world: &mut W,
        unit: &UnitInfo,
    ) -> Result<Minidisk, AccessFault>
        requires blocks { ForSome (W.told world.old)
            (λ j. HasBlocks j.units unit.now.unit.number unit.now.unit.blocks unit.now.bsize) }
        ensures unit { IfOk result (IsOn unit.now) }
        ensures answers { OfImage (W.told world.old) unit.now.unit.number
            (λ image. AnswersAccess unit.now image result) }
        ensures left { ForSome (W.told world.old)
            (λ j. IsWhole (disk_on unit.now) (now j unit.now.unit.number)
            → IsQuiet (disk_on unit.now) j unit.now.unit.number
            → IsLeft (disk_on unit.now) j unit.now.unit.number result) }
        ensures opened { IfErr result (λ e. e ≡ Sync → ⊥) }
        ensures reads { OnlyReads (seen W.World world.old) (seen W.World world.new)
            (Open failed.Device) result }
    {
        match open_volume(alloc, world, &unit.unit, unit.bsize) {
            Ok(held) => Ok(Minidisk { unit: *unit, held }),
            Err(fault) => Err(AccessFault::Open(fault)),
        }
    }

    /// How many files there are, at most 16,384.
    pub fn count(&self) -> u32
        ensures { result ≡ length self.now.volume.files }
    {
        self.held.count()
    }

    /// What is told of the file at a place, from 0 below their number: its numbers are those that a file may have.
    pub fn info(&self, nth: u32) -> FileInfo
        requires { nth < length self.now.volume.files }
        ensures info { slice_get (infos_in self.now.volume) nth ≡ Some result }
        ensures sound { IsFileInfo result }
        ensures kept { Keeps self.now.volume }
    {
        self.held.info(nth)
    }

    /// The number of bytes that the records of the file at a place, from 0 below the number of files, have as they are stored: at V with
    /// the two bytes of each one's length, at most 67,108,864.
    pub fn stored(&self, nth: u32) -> u32
        requires { nth < length self.now.volume.files }
        ensures stored { slice_get (stored_in self.now.volume) nth ≡ Some result }
        ensures sized { IfSome (slice_get (infos_in self.now.volume) nth)
            (λ info. IsSized info.format info.length info.count result) }
        ensures records { HasStored self.now nth result }
    {
        self.held.stored(nth)
    }

    /// The mode number of the file at a place.
    pub fn mode_number(&self, nth: u32) -> u8
        requires { nth < length self.now.volume.files }
        ensures told { IfSome (slice_get (infos_in self.now.volume) nth)
            (λ info. result ≡ info.number) }
        ensures fits { result ≤ 6 }
    {
        self.held.info(nth).number
    }

    /// The place of the file of a name, from 0; none exactly where no file has that name.
    pub fn find(&self, name: &Name) -> Option<u32>
        ensures { result ≡ place_of name.now self.now.volume }
    {
        self.held.find(name)
    }

    /// Whether a file has the name.
    pub fn has(&self, name: &Name) -> bool
        ensures { IsTrue result ↔ IsSome (place_of name.now self.now.volume) }
    {
        self.held.find(name).is_some()
    }

    /// Whether it may be written.
    pub fn is_writable(&self) -> bool
        ensures { result ≡ self.now.writable }
    {
        self.unit.writable
    }

    /// The volume id, the size of blocks, and how many there are and are free.
    pub fn space(&self) -> Space
        ensures { result ≡ space_of self.now.volume }
    {
        self.held.space()
    }

    /// Before the first record of the file of a name, of which none is longer than a record may be; `NotFound` exactly where no file has it.
    pub fn cursor(&self, alloc: Global, name: &Name) -> Result<Cursor, DiskFault>
        ensures start { IfOk result (StartsAt name.now self.now.volume) }
        ensures records { IfOk result (OpensIn self.now name.now) }
        ensures short { IfOk result (λ c. c.begun.longest ≤ longest_record) }
        ensures missing { IfErr result (λ e. e ≡ NotFound
            → place_of name.now self.now.volume ≡ None) }
        ensures absent { IfErr result (λ e. e ≡ NotFound → HasNone self.now name.now) }
        ensures none { place_of name.now self.now.volume ≡ None → result ≡ Err NotFound }
        ensures fault { IfErr result (λ e. (e ≡ NotFound) ⊎ (e ≡ Memory)) }
    {
        let place = self.place(name)?;
        self.cursor_at(alloc, place)
    }

    /// Before the first record of the file at a place, from 0 below the number of files, of which none is longer than a record may be; else
    /// there is no memory.
    pub fn cursor_at(&self, alloc: Global, place: u32) -> Result<Cursor, DiskFault>
        requires { place < length self.now.volume.files }
        ensures first { IfOk result (FirstIn self.now.volume place) }
        ensures records { IfOk result (λ c. (name : names.Name)
            → place_of name self.now.volume ≡ Some place → OpensIn self.now name c) }
        ensures short { IfOk result (λ c. c.begun.longest ≤ longest_record) }
        ensures kept { Keeps self.now.volume }
        ensures fault { IfErr result (λ e. e ≡ Memory) }
    {
        let info = self.held.info(place);
        let leaves = self.held.leaves(place);
        Cursor::new(alloc, self.unit.unit, self.unit.bsize, &info, leaves)
    }

    /// The place of the file of a name.
    pub(crate) fn place(&self, name: &Name) -> Result<u32, DiskFault>
        ensures place { IfOk result (λ k. place_of name.now self.now.volume ≡ Some k) }
        ensures within { IfOk result (λ k. k < length self.now.volume.files) }
        ensures kept { Keeps self.now.volume }
        ensures missing { OnErr result (place_of name.now self.now.volume ≡ None) }
        ensures absent { OnErr result (HasNone self.now name.now) }
        ensures fault { IfErr result (λ e. e ≡ NotFound) }
    {
        match self.held.find(name) {
            Some(place) => Ok(place),
            None => Err(DiskFault::NotFound),
        }
    }
}

// Syncs a unit that is in doubt.
fn settle<W: World>(world: &mut W, unit: &UnitInfo, doubt: bool) -> Result<(), AccessFault>
    requires blocks { ForSome (W.told world.old)
        (λ j. HasBlocks j.units unit.now.unit.number unit.now.unit.blocks unit.now.bsize) }
    ensures quiet { OnOk result (ForSome (W.told world.new)
        (λ j. (doubt ≡ false → IsQuiet (disk_on unit.now) j unit.now.unit.number)
        → IsQuiet (disk_on unit.now) j unit.now.unit.number)) }
    ensures blocks { ForSome (W.told world.new)
        (λ j. HasBlocks j.units unit.now.unit.number unit.now.unit.blocks unit.now.bsize) }
    ensures synced { OnOk result (W.told world.new
        ≡ synced doubt unit.now.unit.number (W.told world.old)) }
    ensures failed { IfErr result (λ e. (e ≡ Sync) × (doubt ≡ true)
        × (W.told world.new ≡ W.told world.old)) }
    ensures changes { ChangesUnits (seen W.World world.old)
        (seen W.World world.new) IsDevices result }
{
    if !doubt {
        return Ok(());
    }
    match world.sync(unit.unit.number) {
        Ok(()) => Ok(()),
        Err(_) => Err(AccessFault::Sync),
    }
}
