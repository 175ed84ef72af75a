// Records that are added to a file.
ghost use Rattle.std.specs.Prelude.{◌≡◌, ◌⊎◌, ◌+◌, ℕ, List, true, false, None, Some, Err, length, slice_get, ◌<◌, IfErr, IfOk, OnErr, OnOk};
ghost use Rattle.std.specs.Option.{ForSome};
ghost use Rattle.cms_journal.specs.Journal.{Journal, IsWritable};
ghost use Rattle.cms_world.specs.Seen.{seen};
ghost use Rattle.cms_fields.specs.Limits.{most_records};
ghost use Rattle.cms_fields.specs.Stamps.{is_stamp};
ghost use Rattle.cms_model.specs.Minidisks as minidisks;
ghost use Rattle.cms_model.specs.Changes.{Add};
ghost use Rattle.cms_model.specs.Records.{IsValid, StandsFor};
ghost use Rattle.cms_held.specs.Kept.{Keeps};
ghost use Rattle.cms_edf.specs.FilesTold.{infos_in, stored_in};
ghost use Rattle.cms_edf.specs.declared.held.FileInfo as infos;
ghost use Rattle.cms_disk.specs.Additions.{CanExtend, FitsFile, FitsInfo, IsAddFault, IsTold, shape_with};
ghost use Rattle.cms_disk.specs.Changes.{Appends, ChangesDisk, IsPutIn};
ghost use Rattle.cms_disk.specs.Disks.{IsMinidisk, IsReadable, place_of};
ghost use Rattle.cms_disk.specs.declared.fault.DiskFault.TheVariants.{Limit, NotFound, ReadOnly};

use crate::fault::DiskFault;
use crate::minidisk::Minidisk;
use crate::put::put_records;
use cms_edf::{DraftShape, FileData};
use cms_fields::Stamp;
use cms_names::Name;
use cms_world::World;
use std::alloc::Global;

// The limit of a file's records, among those of a minidisk.
const RECORDS_LIMIT: u32 = 2;

impl Minidisk {
    // The shape of the file at a place with these records behind its own. More of them than a number of 32 bits counts are past the limit
    // of a file's records.
    fn shape_with(&self, place: u32, more: &FileData) -> Result<DraftShape, DiskFault>
        requires place { place < length self.now.volume.files }
        requires more { IsValid more.now }
        requires fits { (info : infos.FileInfo)
            → slice_get (infos_in self.now.volume) place ≡ Some info → FitsInfo info more.now }
        ensures shape { IfOk result (λ shape. (info : infos.FileInfo) (bytes : ℕ)
            → slice_get (infos_in self.now.volume) place ≡ Some info
            → slice_get (stored_in self.now.volume) place ≡ Some bytes
            → shape ≡ shape_with info bytes more.now) }
        ensures can { IfOk result (λ shape. (info : infos.FileInfo) (bytes : ℕ)
            → slice_get (infos_in self.now.volume) place ≡ Some info
            → slice_get (stored_in self.now.volume) place ≡ Some bytes
            → CanExtend info bytes shape) }
        ensures kept { Keeps self.now.volume }
        ensures fault { IfErr result (λ e. e ≡ Limit 2) }
        ensures many { OnErr result ((info : infos.FileInfo)
            → slice_get (infos_in self.now.volume) place ≡ Some info
            → most_records < info.count + more.now.count) }
    {
        let info = self.info(place);
        let stored = self.stored(place);
        let Some(count) = info.count.checked_add(more.count) else {
            return Err(DiskFault::Limit(RECORDS_LIMIT));
        };
        Ok(DraftShape {
            format: info.format,
            length: info.length.max(more.length),
            number: info.number,
            stamp: more.stamp,
            count,
            bytes: u64::from(stored) + more.bytes.bytes().len() as u64,
        })
    }

    /// Adds records to the file of a name, of its format and, where all have one length, its length. The file keeps its mode number and
    /// takes the stamp of the records' data; the new directory has the stamp that is given. What stands of the file is kept but for its
    /// last data block, where that isn't full, and the pointer blocks over it.
    ///
    /// The refusals are those of `draft_more`. `Device` says that the device failed and the minidisk is as before, `InDoubt` that it
    /// failed and the unit holds the minidisk of before or the new one.
    pub fn append<W: World>(
        &mut self,
        alloc: Global,
        world: &mut W,
        name: &Name,
        more: &FileData,
        stamp: &Stamp,
    ) -> Result<(), DiskFault>
        requires stamp { is_stamp stamp.now ≡ true }
        requires more { IsValid more.now }
        requires fits { FitsFile self.old.volume name.now more.now }
        requires blocks { ForSome (W.told world.old) (λ j. IsReadable j self.old) }
        requires writable { self.old.writable ≡ true
            → ForSome (W.told world.old) (λ j. IsWritable j.units self.old.volume.unit) }
        ensures appends { (j : Journal) (m : minidisks.Minidisk) (records : List (List ℕ))
            → W.told world.old ≡ Some j
            → IsMinidisk j self.old m → StandsFor more.now records
            → Appends (W.told world.old) (W.told world.new) self.old self.new m
            (Add name.now records more.now.stamp) stamp.now result }
        ensures holds { OnOk result ((info : infos.FileInfo) (bytes : ℕ)
            → IsTold self.old.volume name.now info bytes
            → IsPutIn self.old.volume name.now (shape_with info bytes more.now) self.new.volume) }
        ensures fault { IfErr result (IsAddFault self.old name.now more.now) }
        ensures missing { IfErr result (λ e. e ≡ NotFound
            → place_of name.now self.old.volume ≡ None) }
        ensures absent { place_of name.now self.old.volume ≡ None → result ≡ Err NotFound }
        ensures read_only { IfErr result (λ e. e ≡ ReadOnly → self.old.writable ≡ false) }
        ensures locked { self.old.writable ≡ false → (result ≡ Err NotFound)
            ⊎ (result ≡ Err ReadOnly) }
        ensures changes { ChangesDisk (seen W.World world.old)
            (seen W.World world.new) self.old self.new result }
    {
        let place = self.place(name)?;
        self.append_at(alloc, world, place, name, more, stamp)
    }

    /// The same where the place of the file of that name is known.
    pub fn append_at<W: World>(
        &mut self,
        alloc: Global,
        world: &mut W,
        place: u32,
        name: &Name,
        more: &FileData,
        stamp: &Stamp,
    ) -> Result<(), DiskFault>
        requires stamp { is_stamp stamp.now ≡ true }
        requires more { IsValid more.now }
        requires there { place_of name.now self.old.volume ≡ Some place }
        requires fits { FitsFile self.old.volume name.now more.now }
        requires blocks { ForSome (W.told world.old) (λ j. IsReadable j self.old) }
        requires writable { self.old.writable ≡ true
            → ForSome (W.told world.old) (λ j. IsWritable j.units self.old.volume.unit) }
        ensures appends { (j : Journal) (m : minidisks.Minidisk) (records : List (List ℕ))
            → W.told world.old ≡ Some j
            → IsMinidisk j self.old m → StandsFor more.now records
            → Appends (W.told world.old) (W.told world.new) self.old self.new m
            (Add name.now records more.now.stamp) stamp.now result }
        ensures holds { OnOk result ((info : infos.FileInfo) (bytes : ℕ)
            → IsTold self.old.volume name.now info bytes
            → IsPutIn self.old.volume name.now (shape_with info bytes more.now) self.new.volume) }
        ensures fault { IfErr result (IsAddFault self.old name.now more.now) }
        ensures read_only { IfErr result (λ e. e ≡ ReadOnly → self.old.writable ≡ false) }
        ensures locked { self.old.writable ≡ false → result ≡ Err ReadOnly }
        ensures changes { ChangesDisk (seen W.World world.old)
            (seen W.World world.new) self.old self.new result }
    {
        if !self.is_writable() {
            return Err(DiskFault::ReadOnly);
        }
        let shape = self.shape_with(place, more)?;
        let mut draft = self.draft_more_at(alloc, world, place, name, &shape, stamp)?;
        match put_records(world, &mut draft, more) {
            Ok(()) => self.commit(world, draft),
            Err(fault) => {
                drop(draft);
                Err(fault)
            }
        }
    }
}
