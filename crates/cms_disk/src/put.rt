// Files that are put into a minidisk whole.
ghost use Rattle.std.specs.Prelude.{◌≡◌, ◌++◌, [], ℕ, List, true, false, Some, Err, IfErr, OnOk};
ghost use Rattle.std.specs.Option.{ForSome};
ghost use Rattle.cms_journal.specs.Journal.{Journal, IsWritable};
ghost use Rattle.cms_journal.specs.Told.{Told};
ghost use Rattle.cms_world.specs.Seen.{ChangesUnits, seen};
ghost use Rattle.cms_fields.specs.Stamps.{is_stamp};
ghost use Rattle.cms_model.specs.Minidisks as minidisks;
ghost use Rattle.cms_model.specs.Changes as model;
ghost use Rattle.cms_model.specs.Changes.{Put};
ghost use Rattle.cms_fields.specs.declared.time.Stamp as stamps;
ghost use Rattle.cms_model.specs.Records.{IsValid, StandsFor};
ghost use Rattle.cms_held.specs.BlockWriters.{CanWrite};
ghost use Rattle.cms_held.specs.Puts.{count_put, limit_put};
ghost use Rattle.cms_edf.specs.FileDrafts.{CanDraft};
ghost use Rattle.cms_disk.specs.Changes.{Alters, ChangesDisk, IsDevices, IsPutIn};
ghost use Rattle.cms_disk.specs.Disks.{Accessed, IsMinidisk, IsReadable, place_of};
ghost use Rattle.cms_disk.specs.Drafts.{AreLast, GoesOn, IsFull, IsPutFault, IsSameDraft, PutsRecord, file_with, shape_of};
ghost use Rattle.cms_disk.specs.declared.fault.DiskFault.TheVariants.{Device, Limit, ReadOnly};

use crate::draft::put_record;
use crate::fault::DiskFault;
use crate::minidisk::Minidisk;
use cms_edf::{Draft, DraftShape, FileData};
use cms_fields::Stamp;
use cms_names::Name;
use cms_records::Records;
use cms_world::World;
use std::alloc::Global;

// The shape of a file.
fn shape_of(file: &FileData) -> DraftShape
    requires { IsValid file.now }
    ensures shape { result ≡ shape_of file.now }
    ensures can { CanDraft result }
{
    DraftShape {
        format: file.format,
        length: file.length,
        number: file.number,
        stamp: file.stamp,
        count: file.count,
        bytes: file.bytes.bytes().len() as u64,
    }
}

// Puts the records of a file, the last of a draft.
pub(crate) fn put_records<W: World>(
    world: &mut W,
    draft: &mut Draft,
    file: &FileData,
) -> Result<(), DiskFault>
    requires file { IsValid file.now }
    requires last { AreLast draft.old.writer file.now }
    requires ready { ForSome (W.told world.old) (λ j. CanWrite j.units draft.old.writer.writer) }
    ensures puts { (start : Told) (d : Accessed) (m : minidisks.Minidisk) (change : model.Change)
        (stamp : stamps.Stamp)
        (done records : List (List ℕ)) → StandsFor file.now records
        → GoesOn start (W.told world.old) d m draft.old change stamp done records
        → PutsRecord start (W.told world.new) d m draft.new change stamp
        (done ++ records) [] result }
    ensures full { OnOk result (IsFull draft.new.writer) }
    ensures same { IsSameDraft draft.old draft.new }
    ensures still { ForSome (W.told world.new) (λ j. CanWrite j.units draft.new.writer.writer) }
    ensures fault { IfErr result (λ e. e ≡ Device) }
    ensures changes { ChangesUnits (seen W.World world.old)
        (seen W.World world.new) IsDevices result }
{
    for text in Records::of(file) {
        put_record(world, draft, text)?;
    }
    Ok(())
}

impl Minidisk {
    /// Puts a file of a name: it takes the place of the file of that name, or stands last. The new directory has the stamp that is given,
    /// the file that of its data.
    ///
    /// `ReadOnly` comes exactly where the minidisk may not be written; else `Limit` exactly where the file passes one, the lowest of
    /// them; else `Full` exactly where it needs more blocks than are free. `Device` says that the device failed and the minidisk is as
    /// before, `InDoubt` that it failed and the unit holds the minidisk of before or the new one.
    pub fn put<W: World>(
        &mut self,
        alloc: Global,
        world: &mut W,
        name: &Name,
        file: &FileData,
        stamp: &Stamp,
    ) -> Result<(), DiskFault>
        requires stamp { is_stamp stamp.now ≡ true }
        requires file { IsValid file.now }
        requires blocks { ForSome (W.told world.old) (λ j. IsReadable j self.old) }
        requires writable { self.old.writable ≡ true
            → ForSome (W.told world.old) (λ j. IsWritable j.units self.old.volume.unit) }
        ensures alters { (j : Journal) (m : minidisks.Minidisk) (records : List (List ℕ))
            → W.told world.old ≡ Some j
            → IsMinidisk j self.old m → StandsFor file.now records
            → Alters (W.told world.old) (W.told world.new) self.old self.new m
            (Put (file_with name.now (shape_of file.now) records))
            stamp.now result }
        ensures holds { OnOk result (IsPutIn self.old.volume name.now
            (shape_of file.now) self.new.volume) }
        ensures fault { IfErr result (IsPutFault self.old name.now (shape_of file.now)) }
        ensures read_only { IfErr result (λ e. e ≡ ReadOnly → self.old.writable ≡ false) }
        ensures locked { self.old.writable ≡ false → result ≡ Err ReadOnly }
        ensures limited { self.old.writable ≡ true → (which : ℕ)
            → limit_put (count_put self.old.volume name.now)
            (shape_of file.now).count (shape_of file.now).bytes ≡ Some which
            → result ≡ Err (Limit which) }
        ensures changes { ChangesDisk (seen W.World world.old)
            (seen W.World world.new) self.old self.new result }
    {
        let there = self.find(name);
        self.put_at(alloc, world, there, name, file, stamp)
    }

    /// The same where the place of the file of that name is known, or that there is none.
    pub fn put_at<W: World>(
        &mut self,
        alloc: Global,
        world: &mut W,
        there: Option<u32>,
        name: &Name,
        file: &FileData,
        stamp: &Stamp,
    ) -> Result<(), DiskFault>
        requires there { there ≡ place_of name.now self.old.volume }
        requires stamp { is_stamp stamp.now ≡ true }
        requires file { IsValid file.now }
        requires blocks { ForSome (W.told world.old) (λ j. IsReadable j self.old) }
        requires writable { self.old.writable ≡ true
            → ForSome (W.told world.old) (λ j. IsWritable j.units self.old.volume.unit) }
        ensures alters { (j : Journal) (m : minidisks.Minidisk) (records : List (List ℕ))
            → W.told world.old ≡ Some j
            → IsMinidisk j self.old m → StandsFor file.now records
            → Alters (W.told world.old) (W.told world.new) self.old self.new m
            (Put (file_with name.now (shape_of file.now) records))
            stamp.now result }
        ensures holds { OnOk result (IsPutIn self.old.volume name.now
            (shape_of file.now) self.new.volume) }
        ensures fault { IfErr result (IsPutFault self.old name.now (shape_of file.now)) }
        ensures read_only { IfErr result (λ e. e ≡ ReadOnly → self.old.writable ≡ false) }
        ensures locked { self.old.writable ≡ false → result ≡ Err ReadOnly }
        ensures limited { self.old.writable ≡ true → (which : ℕ)
            → limit_put (count_put self.old.volume name.now)
            (shape_of file.now).count (shape_of file.now).bytes ≡ Some which
            → result ≡ Err (Limit which) }
        ensures changes { ChangesDisk (seen W.World world.old)
            (seen W.World world.new) self.old self.new result }
    {
        let shape = shape_of(file);
        let mut draft = self.draft_at(alloc, there, name, &shape, stamp)?;
        match put_records(world, &mut draft, file) {
            Ok(()) => self.commit(world, draft),
            Err(fault) => {
                drop(draft);
                Err(fault)
            }
        }
    }
}
