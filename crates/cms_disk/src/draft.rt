// Files that are drafted for a minidisk.
ghost use Rattle.std.specs.Prelude.{◌≡◌, ◌⊎◌, ◌+◌, ◌<◌, ◌≤◌, ◌++◌, ◌∷◌, [], ℕ, List, true, false, None, Some, Err, length, IsSome, IfOk, IfErr, OnOk};
ghost use Rattle.std.specs.List.{concat};
ghost use Rattle.std.specs.Option.{ForSome};
ghost use Rattle.cms_names.specs.declared.name.Format.TheVariants.{F};
ghost use Rattle.cms_journal.specs.Journal.{IsWritable};
ghost use Rattle.cms_journal.specs.Told.{Told};
ghost use Rattle.cms_world.specs.Seen.{ChangesUnits, OnlyReads, seen};
ghost use Rattle.cms_fields.specs.Stamps.{is_stamp};
ghost use Rattle.cms_fields.specs.declared.time.Stamp as stamps;
ghost use Rattle.cms_model.specs.Minidisks as minidisks;
ghost use Rattle.cms_model.specs.Changes as model;
ghost use Rattle.cms_model.specs.Records.{Fits, stored};
ghost use Rattle.cms_held.specs.BlockWriters.{CanWrite, came};
ghost use Rattle.cms_held.specs.FileWriters.{IsFresh};
ghost use Rattle.cms_held.specs.Puts.{count_put, limit_put};
ghost use Rattle.cms_held.specs.HeldVolumes.{HeldFile};
ghost use Rattle.cms_edf.specs.FileDrafts.{CanDraft, IsDraftFor, IsSomeDraft, LeadsToFile, tree_of};
ghost use Rattle.cms_edf.specs.Growths.{IsFileOf, IsMoreFor};
ghost use Rattle.cms_disk.specs.Additions.{AnswersMore, BeginsMore, HasRoomFor, IsBehindFile, IsMoreFault, MayExtend};
ghost use Rattle.cms_disk.specs.Changes.{Alters, ChangesDisk, IsDevices};
ghost use Rattle.cms_disk.specs.Disks.{Accessed, IsReadable, place_of};
ghost use Rattle.cms_disk.specs.Drafts.{AnswersDraft, BeginsPut, GoesOn, HasMore, IsDraftFault, IsFull, IsSameDraft, PutsRecord};
ghost use Rattle.cms_disk.specs.declared.fault.DiskFault.TheVariants.{Device, Limit, NotFound, ReadOnly};

use crate::fault::DiskFault;
use crate::minidisk::Minidisk;
use cms_edf::{Draft, DraftShape, commit, plan_draft_at, plan_more_at};
use cms_fields::Stamp;
use cms_names::Name;
use cms_world::{Failed, World};
use std::alloc::Global;

impl Minidisk {
    /// Plans a file of a name that is to have so many records and stored bytes. It takes the place of the file of that name, or stands
    /// last. The directory is to have the stamp that is given. Nothing is written, and the minidisk stays as it is.
    ///
    /// `ReadOnly` comes exactly where the minidisk may not be written; else `Limit` exactly where the file passes one, the lowest of
    /// them; else `Full` exactly where it needs more blocks than are free. Behind `draft` no memory is taken for the file.
    pub fn draft(
        &mut self,
        alloc: Global,
        name: &Name,
        shape: &DraftShape,
        stamp: &Stamp,
    ) -> Result<Draft, DiskFault>
        requires stamp { is_stamp stamp.now ≡ true }
        requires shape { CanDraft shape.now }
        ensures planned { IfOk result (IsDraftFor self.old.volume name.now shape.now stamp.now) }
        ensures some { IfOk result (IsSomeDraft self.old.volume) }
        ensures fresh { IfOk result (λ d.
            IsFresh self.old.volume.unit self.old.volume.disk.bsize shape.now
            (tree_of d) d.writer) }
        ensures begins { IfOk result (BeginsPut self.old self.new name.now shape.now stamp.now) }
        ensures writable { OnOk result (self.old.writable ≡ true) }
        ensures answers { AnswersDraft self.old name.now shape.now result }
        ensures fault { IfErr result (IsDraftFault self.old name.now shape.now) }
        ensures locked { self.old.writable ≡ false → result ≡ Err ReadOnly }
        ensures limited { self.old.writable ≡ true → (which : ℕ)
            → limit_put (count_put self.old.volume name.now) shape.now.count shape.now.bytes
            ≡ Some which → result ≡ Err (Limit which) }
        ensures kept { self.new ≡ record self.old { spare = self.new.spare } }
        ensures spare { OnOk result (1 ≤ self.new.spare) }
        ensures places { self.old.spare ≤ self.new.spare }
    {
        let there = self.find(name);
        self.draft_at(alloc, there, name, shape, stamp)
    }

    /// The same where the place of the file of that name is known, or that there is none.
    pub fn draft_at(
        &mut self,
        alloc: Global,
        there: Option<u32>,
        name: &Name,
        shape: &DraftShape,
        stamp: &Stamp,
    ) -> Result<Draft, DiskFault>
        requires stamp { is_stamp stamp.now ≡ true }
        requires shape { CanDraft shape.now }
        requires there { there ≡ place_of name.now self.old.volume }
        ensures planned { IfOk result (IsDraftFor self.old.volume name.now shape.now stamp.now) }
        ensures some { IfOk result (IsSomeDraft self.old.volume) }
        ensures fresh { IfOk result (λ d.
            IsFresh self.old.volume.unit self.old.volume.disk.bsize shape.now
            (tree_of d) d.writer) }
        ensures begins { IfOk result (BeginsPut self.old self.new name.now shape.now stamp.now) }
        ensures writable { OnOk result (self.old.writable ≡ true) }
        ensures answers { AnswersDraft self.old name.now shape.now result }
        ensures fault { IfErr result (IsDraftFault self.old name.now shape.now) }
        ensures locked { self.old.writable ≡ false → result ≡ Err ReadOnly }
        ensures limited { self.old.writable ≡ true → (which : ℕ)
            → limit_put (count_put self.old.volume name.now) shape.now.count shape.now.bytes
            ≡ Some which → result ≡ Err (Limit which) }
        ensures kept { self.new ≡ record self.old { spare = self.new.spare } }
        ensures spare { OnOk result (1 ≤ self.new.spare) }
        ensures places { self.old.spare ≤ self.new.spare }
    {
        if !self.is_writable() {
            return Err(DiskFault::ReadOnly);
        }
        let draft = plan_draft_at(alloc, &mut self.held, there, name, shape, stamp)?;
        Ok(draft)
    }

    /// Plans the addition of records to the file of a name. The shape is that of the whole file, with its own records and the added ones;
    /// only these are put then. The directory is to have the stamp that is given. Nothing is written, and the minidisk stays as it is. Of
    /// the file the last data block is read where it isn't full, and a pointer block a level at most.
    ///
    /// `NotFound` comes exactly where no file has the name; else `ReadOnly` exactly where the minidisk may not be written; else `Limit`
    /// exactly where the file would pass one, the lowest of them; else `Full` exactly where it needs more blocks than are free. `Device`
    /// says that none of these holds and that a read failed. Behind `draft_more` no memory is taken for the file.
    pub fn draft_more<W: World>(
        &mut self,
        alloc: Global,
        world: &mut W,
        name: &Name,
        shape: &DraftShape,
        stamp: &Stamp,
    ) -> Result<Draft, DiskFault>
        requires stamp { is_stamp stamp.now ≡ true }
        requires extends { MayExtend self.old.volume name.now shape.now }
        requires blocks { ForSome (W.told world.old) (λ j. IsReadable j self.old) }
        ensures planned { IfOk result (λ d. (f : HeldFile) → IsFileOf self.old.volume name.now f
            → IsMoreFor self.old.volume name.now f shape.now stamp.now d) }
        ensures some { IfOk result (IsSomeDraft self.old.volume) }
        ensures behind { IfOk result (IsBehindFile self.old.volume name.now shape.now) }
        ensures begins { IfOk result (BeginsMore (W.told world.old)
            (W.told world.new) self.old self.new name.now shape.now stamp.now) }
        ensures room { OnOk result (HasRoomFor self.old.volume name.now shape.now) }
        ensures writable { OnOk result (self.old.writable ≡ true) }
        ensures answers { AnswersMore self.old name.now shape.now result }
        ensures fault { IfErr result (IsMoreFault self.old name.now shape.now) }
        ensures absent { place_of name.now self.old.volume ≡ None → result ≡ Err NotFound }
        ensures locked { self.old.writable ≡ false → (result ≡ Err NotFound)
            ⊎ (result ≡ Err ReadOnly) }
        ensures limited { IsSome (place_of name.now self.old.volume) → self.old.writable ≡ true
            → (which : ℕ)
            → limit_put (length self.old.volume.files) shape.now.count shape.now.bytes ≡ Some which
            → result ≡ Err (Limit which) }
        ensures kept { self.new ≡ record self.old { spare = self.new.spare } }
        ensures spare { OnOk result (1 ≤ self.new.spare) }
        ensures places { self.old.spare ≤ self.new.spare }
        ensures reads { OnlyReads (seen W.World world.old) (seen W.World world.new) Device result }
    {
        let place = self.place(name)?;
        self.draft_more_at(alloc, world, place, name, shape, stamp)
    }

    /// The same where the place of the file of that name is known.
    pub fn draft_more_at<W: World>(
        &mut self,
        alloc: Global,
        world: &mut W,
        place: u32,
        name: &Name,
        shape: &DraftShape,
        stamp: &Stamp,
    ) -> Result<Draft, DiskFault>
        requires stamp { is_stamp stamp.now ≡ true }
        requires there { place_of name.now self.old.volume ≡ Some place }
        requires extends { MayExtend self.old.volume name.now shape.now }
        requires blocks { ForSome (W.told world.old) (λ j. IsReadable j self.old) }
        ensures planned { IfOk result (λ d. (f : HeldFile) → IsFileOf self.old.volume name.now f
            → IsMoreFor self.old.volume name.now f shape.now stamp.now d) }
        ensures some { IfOk result (IsSomeDraft self.old.volume) }
        ensures behind { IfOk result (IsBehindFile self.old.volume name.now shape.now) }
        ensures begins { IfOk result (BeginsMore (W.told world.old)
            (W.told world.new) self.old self.new name.now shape.now stamp.now) }
        ensures room { OnOk result (HasRoomFor self.old.volume name.now shape.now) }
        ensures writable { OnOk result (self.old.writable ≡ true) }
        ensures answers { AnswersMore self.old name.now shape.now result }
        ensures fault { IfErr result (IsMoreFault self.old name.now shape.now) }
        ensures locked { self.old.writable ≡ false → result ≡ Err ReadOnly }
        ensures limited { self.old.writable ≡ true → (which : ℕ)
            → limit_put (length self.old.volume.files) shape.now.count shape.now.bytes ≡ Some which
            → result ≡ Err (Limit which) }
        ensures kept { self.new ≡ record self.old { spare = self.new.spare } }
        ensures spare { OnOk result (1 ≤ self.new.spare) }
        ensures places { self.old.spare ≤ self.new.spare }
        ensures reads { OnlyReads (seen W.World world.old) (seen W.World world.new) Device result }
    {
        if !self.is_writable() {
            return Err(DiskFault::ReadOnly);
        }
        let draft = plan_more_at(alloc, world, &mut self.held, place, name, shape, stamp)?;
        Ok(draft)
    }

    /// Makes a drafted file, whose records were all put, the minidisk's. It takes no memory.
    ///
    /// `Device` says that the device failed and the minidisk is as before, `InDoubt` that it failed and the unit holds the minidisk of
    /// before or the new one.
    pub fn commit<W: World>(&mut self, world: &mut W, draft: Draft) -> Result<(), DiskFault>
        requires planned { IsSomeDraft self.old.volume draft }
        requires full { IsFull draft.writer }
        requires room { 1 ≤ self.old.spare }
        requires blocks { ForSome (W.told world.old) (λ j. IsReadable j self.old) }
        requires writable { ForSome (W.told world.old)
            (λ j. IsWritable j.units self.old.volume.unit) }
        ensures alters { (start : Told) (m : minidisks.Minidisk) (change : model.Change)
            (stamp : stamps.Stamp) (records : List (List ℕ))
            → GoesOn start (W.told world.old) self.old m draft change stamp records []
            → Alters start (W.told world.new) self.old self.new m change stamp result }
        ensures holds { OnOk result (LeadsToFile self.old.volume draft self.new.volume) }
        ensures fault { IfErr result IsDevices }
        ensures changes { ChangesDisk (seen W.World world.old)
            (seen W.World world.new) self.old self.new result }
    {
        commit(world, &mut self.held, draft)?;
        Ok(())
    }
}

/// Puts the next record of a draft. It takes no memory.
///
/// `Device` says that the device failed; the draft is of no more use then, and the minidisk is as before.
pub fn put_record<W: World>(world: &mut W, draft: &mut Draft, text: &[u8]) -> Result<(), DiskFault>
    requires fewer { draft.old.writer.put < draft.old.writer.shape.count }
    requires fits { Fits draft.old.writer.shape.format draft.old.writer.shape.length text.now }
    requires room { came draft.old.writer.writer + length
        (stored draft.old.writer.shape.format (text.now ∷ []))
        ≤ draft.old.writer.writer.size }
    requires ready { ForSome (W.told world.old) (λ j. CanWrite j.units draft.old.writer.writer) }
    ensures puts { (start : Told) (d : Accessed) (m : minidisks.Minidisk) (change : model.Change)
        (stamp : stamps.Stamp)
        (done more : List (List ℕ))
        → GoesOn start (W.told world.old) d m draft.old change stamp done (text.now ∷ more)
        → PutsRecord start (W.told world.new) d m draft.new change stamp
        (done ++ text.now ∷ []) more result }
    ensures more { OnOk result (HasMore draft.old.writer draft.new.writer text.now) }
    ensures same { IsSameDraft draft.old draft.new }
    ensures still { ForSome (W.told world.new) (λ j. CanWrite j.units draft.new.writer.writer) }
    ensures fault { IfErr result (λ e. e ≡ Device) }
    ensures changes { ChangesUnits (seen W.World world.old)
        (seen W.World world.new) IsDevices result }
{
    match draft.put(world, text) {
        Ok(()) => Ok(()),
        Err(Failed) => Err(DiskFault::Device),
    }
}

/// Puts records that come next in a draft at F, where all have one length: their bytes in a row. It takes no memory.
///
/// `Device` says that the device failed; the draft is of no more use then, and the minidisk is as before.
pub fn put_run<W: World>(
    world: &mut W,
    draft: &mut Draft,
    bytes: &[u8],
    count: u32,
) -> Result<(), DiskFault>
    requires fixed { draft.old.writer.shape.format ≡ F }
    requires fewer { draft.old.writer.put + count ≤ draft.old.writer.shape.count }
    requires room { came draft.old.writer.writer + length bytes.now
        ≤ draft.old.writer.writer.size }
    requires ready { ForSome (W.told world.old) (λ j. CanWrite j.units draft.old.writer.writer) }
    ensures puts { (start : Told) (d : Accessed) (m : minidisks.Minidisk) (change : model.Change)
        (stamp : stamps.Stamp)
        (done run more : List (List ℕ)) → length run ≡ count → bytes.now ≡ concat run
        → GoesOn start (W.told world.old) d m draft.old change stamp done (run ++ more)
        → PutsRecord start (W.told world.new) d m draft.new change stamp
        (done ++ run) more result }
    ensures same { IsSameDraft draft.old draft.new }
    ensures still { ForSome (W.told world.new) (λ j. CanWrite j.units draft.new.writer.writer) }
    ensures fault { IfErr result (λ e. e ≡ Device) }
    ensures changes { ChangesUnits (seen W.World world.old)
        (seen W.World world.new) IsDevices result }
{
    match draft.put_run(world, bytes, count) {
        Ok(()) => Ok(()),
        Err(_) => Err(DiskFault::Device),
    }
}
