// Changes of a minidisk.
ghost use Rattle.std.specs.Prelude.{◌≡◌, ◌⊎◌, ◌≤◌, ◌-◌, true, false, length, None, Some, Err, IfErr, OnOk, unwrap_or};
ghost use Rattle.cms_world.specs.Seen.{seen};
ghost use Rattle.std.specs.Option.{ForSome};
ghost use Rattle.cms_journal.specs.Journal.{Journal, IsWritable};
ghost use Rattle.cms_fields.specs.Stamps.{is_stamp};
ghost use Rattle.cms_model.specs.Minidisks as minidisks;
ghost use Rattle.cms_model.specs.Changes.{Drop, Rename, Relabel, Century};
ghost use Rattle.cms_model.specs.DirectoryParts.{all_entries};
ghost use Rattle.cms_held.specs.Renewals.{made_at, made_without, needed};
ghost use Rattle.cms_edf.specs.ChangePlans.{CanChange, change_of};
ghost use Rattle.cms_disk.specs.Changes.{Alters, ChangesDisk, HeldThen, IsChangeFault, IsDevices, needed_for};
ghost use Rattle.cms_disk.specs.Disks.{IsMinidisk, IsOthers, IsReadable, place_of};
ghost use Rattle.cms_disk.specs.declared.fault.DiskFault.TheVariants.{Exists, Memory, NotFound, ReadOnly};

use crate::fault::DiskFault;
use crate::minidisk::Minidisk;
use cms_edf::{Change, carry_out, plan};
use cms_fields::Stamp;
use cms_names::Name;
use cms_world::World;
use std::alloc::Global;

impl Minidisk {
    /// Erases the file of a name. The new directory has this stamp. `NotFound` exactly where no file has the name, `ReadOnly` exactly
    /// where the minidisk may not be written; `Full` tells the blocks that the new directory and the new map need, and those that are
    /// free. `Device` says that the device failed and the minidisk is as before, `InDoubt` that it failed and the unit holds the
    /// minidisk of before or the new one.
    pub fn erase<W: World>(
        &mut self,
        alloc: Global,
        world: &mut W,
        name: &Name,
        stamp: &Stamp,
    ) -> Result<(), DiskFault>
        requires stamp { is_stamp stamp.now ≡ true }
        requires blocks { ForSome (W.told world.old) (λ j. IsReadable j self.old) }
        requires writable { self.old.writable ≡ true
            → ForSome (W.told world.old) (λ j. IsWritable j.units self.old.volume.unit) }
        ensures alters { (j : Journal) (m : minidisks.Minidisk) → W.told world.old ≡ Some j
            → IsMinidisk j self.old m
            → Alters (W.told world.old) (W.told world.new) self.old self.new m
            (Drop name.now) stamp.now result }
        ensures holds { OnOk result (HeldThen self.old.volume (Drop name.now) self.new.volume) }
        ensures missing { IfErr result (λ e. e ≡ NotFound
            → place_of name.now self.old.volume ≡ None) }
        ensures absent { place_of name.now self.old.volume ≡ None → result ≡ Err NotFound }
        ensures read_only { IfErr result (λ e. e ≡ ReadOnly → self.old.writable ≡ false) }
        ensures locked { self.old.writable ≡ false → (result ≡ Err NotFound)
            ⊎ (result ≡ Err ReadOnly) }
        ensures fault { IfErr result (λ e. (e ≡ NotFound) ⊎ (e ≡ ReadOnly)
            ⊎ IsChangeFault self.old.volume
            (needed self.old.volume (length self.old.volume.files - 1)
            (made_without (unwrap_or (place_of name.now self.old.volume) 0)
            (length self.old.volume.files))) e) }
        ensures changes { ChangesDisk (seen W.World world.old)
            (seen W.World world.new) self.old self.new result }
    {
        if !self.has(name) {
            return Err(DiskFault::NotFound);
        }
        if !self.is_writable() {
            return Err(DiskFault::ReadOnly);
        }
        self.change(alloc, world, &Change::Drop { name }, stamp)
    }

    /// Gives the file of a name another name, which no other file has, and the mode number 0 to 6; it keeps its place. The refusals are
    /// those of `erase`; behind `NotFound` comes `Exists`, exactly where the new name is another file's.
    pub fn rename<W: World>(
        &mut self,
        alloc: Global,
        world: &mut W,
        from: &Name,
        to: &Name,
        number: u8,
        stamp: &Stamp,
    ) -> Result<(), DiskFault>
        requires stamp { is_stamp stamp.now ≡ true }
        requires number { number ≤ 6 }
        requires blocks { ForSome (W.told world.old) (λ j. IsReadable j self.old) }
        requires writable { self.old.writable ≡ true
            → ForSome (W.told world.old) (λ j. IsWritable j.units self.old.volume.unit) }
        ensures alters { (j : Journal) (m : minidisks.Minidisk) → W.told world.old ≡ Some j
            → IsMinidisk j self.old m
            → Alters (W.told world.old) (W.told world.new) self.old self.new m
            (Rename from.now to.now number) stamp.now result }
        ensures holds { OnOk result (HeldThen self.old.volume
            (Rename from.now to.now number) self.new.volume) }
        ensures missing { IfErr result (λ e. e ≡ NotFound
            → place_of from.now self.old.volume ≡ None) }
        ensures absent { place_of from.now self.old.volume ≡ None → result ≡ Err NotFound }
        ensures exists { IfErr result (λ e. e ≡ Exists → IsOthers from.now to.now self.old.volume) }
        ensures taken { IsOthers from.now to.now self.old.volume → (result ≡ Err NotFound)
            ⊎ (result ≡ Err Exists) }
        ensures read_only { IfErr result (λ e. e ≡ ReadOnly → self.old.writable ≡ false) }
        ensures locked { self.old.writable ≡ false → (result ≡ Err NotFound) ⊎ (result ≡ Err Exists)
            ⊎ (result ≡ Err ReadOnly) }
        ensures fault { IfErr result (λ e. (e ≡ NotFound) ⊎ (e ≡ Exists) ⊎ (e ≡ ReadOnly)
            ⊎ IsChangeFault self.old.volume (needed self.old.volume (length self.old.volume.files)
            (made_at (unwrap_or (place_of from.now self.old.volume) 0))) e) }
        ensures changes { ChangesDisk (seen W.World world.old)
            (seen W.World world.new) self.old self.new result }
    {
        if !self.has(from) {
            return Err(DiskFault::NotFound);
        }
        if from != to && self.has(to) {
            return Err(DiskFault::Exists);
        }
        if !self.is_writable() {
            return Err(DiskFault::ReadOnly);
        }
        self.change(alloc, world, &Change::Rename { from, to, number }, stamp)
    }

    /// Gives the minidisk another volume id, in EBCDIC. The refusals are those of `erase` but `NotFound` and `Full`.
    pub fn relabel<W: World>(
        &mut self,
        alloc: Global,
        world: &mut W,
        volid: [u8; 6],
        stamp: &Stamp,
    ) -> Result<(), DiskFault>
        requires stamp { is_stamp stamp.now ≡ true }
        requires blocks { ForSome (W.told world.old) (λ j. IsReadable j self.old) }
        requires writable { self.old.writable ≡ true
            → ForSome (W.told world.old) (λ j. IsWritable j.units self.old.volume.unit) }
        ensures alters { (j : Journal) (m : minidisks.Minidisk) → W.told world.old ≡ Some j
            → IsMinidisk j self.old m
            → Alters (W.told world.old) (W.told world.new) self.old self.new m
            (Relabel volid) stamp.now result }
        ensures holds { OnOk result (HeldThen self.old.volume (Relabel volid) self.new.volume) }
        ensures read_only { IfErr result (λ e. e ≡ ReadOnly → self.old.writable ≡ false) }
        ensures locked { self.old.writable ≡ false → result ≡ Err ReadOnly }
        ensures fault { IfErr result (λ e. (e ≡ ReadOnly) ⊎ (e ≡ Memory) ⊎ IsDevices e) }
        ensures changes { ChangesDisk (seen W.World world.old)
            (seen W.World world.new) self.old self.new result }
    {
        if !self.is_writable() {
            return Err(DiskFault::ReadOnly);
        }
        self.change(alloc, world, &Change::Relabel { volid }, stamp)
    }

    /// Moves the stamps of all files: those of a year below 1900 and the pivot, which is at most 100, are a century later. Every entry of
    /// the directory is written anew, also where no stamp moves. The refusals are those of `erase` but `NotFound`; `Full` tells the
    /// blocks that a whole new directory and a whole map need, and those that are free.
    pub fn century<W: World>(
        &mut self,
        alloc: Global,
        world: &mut W,
        pivot: u32,
        stamp: &Stamp,
    ) -> Result<(), DiskFault>
        requires stamp { is_stamp stamp.now ≡ true }
        requires pivot { pivot ≤ 100 }
        requires blocks { ForSome (W.told world.old) (λ j. IsReadable j self.old) }
        requires writable { self.old.writable ≡ true
            → ForSome (W.told world.old) (λ j. IsWritable j.units self.old.volume.unit) }
        ensures alters { (j : Journal) (m : minidisks.Minidisk) → W.told world.old ≡ Some j
            → IsMinidisk j self.old m
            → Alters (W.told world.old) (W.told world.new) self.old self.new m
            (Century pivot) stamp.now result }
        ensures holds { OnOk result (HeldThen self.old.volume (Century pivot) self.new.volume) }
        ensures read_only { IfErr result (λ e. e ≡ ReadOnly → self.old.writable ≡ false) }
        ensures locked { self.old.writable ≡ false → result ≡ Err ReadOnly }
        ensures fault { IfErr result (λ e. (e ≡ ReadOnly)
            ⊎ IsChangeFault self.old.volume (needed self.old.volume (length self.old.volume.files)
            (all_entries (length self.old.volume.files))) e) }
        ensures changes { ChangesDisk (seen W.World world.old)
            (seen W.World world.new) self.old self.new result }
    {
        if !self.is_writable() {
            return Err(DiskFault::ReadOnly);
        }
        self.change(alloc, world, &Change::Century { pivot }, stamp)
    }

    // Makes a change.
    fn change<W: World>(
        &mut self,
        alloc: Global,
        world: &mut W,
        change: &Change,
        stamp: &Stamp,
    ) -> Result<(), DiskFault>
        requires stamp { is_stamp stamp.now ≡ true }
        requires change { CanChange self.old.volume.files change.now }
        requires blocks { ForSome (W.told world.old) (λ j. IsReadable j self.old) }
        requires writable { ForSome (W.told world.old)
            (λ j. IsWritable j.units self.old.volume.unit) }
        ensures alters { (j : Journal) (m : minidisks.Minidisk) → W.told world.old ≡ Some j
            → IsMinidisk j self.old m
            → Alters (W.told world.old) (W.told world.new) self.old self.new m
            (change_of change.now) stamp.now result }
        ensures holds { OnOk result (HeldThen self.old.volume
            (change_of change.now) self.new.volume) }
        ensures fault { IfErr result (IsChangeFault self.old.volume
            (needed_for self.old.volume change.now)) }
        ensures changes { ChangesDisk (seen W.World world.old)
            (seen W.World world.new) self.old self.new result }
    {
        let plan = plan(alloc, &mut self.held, change, stamp)?;
        carry_out(world, &mut self.held, plan)?;
        Ok(())
    }
}
