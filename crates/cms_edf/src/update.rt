// A change of a volume is carried out.
ghost use Rattle.std.specs.Prelude.{◌≡◌, ◌≤◌, length, slice_get, Some, OnOk, OnErr, IfErr};
ghost use Rattle.std.specs.Option.{ForSome};
ghost use Rattle.cms_journal.specs.Journal.{Journal, HasBlocks, IsWritable, MayAdd};
ghost use Rattle.cms_journal.specs.declared.event.Event.TheVariants.{Wrote};
ghost use Rattle.cms_journal.specs.Told.{plus};
ghost use Rattle.cms_fields.specs.declared.time.Stamp.{Stamp};
ghost use Rattle.cms_model.specs.Changes.{Change};
ghost use Rattle.cms_model.specs.LawsUpdates.{relabel};
ghost use Rattle.cms_model.specs.Minidisks.{Minidisk};
ghost use Rattle.cms_held.specs.MinidiskUpdates.{IsHeldMinidisk};
ghost use Rattle.cms_edf.specs.Updates.{CarriesOut, IsPlan, IsStopped, LeadsTo, step_events, with_label_bytes};
ghost use Rattle.cms_edf.specs.Doubts.{UpdatesSystems};
ghost use Rattle.cms_edf.specs.NewDirectories.{GoesOn, directory_in};
ghost use Rattle.cms_held.specs.HeldVolumes.{HeldFile};
ghost use Rattle.cms_held.specs.Kept.{Keeps};
ghost use Rattle.cms_edf.specs.ChangePlans.{DoesTo, IsPlanFor, MayEdit};
ghost use Rattle.cms_held.specs.Renewals.{Edit, renewed};
ghost use Rattle.cms_edf.specs.declared.doubt.Doubt.TheVariants.{Either};
ghost use Rattle.cms_world.specs.Seen.{OnUnits, seen};

use crate::change::FileEdit;
use crate::doubt::{Doubt, write_label_block};
use crate::held::Held;
use crate::step::{Plan, Step};
use crate::system_blocks::Systems;
use cms_fields::Label;
use cms_world::World;

impl Held {
    // The volume after an edit of its files.
    fn renew(&mut self, edit: &FileEdit, systems: Systems)
        requires may { MayEdit self.old.volume.files edit.now }
        requires room { 1 ≤ self.old.spare }
        requires goes { GoesOn self.old.volume.directory.leaves (directory_in systems) }
        requires kept { (x : Edit) → DoesTo self.old.volume.files edit.now x
            → Keeps (renewed self.old.volume x systems) }
        ensures { (x : Edit) → DoesTo self.old.volume.files edit.now x
            → self.new.volume ≡ renewed self.old.volume x systems }
    {
        edit.edit_files(&mut self.files);
        self.label = systems.label;
        self.label_bytes = systems.label_bytes;
        self.directory_nodes = systems.directory.put_into(&mut self.directory);
        self.map_tree = systems.map_tree;
        self.map = systems.map;
    }
}

impl Held {
    // Carries out an edit of the files.
    fn carry_edit<W: World>(
        &mut self,
        world: &mut W,
        edit: &FileEdit,
        systems: Systems,
    ) -> Result<(), Doubt>
        requires may { MayEdit self.old.volume.files edit.now }
        requires room { 1 ≤ self.old.spare }
        requires goes { GoesOn self.old.volume.directory.leaves (directory_in systems) }
        requires kept { (x : Edit) → DoesTo self.old.volume.files edit.now x
            → Keeps (renewed self.old.volume x systems) }
        requires blocks { ForSome (W.told world.old)
            (λ j. HasBlocks j.units self.old.volume.unit systems.label.blocks
            (length systems.label_bytes)) }
        requires writable { ForSome (W.told world.old)
            (λ j. IsWritable j.units self.old.volume.unit) }
        ensures updates { UpdatesSystems (W.told world.old)
            (W.told world.new) self.old.volume.unit systems result }
        ensures volume { OnOk result ((x : Edit) → DoesTo self.old.volume.files edit.now x
            → self.new.volume ≡ renewed self.old.volume x systems) }
        ensures kept { OnErr result (self.new ≡ self.old) }
        ensures counts { OnUnits (seen W.World world.old) (seen W.World world.new) result }
    {
        match systems.carry_out(world, self.unit, &self.directory) {
            Ok(()) => {
                self.renew(edit, systems);
                Ok(())
            }
            Err(doubt) => {
                drop(systems);
                Err(doubt)
            }
        }
    }

    // Carries out a relabelling.
    fn carry_label<W: World>(
        &mut self,
        world: &mut W,
        label: Label,
        bytes: Vec<u8>,
    ) -> Result<(), Doubt>
        requires kept { Keeps (with_label_bytes self.old.volume label bytes.items) }
        requires blocks { ForSome (W.told world.old)
            (λ j. HasBlocks j.units self.old.volume.unit 3 (length bytes.items)) }
        requires writable { ForSome (W.told world.old)
            (λ j. IsWritable j.units self.old.volume.unit) }
        ensures done { OnOk result (W.told world.new
            ≡ plus (W.told world.old) (relabel self.old.volume.unit bytes.items)) }
        ensures volume { OnOk result (self.new.volume
            ≡ with_label_bytes self.old.volume label bytes.items) }
        ensures either { IfErr result (λ why. why ≡ Either) }
        ensures cut_off { OnErr result (MayAdd (Wrote self.old.volume.unit 3 bytes.items)
            (W.told world.old) (W.told world.new)) }
        ensures kept { OnErr result (self.new ≡ self.old) }
        ensures counts { OnUnits (seen W.World world.old) (seen W.World world.new) result }
    {
        match write_label_block(world, self.unit, &bytes) {
            Ok(()) => {
                self.label = label;
                self.label_bytes = bytes;
                Ok(())
            }
            Err(doubt) => Err(doubt),
        }
    }
}

/// Carries out a change that was planned for the volume as it is held: an update of the directory, the map and the label, or the write of
/// the label alone for another volume id. Takes no memory: the volume has room for one more file.
///
/// Its refusals come only where the device failed. At `Old` a part of the writes before the label's was made and nothing was synced; at
/// `Either` all of them were, with one sync, and perhaps the label was written, or of another volume id the label alone. After both the
/// volume is held as before, which at `Either` the unit may be no more.
pub fn carry_out<W: World>(world: &mut W, held: &mut Held, plan: Plan) -> Result<(), Doubt>
    requires plan { IsPlan held.old.volume plan }
    requires room { 1 ≤ held.old.spare }
    requires blocks { ForSome (W.told world.old)
        (λ j. HasBlocks j.units held.old.volume.unit held.old.volume.disk.count
        held.old.volume.disk.bsize) }
    requires writable { ForSome (W.told world.old) (λ j. IsWritable j.units held.old.volume.unit) }
    ensures done { OnOk result (W.told world.new
        ≡ plus (W.told world.old) (step_events held.old.volume plan)) }
    ensures cut_off { IfErr result (IsStopped (W.told world.old)
        (W.told world.new) held.old.volume plan) }
    ensures volume { OnOk result (LeadsTo held.old.volume plan held.new.volume) }
    ensures carries { (j : Journal) (m : Minidisk) (change : Change) (stamp : Stamp)
        → W.told world.old ≡ Some j
        → IsHeldMinidisk j held.old.volume m → IsPlanFor held.old.volume change stamp plan
        → CarriesOut j (W.told world.new) held.old.volume held.new.volume m change plan result }
    ensures kept { OnErr result (held.new ≡ held.old) }
    ensures counts { OnUnits (seen W.World world.old) (seen W.World world.new) result }
{
    match plan.step {
        Step::Edit { edit, systems } => held.carry_edit(world, &edit, systems),
        Step::Relabel { label, label_bytes } => held.carry_label(world, label, label_bytes),
    }
}
