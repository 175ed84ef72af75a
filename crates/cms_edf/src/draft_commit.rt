// A file whose records were put becomes the volume's.
ghost use Rattle.std.specs.Prelude.{◌≡◌, ◌≤◌, [], ℕ, List, length, position, Some, OnOk, OnErr};
ghost use Rattle.std.specs.Option.{ForSome};
ghost use Rattle.indexmap.specs.IndexMap.{spare, values};
ghost use Rattle.cms_world.specs.Seen.{OnUnits, seen};
ghost use Rattle.cms_journal.specs.Journal.{HasBlocks, IsWritable, Journal};
ghost use Rattle.cms_journal.specs.Told.{Grown};
ghost use Rattle.cms_fields.specs.declared.time.Stamp.{Stamp};
ghost use Rattle.cms_model.specs.Changes.{Add, Put};
ghost use Rattle.cms_model.specs.Minidisks.{Minidisk, same_name};
ghost use Rattle.cms_model.specs.Records.{length_of};
ghost use Rattle.cms_held.specs.Drafts.{Front, no_front};
ghost use Rattle.cms_held.specs.Growths.{length_with};
ghost use Rattle.cms_held.specs.HeldVolumes as volumes;
ghost use Rattle.cms_held.specs.HeldVolumes.{HeldVolume, by_name, names_in};
ghost use Rattle.cms_held.specs.Kept.{Keeps};
ghost use Rattle.cms_held.specs.MinidiskUpdates.{IsHeldMinidisk};
ghost use Rattle.cms_held.specs.Renewals.{Edit, renewed};
ghost use Rattle.cms_held.specs.BlockWriters.{came};
ghost use Rattle.cms_held.specs.FileWriters.{Drafts, IsDrafting};
ghost use Rattle.cms_held.specs.declared.shape.DraftShape.{DraftShape};
ghost use Rattle.cms_edf.specs.Doubts.{UpdatesSystems};
ghost use Rattle.cms_edf.specs.FileDrafts.{DraftStands, IsCommitted, IsCommittedAt, IsDraftFor, IsSomeDraft, LeadsToFile, list_with, put_in, tree_of};
ghost use Rattle.cms_edf.specs.Growths.{IsFrontOf, IsMoreFor};
ghost use Rattle.cms_edf.specs.NewDirectories.{GoesOn, directory_in};

use crate::doubt::Doubt;
use crate::draft::Draft;
use crate::held::{Held, HeldFile};
use crate::system_blocks::Systems;
use cms_names::Name;
use cms_world::{Failed, World};
use indexmap::IndexMap;

// A file takes the place of the one of its name, or stands last.
fn put_file(files: &mut IndexMap<Name, HeldFile>, file: HeldFile)
    requires named { files.old.entries ≡ by_name (values files.old) }
    requires room { 1 ≤ spare files.old }
    ensures files { values files.new
        ≡ list_with (values files.old)
        (position (same_name file.entry.name) (names_in (values files.old))) file }
    ensures named { files.new.entries ≡ by_name (values files.new) }
{
    let name = file.entry().name;
    files.insert(name, file).unwrap();
}

impl Held {
    // The volume with a file that was put.
    fn renew_with(&mut self, file: HeldFile, systems: Systems)
        requires room { 1 ≤ self.old.spare }
        requires goes { GoesOn self.old.volume.directory.leaves (directory_in systems) }
        requires kept { (edit : Edit) → edit.files ≡ list_with self.old.volume.files
            (position (same_name file.entry.name) (names_in self.old.volume.files)) file
            → Keeps (renewed self.old.volume edit systems) }
        ensures { (edit : Edit) → edit.files ≡ list_with self.old.volume.files
            (position (same_name file.entry.name) (names_in self.old.volume.files)) file
            → self.new.volume ≡ renewed self.old.volume edit systems }
    {
        put_file(&mut self.files, file);
        self.label = systems.label;
        self.label_bytes = systems.label_bytes;
        self.directory_nodes = systems.directory.put_into(&mut self.directory);
        self.map_tree = systems.map_tree;
        self.map = systems.map;
    }

    // Carries out the update for a file whose blocks were written.
    fn carry_file<W: World>(
        &mut self,
        world: &mut W,
        file: HeldFile,
        systems: Systems,
    ) -> Result<(), Doubt>
        requires room { 1 ≤ self.old.spare }
        requires goes { GoesOn self.old.volume.directory.leaves (directory_in systems) }
        requires kept { (edit : Edit) → edit.files ≡ list_with self.old.volume.files
            (position (same_name file.entry.name) (names_in self.old.volume.files)) file
            → Keeps (renewed self.old.volume edit systems) }
        requires blocks { ForSome (W.told world.old)
            (λ j. HasBlocks j.units self.old.volume.unit systems.label.blocks
            (length systems.label_bytes)) }
        requires writable { ForSome (W.told world.old)
            (λ j. IsWritable j.units self.old.volume.unit) }
        ensures updates { UpdatesSystems (W.told world.old)
            (W.told world.new) self.old.volume.unit systems result }
        ensures volume { OnOk result ((edit : Edit) → edit.files ≡ list_with self.old.volume.files
            (position (same_name file.entry.name) (names_in self.old.volume.files)) file
            → self.new.volume ≡ renewed self.old.volume edit systems) }
        ensures kept { OnErr result (self.new ≡ self.old) }
        ensures counts { OnUnits (seen W.World world.old) (seen W.World world.new) result }
    {
        match systems.carry_out(world, self.unit, &self.directory) {
            Ok(()) => {
                self.renew_with(file, systems);
                Ok(())
            }
            Err(doubt) => {
                drop(file);
                drop(systems);
                Err(doubt)
            }
        }
    }
}

/// Makes a file whose records were all put the volume's: writes what is left of it, the directory and the map, syncs, writes the label, and
/// syncs. Takes no memory.
///
/// Its refusals come only where the device failed. At `Old` a part of the writes before the label's was made and nothing was synced; at
/// `Either` all of them were, with one sync, and perhaps the label was written. After both the volume is held as before, which at `Either`
/// the unit may be no more.
pub fn commit<W: World>(world: &mut W, held: &mut Held, draft: Draft) -> Result<(), Doubt>
    requires plan { IsSomeDraft held.old.volume draft }
    requires records { draft.writer.put ≡ draft.writer.shape.count }
    requires bytes { came draft.writer.writer ≡ draft.writer.writer.size }
    requires room { 1 ≤ held.old.spare }
    requires blocks { ForSome (W.told world.old)
        (λ j. HasBlocks j.units held.old.volume.unit held.old.volume.disk.count
        held.old.volume.disk.bsize) }
    requires writable { ForSome (W.told world.old) (λ j. IsWritable j.units held.old.volume.unit) }
    ensures events { (front : Front) (records : List (List ℕ))
        → Drafts draft.writer front records []
        → IsCommitted (W.told world.old)
        (W.told world.new) held.old.volume draft front records result }
    ensures puts { (j : Journal) (m : Minidisk) (name : Name) (shape : DraftShape) (stamp : Stamp)
        (records : List (List ℕ))
        → W.told world.old ≡ Some j → IsHeldMinidisk j held.old.volume m
        → IsDraftFor held.old.volume name shape stamp draft
        → Drafts draft.writer no_front records []
        → length_of shape.format shape.length records ≡ shape.length
        → DraftStands j draft.writer no_front records
        → IsCommittedAt j
        (W.told world.new) held.old.volume held.new.volume m draft no_front records
        (Put (put_in draft records)) result }
    ensures adds { (j : Journal) (m : Minidisk) (name : Name) (f : volumes.HeldFile)
        (shape : DraftShape) (stamp : Stamp) (front : Front)
        (records : List (List ℕ)) → W.told world.old ≡ Some j → IsHeldMinidisk j held.old.volume m
        → IsMoreFor held.old.volume name f shape stamp draft
        → IsFrontOf j held.old.volume f (tree_of draft) front
        → Drafts draft.writer front records []
        → length_with shape.format f.length records ≡ shape.length
        → DraftStands j draft.writer front records
        → IsCommittedAt j (W.told world.new) held.old.volume held.new.volume m draft front records
        (Add name records shape.stamp) result }
    ensures volume { OnOk result (LeadsToFile held.old.volume draft held.new.volume) }
    ensures kept { OnErr result (held.new ≡ held.old) }
    ensures sound { IsDrafting draft.writer }
    ensures grown { Grown (W.told world.old) (W.told world.new) }
    ensures counts { OnUnits (seen W.World world.old) (seen W.World world.new) result }
{
    let Draft {
        entry,
        writer,
        systems,
    } = draft;
    let (length, size) = (writer.shape().length, writer.shape().bytes as u32);
    let start = writer.start();
    match writer.finish(world) {
        Ok(tree) => {
            let file = HeldFile {
                entry,
                tree,
                length,
                size,
                start,
            };
            held.carry_file(world, file, systems)
        }
        Err(Failed) => {
            drop(systems);
            Err(Doubt::Old)
        }
    }
}
