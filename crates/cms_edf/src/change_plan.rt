// A change of a volume is planned.
ghost use Rattle.std.specs.Prelude.{◌≡◌, ◌≤◌, ◌<◌, ◌+◌, ◌-◌, ◌*◌, ◌/◌, ◌++◌, ◌^◌, true, length, map, slice_get, All, IfOk, IfErr, OnOk, Some};
ghost use Rattle.cms_journal.specs.Journal.{IsBlockSize};
ghost use Rattle.cms_fields.specs.Labels.{with_label};
ghost use Rattle.cms_fields.specs.Stamps.{is_stamp};
ghost use Rattle.cms_fields.specs.Limits.{most_files};
ghost use Rattle.cms_edf.specs.Allotments.{IsAllottedFor, given_back, numbers_made};
ghost use Rattle.cms_edf.specs.DirectoryFields.{block_fields, field_at};
ghost use Rattle.cms_edf.specs.ChangePlans.{AreEnoughFor, CanChange, IsFilled, IsFullFor, IsPlanFor, IsPrepared, IsReadyAt, IsRelabelOf, IsStepOf, MayEdit, change_of, count_after, made_by};
ghost use Rattle.cms_edf.specs.NoRoom.{LacksRoom};
ghost use Rattle.cms_held.specs.HeldVolumes.{HeldFile};
ghost use Rattle.cms_held.specs.Kept.{Keeps};
ghost use Rattle.cms_held.specs.Renewals.{blocks_in, label_for, needed};
ghost use Rattle.std.specs.List.{concat};
ghost use Rattle.cms_model.specs.DirectoryParts.{directory_count};
ghost use Rattle.cms_model.specs.Lists.{In};
ghost use Rattle.cms_model.specs.Sizes.{pointer_count};
ghost use Rattle.cms_held.specs.Systems as spec;
ghost use Rattle.cms_held.specs.Systems.{directory_piece};
ghost use Rattle.cms_edf.specs.declared.allotment.PlanFault.TheVariants.{Memory};
ghost use Rattle.cms_held.specs.Written.{CanWrite, ReadsBack};

use crate::allotment::{Allotment, Exchange, Made, PlanFault, allot};
use crate::change::{Change, FileEdit};
use crate::directory_bytes::{SystemFields, file_field, system_fields};
use crate::held::{Held, HeldTree};
use crate::new_directory::NewDirectory;
use crate::new_entries::NewEntries;
use crate::step::{Plan, Step};
use crate::system::ENTRY_SIZE;
use crate::system_blocks::Systems;
use cms_fields::{Label, Stamp, write_label};
use cms_journal::BlockSize;
use cms_map::Map;
use std::alloc::{AllocError, Global};

/// The number of the first file's entry in the directory, behind its own and the map's.
pub const FIRST_FILE: u32 = 2;

// The 64 bytes of the entry of a number of a directory: its own, the map's, a file's, or zeros behind them.
fn field_of(fields: &SystemFields, entries: &NewEntries<'_>, number: u32) -> [u8; 64]
    requires { All CanWrite entries.now }
    ensures { result ≡ field_at fields.now.directory fields.now.map entries.now number }
{
    match number {
        0 => fields.directory,
        1 => fields.map,
        _ if number - 2 < entries.count() => file_field(&entries.get(number - 2)),
        _ => [0; 64],
    }
}

// Appends the bytes of a data block of a directory, of so many entries.
fn append_block(
    fields: &SystemFields,
    entries: &NewEntries<'_>,
    each: u32,
    block: u32,
    into: &mut Vec<u8>,
) -> Result<(), AllocError>
    requires each { All CanWrite entries.now }
    requires small { block * each + each < 2 ^ 32 }
    ensures { OnOk result (into.new.items ≡ into.old.items
        ++ block_fields fields.now.directory fields.now.map entries.now each block) }
{
    let first = block * each;
    for number in first..first + each {
        into.extend_from_slice(&field_of(fields, entries, number))?;
    }
    Ok(())
}

// The bytes of these data blocks of the directory of these files, one block's behind the other's.
fn directory_bytes(
    alloc: Global,
    bsize: BlockSize,
    directory: &NewDirectory,
    map_tree: &HeldTree,
    places: &[u32],
    entries: &NewEntries<'_>,
    stamp: &Stamp,
) -> Result<Vec<u8>, AllocError>
    requires stamp { is_stamp stamp.now ≡ true }
    requires few { length entries.now ≤ most_files }
    requires each { All CanWrite entries.now }
    requires back { All ReadsBack entries.now }
    requires directory { length directory.now.tree.leaves
        ≡ directory_count bsize (length entries.now) }
    requires first { In 0 directory.now.part.leaves }
    requires nodes { length directory.now.tree.pointers
        ≡ pointer_count (bsize / 4) (length directory.now.tree.leaves) }
    requires at { All (λ j. j < length directory.now.tree.leaves) places.now }
    requires map { 1 ≤ length map_tree.now.leaves }
    requires map_few { length map_tree.now.leaves < 2 ^ 32 }
    ensures bytes { IfOk result (λ v. (s : spec.Systems) → s.directory ≡ directory.now.tree
        → s.map ≡ map_tree.now
        → v.items ≡ concat (map (directory_piece bsize s entries.now stamp.now) places.now)) }
    ensures long { IfOk result (λ v. length v.items ≡ length places.now * bsize) }
{
    let own = directory.file(bsize, entries.count() + FIRST_FILE);
    let fields = system_fields(bsize, &own, map_tree, stamp);
    let each = bsize.bytes() / ENTRY_SIZE;
    let mut bytes = Vec::new(alloc);
    for block in places {
        append_block(&fields, entries, each, *block, &mut bytes)?;
    }
    Ok(bytes)
}

// A label with its block's bytes.
#[derive(Drop)]
struct NewLabel {
    label: Label,
    bytes: Vec<u8>,
}

// The bytes of the label's block with another label.
fn relabel(alloc: Global, held: &Held, label: Label) -> Result<NewLabel, AllocError>
    ensures label { IfOk result (λ new. new.label ≡ label) }
    ensures bytes { IfOk result (λ new. new.bytes.items
        ≡ with_label label held.now.volume.label_bytes) }
    ensures long { IfOk result (λ new. length new.bytes.items ≡ held.now.volume.disk.bsize) }
    ensures size { OnOk result (IsBlockSize held.now.volume.disk.bsize) }
{
    let mut bytes = held.label_bytes.to_vec(alloc)?;
    write_label(&label, bytes.as_mut_slice());
    Ok(NewLabel { label, bytes })
}

// The label for a map.
fn label_for(label: Label, map: &Map) -> Label
    requires origin { label.origin ≤ 5 }
    requires count { length map.now ≡ label.blocks }
    ensures label { result ≡ label_for label map.now }
    ensures small { label.blocks < 2 ^ 32 }
{
    Label {
        origin: 9 - label.origin,
        in_use: label.blocks - map.free_count(),
        ..label
    }
}

/// What is written for files with these entries, in the blocks that are allotted.
pub fn fill_systems(
    alloc: Global,
    held: &Held,
    entries: &NewEntries<'_>,
    exchange: &Exchange<'_>,
    allotment: Allotment,
    stamp: &Stamp,
) -> Result<Systems, AllocError>
    requires stamp { is_stamp stamp.now ≡ true }
    requires few { length entries.now ≤ most_files }
    requires each { All CanWrite entries.now }
    requires back { All ReadsBack entries.now }
    requires files { exchange.now.files ≡ length entries.now }
    requires enough { AreEnoughFor held.now.volume entries.now exchange.now }
    requires allotted { IsAllottedFor held.now.volume exchange.now allotment }
    requires map_few { length allotment.map_tree.leaves < 2 ^ 32 }
    ensures { IfOk result (IsFilled held.now.volume entries.now allotment stamp.now) }
{
    let Ok(directory_bytes) = directory_bytes(
        alloc,
        held.bsize,
        &allotment.directory,
        &allotment.map_tree,
        &allotment.directory.part().leaves,
        entries,
        stamp,
    ) else {
        drop(allotment);
        return Err(AllocError);
    };
    let Ok(new) = relabel(alloc, held, label_for(held.label, &allotment.map)) else {
        drop(allotment);
        return Err(AllocError);
    };
    Ok(Systems {
        bsize: held.bsize,
        label: new.label,
        label_bytes: new.bytes,
        directory: allotment.directory,
        directory_bytes,
        map_tree: allotment.map_tree,
        map_part: allotment.map_part,
        map: allotment.map,
    })
}

// What is written for files with these entries, where no blocks are taken for a file.
fn plan_systems(
    alloc: Global,
    held: &Held,
    entries: &NewEntries<'_>,
    exchange: &Exchange<'_>,
    stamp: &Stamp,
) -> Result<Systems, PlanFault>
    requires stamp { is_stamp stamp.now ≡ true }
    requires few { length entries.now ≤ most_files }
    requires each { All CanWrite entries.now }
    requires back { All ReadsBack entries.now }
    requires files { exchange.now.files ≡ length entries.now }
    requires none { exchange.now.file ≡ 0 }
    requires enough { AreEnoughFor held.now.volume entries.now exchange.now }
    ensures prepared { IfOk result (IsPrepared held.now.volume entries.now exchange.now stamp.now) }
    ensures full { IfErr result (LacksRoom held.now.volume
        (needed held.now.volume (length entries.now) (numbers_made exchange.now))) }
{
    let allotment = allot(alloc, held, exchange)?;
    match fill_systems(alloc, held, entries, exchange, allotment, stamp) {
        Ok(systems) => Ok(systems),
        Err(_) => Err(PlanFault::Memory),
    }
}

// What becomes of the files where the one at a place goes: its blocks are given back, and the entries of these numbers are made anew.
fn exchange_without<'a>(held: &'a Held, place: u32, numbers: &'a [u32]) -> Exchange<'a>
    requires { place < length held.now.volume.files }
    ensures files { result.files ≡ length held.now.volume.files - 1 }
    ensures made { numbers_made result ≡ numbers.now }
    ensures none { result.file ≡ 0 }
    ensures given { (f : HeldFile) → slice_get held.now.volume.files place ≡ Some f
        → given_back result ≡ blocks_in f.tree }
{
    let tree = held.files[place as usize].tree();
    Exchange {
        files: held.count() - 1,
        made: Made::Entries(numbers),
        file: 0,
        leaves: tree.leaves(),
        pointers: tree.pointers(),
    }
}

// What is written for an edit of the files.
fn plan_edit(
    alloc: Global,
    held: &Held,
    edit: &FileEdit,
    stamp: &Stamp,
) -> Result<Systems, PlanFault>
    requires stamp { is_stamp stamp.now ≡ true }
    requires may { MayEdit held.now.volume.files edit.now }
    ensures ready { IfOk result (IsReadyAt held.now.volume edit.now stamp.now) }
    ensures full { IfErr result (LacksRoom held.now.volume
        (needed held.now.volume (count_after held.now.volume.files edit.now)
        (made_by held.now.volume.files edit.now))) }
{
    let entries = NewEntries::edited(held, edit);
    match edit {
        FileEdit::Drop { place } => {
            let numbers = [0, *place + FIRST_FILE, held.count() - 1 + FIRST_FILE];
            let exchange = exchange_without(held, *place, &numbers);
            plan_systems(alloc, held, &entries, &exchange, stamp)
        }
        FileEdit::Rename { place, .. } => {
            let exchange = Exchange {
                files: entries.count(),
                made: Made::Entries(&[0, *place + FIRST_FILE]),
                file: 0,
                leaves: &[],
                pointers: &[],
            };
            plan_systems(alloc, held, &entries, &exchange, stamp)
        }
        FileEdit::Century { .. } => {
            let exchange = Exchange {
                files: entries.count(),
                made: Made::Whole,
                file: 0,
                leaves: &[],
                pointers: &[],
            };
            plan_systems(alloc, held, &entries, &exchange, stamp)
        }
    }
}

// A step that edits the files.
fn edit_step(alloc: Global, held: &Held, edit: FileEdit, stamp: &Stamp) -> Result<Step, PlanFault>
    requires stamp { is_stamp stamp.now ≡ true }
    requires may { MayEdit held.now.volume.files edit }
    ensures step { IfOk result (IsStepOf held.now.volume edit stamp.now) }
    ensures full { IfErr result (LacksRoom held.now.volume
        (needed held.now.volume (count_after held.now.volume.files edit)
        (made_by held.now.volume.files edit))) }
{
    let systems = plan_edit(alloc, held, &edit, stamp)?;
    Ok(Step::Edit { edit, systems })
}

// A step that gives the volume another volume id.
fn relabel_step(alloc: Global, held: &Held, volid: [u8; 6]) -> Result<Step, PlanFault>
    ensures step { IfOk result (IsRelabelOf held.now.volume volid) }
    ensures memory { IfErr result (λ e. e ≡ Memory) }
{
    let label = Label {
        volid,
        ..held.label
    };
    match relabel(alloc, held, label) {
        Ok(new) => Ok(Step::Relabel {
            label: new.label,
            label_bytes: new.bytes,
        }),
        Err(_) => Err(PlanFault::Memory),
    }
}

// The step of a change.
fn step_for(alloc: Global, held: &Held, change: &Change, stamp: &Stamp) -> Result<Step, PlanFault>
    requires stamp { is_stamp stamp.now ≡ true }
    requires change { CanChange held.now.volume.files change.now }
    ensures planned { IfOk result (IsPlanFor held.now.volume (change_of change.now) stamp.now) }
    ensures full { IfErr result (IsFullFor held.now.volume change.now) }
{
    match change {
        Change::Drop { name } => {
            let place = held.place(name);
            edit_step(alloc, held, FileEdit::Drop { place }, stamp)
        }
        Change::Rename { from, to, number } => {
            let edit = FileEdit::Rename {
                place: held.place(from),
                to: **to,
                number: *number,
            };
            edit_step(alloc, held, edit, stamp)
        }
        Change::Relabel { volid } => relabel_step(alloc, held, *volid),
        Change::Century { pivot } => {
            edit_step(alloc, held, FileEdit::Century { pivot: *pivot }, stamp)
        }
    }
}

/// Plans a change: all that it writes, and all memory that it needs. Nothing is written, and the volume stays as it is held.
///
/// A file that is changed is there, and its new name is no other file's; a pivot is at most 100. `Full` comes exactly where the new directory and the new map
/// need more blocks than are free, and never for another volume id.
pub fn plan(
    alloc: Global,
    held: &mut Held,
    change: &Change,
    stamp: &Stamp,
) -> Result<Plan, PlanFault>
    requires stamp { is_stamp stamp.now ≡ true }
    requires change { CanChange held.old.volume.files change.now }
    ensures planned { IfOk result (IsPlanFor held.old.volume (change_of change.now) stamp.now) }
    ensures full { IfErr result (IsFullFor held.old.volume change.now) }
    ensures volume { held.new.volume ≡ held.old.volume }
    ensures spare { OnOk result (1 ≤ held.new.spare) }
    ensures places { held.old.spare ≤ held.new.spare }
    ensures kept { Keeps held.new.volume }
{
    let Ok(()) = held.reserve() else {
        return Err(PlanFault::Memory);
    };
    let step = step_for(alloc, held, change, stamp)?;
    Ok(Plan { step })
}
