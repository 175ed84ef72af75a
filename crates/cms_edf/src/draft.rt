// A file that is put into a volume while its records come.
ghost use Rattle.std.specs.Prelude.{◌≡◌, ℕ, List, ◌≤◌, ◌<◌, ◌+◌, ◌^◌, ◌++◌, ◌∷◌, [], true, None, Some, Err, length, position, IfOk, IfErr, OnOk};
ghost use Rattle.cms_journal.specs.Journal.{IsBlockSize};
ghost use Rattle.cms_fields.specs.Entries.{fan_of};
ghost use Rattle.cms_fields.specs.Limits.{most_bytes, most_files, most_records};
ghost use Rattle.cms_fields.specs.Numbers.{up};
ghost use Rattle.cms_fields.specs.Stamps.{is_stamp};
ghost use Rattle.cms_model.specs.Sizes.{levels, pointer_count};
ghost use Rattle.cms_held.specs.Kept.{Keeps};
ghost use Rattle.cms_held.specs.Puts.{count_put, count_with, limit_put, made_with, need_put};
ghost use Rattle.cms_held.specs.Renewals.{entries_held};
ghost use Rattle.cms_held.specs.Written.{CanWrite};
ghost use Rattle.cms_edf.specs.FileDrafts.{CanDraft, DraftStands, GivenAt, IsSomeDraft, StandsThen, StaysHeld, IsDraftFor, IsPlaceIn, IsRefused, list_with, entry_for, tree_of};
ghost use Rattle.std.specs.List.{concat};
ghost use Rattle.std.specs.Option.{ForSome};
ghost use Rattle.cms_names.specs.declared.name.Format.TheVariants.{F};
ghost use Rattle.cms_world.specs.Seen.{OnUnits, seen};
ghost use Rattle.cms_journal.specs.Journal.{Journal};
ghost use Rattle.cms_model.specs.Minidisks.{Minidisk};
ghost use Rattle.cms_model.specs.Records.{Fits, stored};
ghost use Rattle.cms_held.specs.Drafts.{Front};
ghost use Rattle.cms_held.specs.MinidiskUpdates.{IsHeldMinidisk};
ghost use Rattle.cms_held.specs.BlockWriters.{AddsOwnBlocks, CanWrite as CanWriteBlocks, IsSame, came};
ghost use Rattle.cms_held.specs.FileWriters.{Drafts, IsDrafting, IsFresh, Puts, PutsRun};
ghost use Rattle.cms_model.specs.Minidisks.{same_name};
ghost use Rattle.cms_held.specs.HeldVolumes.{HeldFile, HeldVolume, names_in};
ghost use Rattle.cms_edf.specs.Allotments.{IsAllottedFor, given_back, numbers_made};
ghost use Rattle.cms_edf.specs.Growths.{IsFrontOf, IsMoreFor};
ghost use Rattle.cms_edf.specs.NoRoom.{LacksRoom};
ghost use Rattle.cms_names.specs.declared.name.Name as names;
ghost use Rattle.cms_fields.specs.declared.time.Stamp as stamps;
ghost use Rattle.cms_held.specs.declared.shape.DraftShape as shapes;
ghost use Rattle.cms_edf.specs.ChangePlans.{IsFilled};
ghost use Rattle.cms_edf.specs.declared.allotment.PlanFault.TheVariants.{Limit};

use crate::allotment::{Allotment, Exchange, Made, PlanFault, allot};
use crate::blocks::tree_in;
use crate::change_plan::{FIRST_FILE, fill_systems};
use crate::directory_bytes::root;
use crate::held::{Held, HeldTree};
use crate::new_entries::NewEntries;
use crate::system_blocks::Systems;
use cms_fields::{Entry, MOST_BYTES, MOST_FILES, MOST_RECORDS, Stamp, pointer_size};
use cms_held::{DraftShape, FileWriter};
use cms_journal::BlockSize;
use cms_names::Name;
use cms_tree::shape;
use cms_world::{Failed, World};
use std::alloc::{AllocError, Global};
use std::marker::Model;

/// A file that is put into a volume while its records come. It holds the numbers of the file's blocks, one of its data blocks, one block
/// for each level over them, and all that is written then for the volume.
#[derive(Drop)]
pub struct Draft {
    pub(crate) entry: Entry,
    pub(crate) writer: FileWriter,
    pub(crate) systems: Systems,
}

impl Model for Draft {
    ghost use Rattle.cms_edf.specs.FileDrafts as drafts;

    ghost Value = { drafts.Draft };

    ghost view = { λ d. record { entry = d.entry; writer = d.writer; systems = d.systems } };
}

// How many blocks a file takes, and its levels.
#[derive(Clone, Copy)]
struct FileCounts {
    data: u32,
    pointers: u32,
    levels: u8,
}

fn count_blocks(bsize: BlockSize, asked: &DraftShape) -> FileCounts
    requires some { 1 ≤ asked.now.bytes }
    requires few { asked.now.bytes ≤ most_bytes }
    ensures size { IsBlockSize bsize }
    ensures data { result.data ≡ up asked.now.bytes bsize }
    ensures pointers { result.pointers ≡ pointer_count (fan_of bsize asked.now.format) result.data }
    ensures levels { result.levels ≡ levels (fan_of bsize asked.now.format) result.data }
    ensures some { 1 ≤ result.data }
    ensures small { result.data + result.pointers < 2 ^ 31 }
{
    let data = (asked.bytes as u32).div_ceil(bsize.bytes());
    let tree = shape(data, bsize.bytes() / u32::from(pointer_size(asked.format)));
    FileCounts {
        data,
        pointers: tree.pointers,
        levels: tree.levels,
    }
}

// The lowest limit that is passed: 1 by the files, 2 by the file's records, 3 by its bytes.
pub(crate) fn passed_limit(files: u32, asked: &DraftShape) -> Option<u32>
    ensures { result ≡ limit_put files asked.now.count asked.now.bytes }
{
    if files > MOST_FILES {
        Some(1)
    } else if asked.count > MOST_RECORDS {
        Some(2)
    } else if asked.bytes > u64::from(MOST_BYTES) {
        Some(3)
    } else {
        None
    }
}

// What the file does to the files: it takes so many blocks, in the place of one, whose blocks are given back, or as the last.
fn exchange_of<'a>(held: &'a Held, place: Option<u32>, blocks: u32, made: &'a [u32]) -> Exchange<'a>
    requires place { IsPlaceIn held.now.volume.files place }
    ensures files { result.files ≡ count_with place (length held.now.volume.files) }
    ensures made { numbers_made result ≡ made.now }
    ensures file { result.file ≡ blocks }
    ensures given { (given : List ℕ) → GivenAt held.now.volume.files place given
        → given_back result ≡ given }
{
    match place {
        Some(place) => {
            let tree = held.files[place as usize].tree();
            Exchange {
                files: held.count(),
                made: Made::Entries(made),
                file: blocks,
                leaves: tree.leaves(),
                pointers: tree.pointers(),
            }
        }
        None => Exchange {
            files: held.count() + 1,
            made: Made::Entries(made),
            file: blocks,
            leaves: &[],
            pointers: &[],
        },
    }
}

// The numbers of the entries that are made anew where a file stands in a place or as the last.
fn entries_made_with(held: &Held, place: Option<u32>) -> [u32; 2]
    requires place { IsPlaceIn held.now.volume.files place }
    ensures { result ≡ made_with place (length held.now.volume.files) }
{
    let last = held.count();
    match place {
        Some(place) => [0, place + FIRST_FILE],
        None => [0, last + FIRST_FILE],
    }
}

// The entry of a file over a tree of so many levels.
pub(crate) fn entry_for(name: &Name, asked: &DraftShape, tree: &HeldTree, height: u8) -> Entry
    requires some { 1 ≤ length tree.now.leaves }
    requires few { length tree.now.leaves < 2 ^ 32 }
    ensures { (bsize : ℕ) → height ≡ levels (fan_of bsize asked.now.format) (length tree.now.leaves)
        → result ≡ entry_for bsize name.now asked.now tree.now }
{
    Entry {
        name: *name,
        number: asked.number,
        format: asked.format,
        length: asked.length,
        root: root(tree.leaves(), tree.pointers()),
        blocks: tree.leaves().len() as u32,
        count: asked.count,
        levels: height,
        stamp: asked.stamp,
    }
}

// What is written for the files with this one in a place, or as the last, in the blocks that are allotted.
pub(crate) fn plan_entry(
    alloc: Global,
    held: &Held,
    place: Option<u32>,
    entry: &Entry,
    exchange: &Exchange<'_>,
    allotment: Allotment,
    stamp: &Stamp,
) -> Result<Systems, AllocError>
    requires stamp { is_stamp stamp.now ≡ true }
    requires place { IsPlaceIn held.now.volume.files place }
    requires few { count_with place (length held.now.volume.files) ≤ most_files }
    requires entry { CanWrite entry.now }
    requires files { exchange.now.files ≡ count_with place (length held.now.volume.files) }
    requires made { numbers_made exchange.now ≡ made_with place (length held.now.volume.files) }
    requires allotted { IsAllottedFor held.now.volume exchange.now allotment }
    requires map_few { length allotment.map_tree.leaves < 2 ^ 32 }
    ensures { IfOk result (IsFilled held.now.volume
        (list_with (entries_held held.now.volume.files) place entry.now)
        allotment stamp.now) }
{
    let entries = NewEntries::with(held, place, entry);
    fill_systems(alloc, held, &entries, exchange, allotment, stamp)
}

// Plans a file that passes no limit, in the place of one or as the last.
fn plan_file(
    alloc: Global,
    held: &Held,
    place: Option<u32>,
    name: &Name,
    asked: &DraftShape,
    stamp: &Stamp,
) -> Result<Draft, PlanFault>
    requires stamp { is_stamp stamp.now ≡ true }
    requires asked { CanDraft asked.now }
    requires place { place ≡ position (same_name name.now) (names_in held.now.volume.files) }
    requires unlimited { limit_put (count_put held.now.volume name.now) asked.now.count
        asked.now.bytes ≡ None }
    ensures planned { IfOk result (IsDraftFor held.now.volume name.now asked.now stamp.now) }
    ensures fresh { IfOk result (λ d.
        IsFresh held.now.volume.unit held.now.volume.disk.bsize asked.now (tree_of d) d.writer) }
    ensures full { IfErr result (LacksRoom held.now.volume
        (need_put held.now.volume name.now asked.now.format asked.now.bytes)) }
{
    let counts = count_blocks(held.bsize, asked);
    let made = entries_made_with(held, place);
    let exchange = exchange_of(held, place, counts.data + counts.pointers, &made);
    let allotment = match allot(alloc, held, &exchange) {
        Ok(allotment) => allotment,
        Err(why) => return Err(why),
    };
    let Ok(tree) = tree_in(alloc, &allotment.file, counts.data) else {
        drop(allotment);
        return Err(PlanFault::Memory);
    };
    let entry = entry_for(name, asked, &tree, counts.levels);
    let Ok(systems) = plan_entry(alloc, held, place, &entry, &exchange, allotment, stamp) else {
        return Err(PlanFault::Memory);
    };
    let Ok(writer) = FileWriter::new(alloc, held.unit, held.bsize, asked, tree) else {
        drop(systems);
        return Err(PlanFault::Memory);
    };
    Ok(Draft {
        entry,
        writer,
        systems,
    })
}

/// Plans a file of a name that is to have so many records and stored bytes: all that it writes but its own blocks, and all memory that the
/// update needs. It takes the place of the file of that name, or stands last. Nothing is written, and the volume stays as it is held.
///
/// `Limit` comes exactly where the file would pass one, the lowest of them; else `Full` exactly where it needs more blocks than are free.
pub fn plan_draft(
    alloc: Global,
    held: &mut Held,
    name: &Name,
    asked: &DraftShape,
    stamp: &Stamp,
) -> Result<Draft, PlanFault>
    requires stamp { is_stamp stamp.now ≡ true }
    requires asked { CanDraft asked.now }
    ensures planned { IfOk result (IsDraftFor held.old.volume name.now asked.now stamp.now) }
    ensures some { IfOk result (IsSomeDraft held.new.volume) }
    ensures fresh { IfOk result (λ d.
        IsFresh held.old.volume.unit held.old.volume.disk.bsize asked.now (tree_of d) d.writer) }
    ensures refused { IfErr result (IsRefused held.old.volume name.now asked.now) }
    ensures limited { (which : ℕ) → limit_put
        (count_put held.old.volume name.now) asked.now.count asked.now.bytes ≡ Some which
        → result ≡ Err (Limit which) }
    ensures kept { Keeps held.old.volume }
    ensures volume { held.new.volume ≡ held.old.volume }
    ensures spare { OnOk result (1 ≤ held.new.spare) }
    ensures places { held.old.spare ≤ held.new.spare }
{
    let place = held.find(name);
    plan_draft_at(alloc, held, place, name, asked, stamp)
}

/// Plans a file of a name, as `plan_draft` does, where the place of the file of that name is known, or that there is none.
pub fn plan_draft_at(
    alloc: Global,
    held: &mut Held,
    place: Option<u32>,
    name: &Name,
    asked: &DraftShape,
    stamp: &Stamp,
) -> Result<Draft, PlanFault>
    requires stamp { is_stamp stamp.now ≡ true }
    requires asked { CanDraft asked.now }
    requires place { place
        ≡ position (same_name name.now) (names_in held.old.volume.files) }
    ensures planned { IfOk result (IsDraftFor held.old.volume name.now asked.now stamp.now) }
    ensures some { IfOk result (IsSomeDraft held.new.volume) }
    ensures fresh { IfOk result (λ d.
        IsFresh held.old.volume.unit held.old.volume.disk.bsize asked.now (tree_of d) d.writer) }
    ensures refused { IfErr result (IsRefused held.old.volume name.now asked.now) }
    ensures limited { (which : ℕ) → limit_put
        (count_put held.old.volume name.now) asked.now.count asked.now.bytes ≡ Some which
        → result ≡ Err (Limit which) }
    ensures kept { Keeps held.old.volume }
    ensures volume { held.new.volume ≡ held.old.volume }
    ensures spare { OnOk result (1 ≤ held.new.spare) }
    ensures places { held.old.spare ≤ held.new.spare }
{
    let count = held.count();
    let files = match place {
        Some(_) => count,
        None => count + 1,
    };
    if let Some(which) = passed_limit(files, asked) {
        return Err(PlanFault::Limit(which));
    }
    let Ok(()) = held.reserve() else {
        return Err(PlanFault::Memory);
    };
    plan_file(alloc, held, place, name, asked, stamp)
}

impl Draft {
    /// What the file is to be.
    pub fn shape(&self) -> &DraftShape
        ensures { result.now ≡ self.now.writer.shape }
    {
        self.writer.shape()
    }

    /// How many records are still to be put.
    pub fn records_left(&self) -> u32
        ensures { self.now.writer.put + result ≡ self.now.writer.shape.count }
    {
        self.writer.records_left()
    }

    /// How many bytes are still to be stored: at V with the two of each record's length.
    pub fn bytes_left(&self) -> u32
        ensures { came self.now.writer.writer + result ≡ self.now.writer.writer.size }
    {
        self.writer.bytes_left()
    }

    /// Puts the next record: writes each data block that is whole with it, and the pointer blocks that are complete with that. These were
    /// free, so the minidisk stays as it is.
    ///
    /// It takes no memory. `Failed` where the device did; the draft is of no more use then.
    pub fn put<W: World>(&mut self, world: &mut W, text: &[u8]) -> Result<(), Failed>
        requires fewer { self.old.writer.put < self.old.writer.shape.count }
        requires fits { Fits self.old.writer.shape.format self.old.writer.shape.length text.now }
        requires room { came self.old.writer.writer + length
            (stored self.old.writer.shape.format (text.now ∷ []))
            ≤ self.old.writer.writer.size }
        requires ready { ForSome (W.told world.old)
            (λ j. CanWriteBlocks j.units self.old.writer.writer) }
        ensures puts { (front : Front) (records more : List (List ℕ))
            → Drafts self.old.writer front records (text.now ∷ more)
            → Puts (W.told world.old)
            (W.told world.new) self.old.writer self.new.writer front records text.now more result }
        ensures own { AddsOwnBlocks (W.told world.old) (W.told world.new) self.old.writer.writer }
        ensures aside { (j : Journal) (v : HeldVolume) (m : Minidisk) → W.told world.old ≡ Some j
            → IsHeldMinidisk j v m
            → IsSomeDraft v self.old → StaysHeld j (W.told world.new) v m }
        ensures stands { (j : Journal) (v : HeldVolume) (m : Minidisk) (front : Front)
            (records more : List (List ℕ))
            → W.told world.old ≡ Some j
            → IsHeldMinidisk j v m → IsSomeDraft v self.old
            → Drafts self.old.writer front records (text.now ∷ more)
            → DraftStands j self.old.writer front (records ++ (text.now ∷ more))
            → StandsThen (W.told world.new) self.old.writer self.new.writer front
            (records ++ (text.now ∷ more)) result }
        ensures front { (j : Journal) (v : HeldVolume) (m : Minidisk) (name : names.Name)
            (f : HeldFile) (shape : shapes.DraftShape)
            (stamp : stamps.Stamp) (front : Front) → W.told world.old ≡ Some j
            → IsHeldMinidisk j v m
            → IsMoreFor v name f shape stamp self.old → IsFrontOf j v f (tree_of self.old) front
            → ForSome (W.told world.new) (λ k. IsFrontOf k v f (tree_of self.old) front) }
        ensures all { OnOk result (came self.new.writer.writer
            ≡ came self.old.writer.writer + length
            (stored self.old.writer.shape.format (text.now ∷ []))) }
        ensures same { IsSame self.old.writer.writer self.new.writer.writer }
        ensures draft { self.new ≡ record self.old {
          writer = record self.old.writer {
            put = self.old.writer.put + 1;
            writer = self.new.writer.writer;
          };
        } }
        ensures planned { (v : HeldVolume) → IsSomeDraft v self.old → IsSomeDraft v self.new }
        ensures kept { IsDrafting self.old.writer }
        ensures is { IsDrafting self.new.writer }
        ensures still { ForSome (W.told world.new)
            (λ j. CanWriteBlocks j.units self.new.writer.writer) }
        ensures counts { OnUnits (seen W.World world.old) (seen W.World world.new) result }
    {
        self.writer.put(world, text)
    }

    /// Puts records that come next, at F, where all have one length: their bytes in a row. It writes as `put` does.
    ///
    /// It takes no memory. `Failed` where the device did; the draft is of no more use then.
    pub fn put_run<W: World>(
        &mut self,
        world: &mut W,
        bytes: &[u8],
        count: u32,
    ) -> Result<(), Failed>
        requires fixed { self.old.writer.shape.format ≡ F }
        requires fewer { self.old.writer.put + count ≤ self.old.writer.shape.count }
        requires room { came self.old.writer.writer + length bytes.now
            ≤ self.old.writer.writer.size }
        requires ready { ForSome (W.told world.old)
            (λ j. CanWriteBlocks j.units self.old.writer.writer) }
        ensures puts { (front : Front) (records run more : List (List ℕ)) → length run ≡ count
            → bytes.now ≡ concat run → Drafts self.old.writer front records (run ++ more)
            → PutsRun (W.told world.old)
            (W.told world.new) self.old.writer self.new.writer front records run more result }
        ensures own { AddsOwnBlocks (W.told world.old) (W.told world.new) self.old.writer.writer }
        ensures stands { (j : Journal) (v : HeldVolume) (m : Minidisk) (front : Front)
            (records run more : List (List ℕ)) → length run ≡ count → bytes.now ≡ concat run
            → W.told world.old ≡ Some j
            → IsHeldMinidisk j v m → IsSomeDraft v self.old
            → Drafts self.old.writer front records (run ++ more)
            → DraftStands j self.old.writer front (records ++ (run ++ more))
            → StandsThen (W.told world.new) self.old.writer self.new.writer front
            (records ++ (run ++ more)) result }
        ensures front { (j : Journal) (v : HeldVolume) (m : Minidisk) (name : names.Name)
            (f : HeldFile) (shape : shapes.DraftShape)
            (stamp : stamps.Stamp) (front : Front) → W.told world.old ≡ Some j
            → IsHeldMinidisk j v m
            → IsMoreFor v name f shape stamp self.old → IsFrontOf j v f (tree_of self.old) front
            → ForSome (W.told world.new) (λ k. IsFrontOf k v f (tree_of self.old) front) }
        ensures all { OnOk result (came self.new.writer.writer
            ≡ came self.old.writer.writer + length bytes.now) }
        ensures same { IsSame self.old.writer.writer self.new.writer.writer }
        ensures draft { self.new ≡ record self.old {
          writer = record self.old.writer {
            put = self.old.writer.put + count;
            writer = self.new.writer.writer;
          };
        } }
        ensures kept { IsDrafting self.old.writer }
        ensures is { IsDrafting self.new.writer }
        ensures still { ForSome (W.told world.new)
            (λ j. CanWriteBlocks j.units self.new.writer.writer) }
        ensures counts { OnUnits (seen W.World world.old) (seen W.World world.new) result }
    {
        self.writer.put_run(world, bytes, count)
    }
}
