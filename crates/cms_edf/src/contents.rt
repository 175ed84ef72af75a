// The records of the files of any volume, as opening reads them: none but those of varying lengths, a block at a time.
ghost use Rattle.std.specs.Prelude.{◌≡◌, ◌⊎◌, ◌≤◌, ◌<◌, ◌+◌, ◌*◌, ◌++◌, ◌∷◌, [], ℕ, List, All, length, map, slice_index, true, false, Ok, Err, IfOk, IfErr, OnOk, None};
ghost use Rattle.std.specs.Option.{ForSome};
ghost use Rattle.cms_journal.specs.Journal.{HasBlock, HasBlocks, contents_of};
ghost use Rattle.cms_model.specs.Trees.{image_of, bytes_at};
ghost use Rattle.indexmap.specs.IndexMap.{keys, values};
ghost use Rattle.cms_fields.specs.Entries.{passes};
ghost use Rattle.cms_names.specs.declared.name.Format.TheVariants.{F, V};
ghost use Rattle.cms_model.specs.Minidisks.{is_named};
ghost use Rattle.cms_model.specs.Volumes.{blamed, contents_in, first_twice};
ghost use Rattle.cms_model.specs.declared.fault.OpenFault.TheVariants as failed;
ghost use Rattle.cms_records.specs.Scans.{IsFed, filled_by, sizes_in};
ghost use Rattle.cms_model.specs.Records.{varying};
ghost use Rattle.cms_held.specs.Marks.{start_of};
ghost use Rattle.cms_tree.specs.Walks.{IsWithin};
ghost use Rattle.cms_held.specs.HeldVolumes.{IsFaultOf, by_name};
ghost use Rattle.cms_held.specs.Kept.{IsKeptFile, IsSized};
ghost use Rattle.cms_held.specs.Written.{ReadsBack};
ghost use Rattle.cms_edf.specs.OpeningSteps.{OfImage, met_in};
ghost use Rattle.cms_edf.specs.EntryShapes.{EndsIn, HasSize};
ghost use Rattle.cms_edf.specs.OpeningFiles.{records_in, HasRecords, HasContents, HaveCounts};
ghost use Rattle.cms_fields.specs.Limits.{longest_record, most_bytes, most_files};
ghost use Rattle.cms_world.specs.Seen.{OnlyReads, seen};

use crate::directory_bytes::spell_entry;
use crate::held::HeldFile;
use crate::listing::Place;
use crate::trees::{block_of, tree_held};
use cms_fields::Entry;
use cms_journal::BlockSize;
use cms_model::OpenFault;
use cms_names::{Format, Name};
use cms_records::{VarScan, VarSizes};
use cms_tree::Walked;
use cms_world::World;
use indexmap::IndexMap;
use std::alloc::Global;

/// The place of a record in a data block in which none begins.
const NOWHERE: u32 = u32::MAX;

/// What is told of a file's records: their sizes, and where at V the first of them begins in the data block that they fill in part.
#[derive(Clone, Copy)]
pub struct RecordsTold {
    pub sizes: VarSizes,
    pub start: u32,
}

// Where the first record begins in the data block that the records fill in part, once all bytes came.
fn start_in(scan: &VarScan, bsize: BlockSize, stored: u32) -> u32
    ensures { (count : ℕ) (bytes : List ℕ) (records : List (List ℕ)) → scan.now.bsize ≡ bsize
        → IsFed count bytes scan.now
        → varying scan.now.bsize count 0 bytes ≡ Ok records → stored ≡ filled_by records
        → result ≡ start_of bsize V records }
{
    if stored % bsize.bytes() == 0 {
        NOWHERE
    } else {
        scan.last_start()
    }
}

// Takes the next block of the file of a number.
fn feed(scan: &mut VarScan, number: u32, block: &[u8]) -> Result<(), OpenFault>
    requires { scan.old.fed + length block.now ≤ most_bytes }
    ensures fed { OnOk result ((count : ℕ) (bytes : List ℕ) → IsFed count bytes scan.old
        → IsFed count (bytes ++ block.now) scan.new) }
    ensures fault { IfErr result (λ why. (count : ℕ) (bytes rest : List ℕ)
        → IsFed count bytes scan.old → blamed (failed.Var number)
        (sizes_in scan.old.bsize count ((bytes ++ block.now) ++ rest)) ≡ Err why) }
    ensures device { IfErr result (λ e. e ≡ failed.Device → ⊥) }
    ensures bsize { scan.new.bsize ≡ scan.old.bsize }
    ensures count { scan.new.fed ≡ scan.old.fed + length block.now }
{
    match scan.feed(block) {
        Ok(()) => Ok(()),
        Err(fault) => Err(OpenFault::Var(number, fault)),
    }
}

// What is told of the records of the file of a number, once all its blocks were taken.
fn end(scan: &VarScan, number: u32) -> Result<VarSizes, OpenFault>
    ensures told { (count : ℕ) (bytes : List ℕ) → IsFed count bytes scan.now
        → result ≡ blamed (failed.Var number)
        (sizes_in scan.now.bsize count bytes) }
    ensures longest { IfOk result (λ sizes. sizes.longest ≤ longest_record) }
    ensures stored { IfOk result (λ sizes. sizes.stored ≤ most_bytes) }
    ensures high { IfOk result (λ sizes. sizes.stored ≤ scan.now.fed) }
    ensures low { IfOk result (λ sizes. scan.now.fed < sizes.stored + scan.now.bsize) }
    ensures device { IfErr result (λ e. e ≡ failed.Device → ⊥) }
{
    match scan.end() {
        Ok(sizes) => Ok(sizes),
        Err(fault) => Err(OpenFault::Var(number, fault)),
    }
}

// What is told of so many records of varying lengths in these blocks.
#[tactic(auto, using(crate::proofs::RecordsRead::takes_first, crate::proofs::RecordsRead::room_left))]
fn read_varying<W: World>(
    alloc: Global,
    world: &mut W,
    place: &Place,
    number: u32,
    count: u32,
    leaves: &[u32],
) -> Result<RecordsTold, OpenFault>
    requires some { 1 ≤ count }
    requires small { length leaves.now * place.now.bsize ≤ most_bytes }
    requires blocks { ForSome (W.told world.old) (λ j. (k : ℕ) → k < length leaves.now
        → HasBlock j.units place.now.unit (slice_index leaves.now k) place.now.bsize) }
    ensures read { IfOk result (λ told. OfImage (W.told world.old) place.now.unit
        (λ image. blamed (failed.Var number)
        (sizes_in place.now.bsize count (bytes_at image leaves.now)) ≡ Ok told.sizes)) }
    ensures start { IfOk result (λ told. OfImage (W.told world.old) place.now.unit
        (λ image. (records : List (List ℕ))
        → varying place.now.bsize count 0 (bytes_at image leaves.now) ≡ Ok records
        → told.start ≡ start_of place.now.bsize V records)) }
    ensures fault { IfErr result (λ why. OfImage (W.told world.old) place.now.unit
        (λ image. IsFaultOf (blamed (failed.Var number)
        (sizes_in place.now.bsize count (bytes_at image leaves.now))) why)) }
    ensures some { IfOk result (λ told. 1 ≤ told.sizes.longest) }
    ensures longest { IfOk result (λ told. told.sizes.longest ≤ longest_record) }
    ensures stored { IfOk result (λ told. told.sizes.stored ≤ most_bytes) }
    ensures sized { IfOk result (λ told. 3 * count ≤ told.sizes.stored) }
    ensures ends { 1 ≤ length leaves.now
        → IfOk result (λ told. EndsIn place.now.bsize (length leaves.now) told.sizes.stored) }
    ensures reads { OnlyReads (seen W.World world.old)
        (seen W.World world.new) failed.Device result }
{
    let mut scan = VarScan::new(count, place.bsize);
    for nth in 0..leaves.len() {
        let block = block_of(alloc, world, place.unit, leaves[nth], place.bsize)?;
        feed(&mut scan, number, &block)?;
    }
    let sizes = end(&scan, number)?;
    Ok(RecordsTold {
        sizes,
        start: start_in(&scan, place.bsize, sizes.stored),
    })
}

// What is told of a file's records, which have these data blocks. Those of fixed records are not read.
#[tactic(auto, using(crate::proofs::RecordsRead::fixed_few, crate::proofs::RecordsRead::varying_few))]
fn read_sizes<W: World>(
    alloc: Global,
    world: &mut W,
    place: &Place,
    number: u32,
    entry: &Entry,
    leaves: &[u32],
) -> Result<RecordsTold, OpenFault>
    requires size { HasSize place.now.bsize entry.now }
    requires count { length leaves.now ≡ entry.now.blocks }
    requires blocks { ForSome (W.told world.old) (λ j. (k : ℕ) → k < length leaves.now
        → HasBlock j.units place.now.unit (slice_index leaves.now k) place.now.bsize) }
    ensures read { IfOk result (λ told. OfImage (W.told world.old) place.now.unit (λ image.
        HasRecords place.now.bsize image number entry.now leaves.now told)) }
    ensures fault { IfErr result (λ why. OfImage (W.told world.old) place.now.unit (λ image.
        IsFaultOf (records_in place.now.bsize image number entry.now leaves.now) why)) }
    ensures some { IfOk result (λ told. 1 ≤ told.sizes.longest) }
    ensures longest { IfOk result (λ told. told.sizes.longest ≤ longest_record) }
    ensures fixed { IfOk result (λ told. entry.now.format ≡ F
        → told.sizes.longest ≡ entry.now.length) }
    ensures stored { IfOk result (λ told. told.sizes.stored ≤ most_bytes) }
    ensures sized { IfOk result (λ told.
        IsSized entry.now.format told.sizes.longest entry.now.count told.sizes.stored) }
    ensures ends { IfOk result (λ told.
        EndsIn place.now.bsize (length leaves.now) told.sizes.stored) }
    ensures reads { OnlyReads (seen W.World world.old)
        (seen W.World world.new) failed.Device result }
{
    match entry.format {
        Format::F => Ok(RecordsTold {
            sizes: VarSizes {
                longest: entry.length,
                stored: entry.count * entry.length,
            },
            start: NOWHERE,
        }),
        Format::V => read_varying(alloc, world, place, number, entry.count, leaves),
    }
}

// A file with its tree, and with what is told of its records: its entry tells their length, at V of the longest, whatever was found there. What
// is written for that entry is read back as it.
fn file_of(entry: Entry, tree: Walked, told: &RecordsTold) -> HeldFile
    ensures is { result ≡ record {
      entry = record entry { length = told.now.sizes.longest };
      tree = record { leaves = tree.leaves.items; pointers = tree.pointers.items };
      length = told.now.sizes.longest;
      size = told.now.sizes.stored;
      start = told.now.start;
    } }
    ensures spelled { ReadsBack result.entry }
{
    let entry = Entry {
        length: told.sizes.longest,
        ..entry
    };
    spell_entry(&entry);
    HeldFile {
        entry,
        tree: tree_held(tree),
        length: told.sizes.longest,
        size: told.sizes.stored,
        start: told.start,
    }
}

// Adds a file behind the others, none of which has its name.
fn insert(files: &mut IndexMap<Name, HeldFile>, file: HeldFile) -> Result<(), OpenFault>
    requires new { is_named file.entry.name (keys files.old) ≡ false }
    ensures ok { OnOk result (files.new.entries
        ≡ files.old.entries ++ ((file.entry.name, file) ∷ [])) }
    ensures fault { IfErr result (λ e. e ≡ failed.Memory) }
{
    let name = file.entry().name;
    match files.insert(name, file) {
        Ok(_) => Ok(()),
        Err(_) => Err(OpenFault::Memory),
    }
}

/// The files of these entries, whose names are distinct, with their trees, once their records were read.
pub fn read_contents<W: World>(
    alloc: Global,
    world: &mut W,
    place: &Place,
    entries: &[Entry],
    trees: Vec<Walked>,
) -> Result<IndexMap<Name, HeldFile>, OpenFault>
    requires few { length entries.now ≤ most_files }
    requires count { length trees.items ≡ length entries.now }
    requires entries { All (λ e. passes place.now.bsize e ≡ true) entries.now }
    requires names { first_twice 2 [] entries.now ≡ None }
    requires sizes { All (HasSize place.now.bsize) entries.now }
    requires counts { HaveCounts place.now.bsize entries.now trees.items }
    requires within { All (IsWithin place.now.total None) trees.items }
    requires blocks { ForSome (W.told world.old)
        (λ j. HasBlocks j.units place.now.unit place.now.total place.now.bsize) }
    ensures read { IfOk result (λ files. OfImage (W.told world.old) place.now.unit (λ image.
        HasContents place.now.bsize image entries.now trees.items (values files))) }
    ensures names { IfOk result (λ files. files.entries ≡ by_name (values files)) }
    ensures few { IfOk result (λ files. length (values files) ≤ most_files) }
    ensures total { IfOk result (λ files. length (values files) ≡ length entries.now) }
    ensures each { IfOk result (λ files.
        All (IsKeptFile place.now.bsize place.now.total) (values files)) }
    ensures fault { IfErr result (λ why. OfImage (W.told world.old) place.now.unit
        (λ image. IsFaultOf
        (contents_in place.now.bsize image 2 entries.now (map met_in trees.items)) why)) }
    ensures reads { OnlyReads (seen W.World world.old)
        (seen W.World world.new) failed.Device result }
{
    let mut files = IndexMap::new(alloc);
    for tree in trees {
        let nth = files.len();
        let entry = entries[nth];
        let told = match read_sizes(alloc, world, place, nth as u32 + 2, &entry, &tree.leaves) {
            Ok(told) => told,
            Err(fault) => {
                drop(tree);
                return Err(fault);
            }
        };
        insert(&mut files, file_of(entry, tree, &told))?;
    }
    Ok(files)
}
