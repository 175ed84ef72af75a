// The files of any volume: their trees, and what is told of their records.
ghost use Rattle.std.specs.Prelude.{◌≡◌, ◌⊎◌, ◌≤◌, ◌<◌, ◌+◌, ◌*◌, ℕ, List, All, length, map, Ok, IfOk, IfErr, None};
ghost use Rattle.std.specs.Option.{ForSome};
ghost use Rattle.cms_journal.specs.Journal.{HasBlocks, contents_of};
ghost use Rattle.cms_fields.specs.Entries.{fan_of};
ghost use Rattle.cms_model.specs.Sizes.{pointer_count};
ghost use Rattle.cms_model.specs.Trees.{image_of};
ghost use Rattle.cms_model.specs.Volumes.{holder_of, file_trees, tree_blocks};
ghost use Rattle.cms_model.specs.declared.fault.OpenFault.TheVariants.{Device, Memory};
ghost use Rattle.cms_tree.specs.Walks.{IsWithin};
ghost use Rattle.cms_held.specs.HeldVolumes.{IsFaultOf};
ghost use Rattle.cms_edf.specs.OpeningSteps.{OfImage, met_in};
ghost use Rattle.cms_edf.specs.EntryShapes.{HasShape};
ghost use Rattle.cms_edf.specs.OpeningFiles.{file_at, ReadsFile, HasFiles, HaveCounts};
ghost use Rattle.cms_fields.specs.Limits.{most_files};
ghost use Rattle.cms_world.specs.Seen.{OnlyReads, seen};

use crate::blocks::{append, push};
use crate::listing::Place;
use crate::system::ENTRY_SIZE;
use crate::trees::tree_of;
use cms_fields::{Entry, pointer_size};
use cms_journal::BlockSize;
use cms_model::OpenFault;
use cms_tree::{TreeAt, Walked};
use cms_world::World;
use std::alloc::Global;

// Where a file's tree stands, whose root's number is in the block `holder`.
fn file_at(place: &Place, holder: u32, entry: &Entry) -> TreeAt
    ensures { result ≡ file_at place.now holder entry.now }
{
    TreeAt {
        unit: place.unit,
        bsize: place.bsize,
        volume: place.total,
        holder,
        root: entry.root,
        count: entry.blocks,
        psize: pointer_size(entry.format),
        first: None,
    }
}

// The block of the directory in which the entry of a number stands.
#[tactic(auto, using(crate::proofs::FileTrees::place_in, crate::proofs::FileTrees::some_entries))]
fn holder_of(bsize: BlockSize, leaves: &[u32], number: u32) -> u32
    requires within { number * 64 < length leaves.now * bsize }
    ensures { result ≡ holder_of bsize leaves.now number }
{
    leaves[(number / (bsize.bytes() / ENTRY_SIZE)) as usize]
}

/// The tree of a file whose root's number is in the block `holder`.
#[tactic(auto, using(crate::proofs::FileTrees::file_read))]
fn read_file<W: World>(
    alloc: Global,
    world: &mut W,
    place: &Place,
    holder: u32,
    entry: &Entry,
) -> Result<Walked, OpenFault>
    requires shape { HasShape place.now.bsize entry.now }
    requires blocks { ForSome (W.told world.old)
        (λ j. HasBlocks j.units place.now.unit place.now.total place.now.bsize) }
    ensures read { OfImage (W.told world.old) place.now.unit
        (λ image. ReadsFile place.now image holder entry.now result) }
    ensures count { IfOk result (λ walked. length walked.leaves.items ≡ entry.now.blocks) }
    ensures pointers { IfOk result (λ walked. length walked.pointers.items
        ≡ pointer_count (fan_of place.now.bsize entry.now.format) entry.now.blocks) }
    ensures within { IfOk result (IsWithin place.now.total None) }
    ensures reads { OnlyReads (seen W.World world.old) (seen W.World world.new) Device result }
{
    tree_of(alloc, world, &file_at(place, holder, entry))
}

/// The trees of the files of these entries, in order; the directory has these data blocks.
pub fn read_files<W: World>(
    alloc: Global,
    world: &mut W,
    place: &Place,
    leaves: &[u32],
    entries: &[Entry],
) -> Result<Vec<Walked>, OpenFault>
    requires few { length entries.now ≤ most_files }
    requires room { (length entries.now + 2) * 64 ≤ length leaves.now * place.now.bsize }
    requires shapes { All (HasShape place.now.bsize) entries.now }
    requires blocks { ForSome (W.told world.old)
        (λ j. HasBlocks j.units place.now.unit place.now.total place.now.bsize) }
    ensures read { IfOk result (λ v. OfImage (W.told world.old) place.now.unit (λ image.
        HasFiles place.now image leaves.now entries.now v.items)) }
    ensures fault { IfErr result (λ why. OfImage (W.told world.old) place.now.unit (λ image.
        IsFaultOf (file_trees place.now.bsize place.now.total image leaves.now 2 entries.now)
        why)) }
    ensures count { IfOk result (λ v. length v.items ≡ length entries.now) }
    ensures counts { IfOk result (λ v. HaveCounts place.now.bsize entries.now v.items) }
    ensures within { IfOk result (λ v. All (IsWithin place.now.total None) v.items) }
    ensures reads { OnlyReads (seen W.World world.old) (seen W.World world.new) Device result }
{
    let mut trees = Vec::new(alloc);
    for nth in 0..entries.len() {
        let holder = holder_of(place.bsize, leaves, nth as u32 + 2);
        let tree = read_file(alloc, world, place, holder, &entries[nth])?;
        push(&mut trees, tree)?;
    }
    Ok(trees)
}

/// All blocks of the trees of the directory, of the map and of the files, each tree in preorder.
pub fn all_blocks(
    alloc: Global,
    directory: &Walked,
    map_tree: &Walked,
    files: &[Walked],
) -> Result<Vec<u32>, OpenFault>
    ensures ok { IfOk result (λ v. v.items
        ≡ tree_blocks (met_in directory.now) (met_in map_tree.now) (map met_in files.now)) }
    ensures fault { IfErr result (λ e. e ≡ Memory) }
{
    let mut blocks = Vec::new(alloc);
    append(&mut blocks, &directory.blocks)?;
    append(&mut blocks, &map_tree.blocks)?;
    for nth in 0..files.len() {
        append(&mut blocks, &files[nth].blocks)?;
    }
    Ok(blocks)
}
