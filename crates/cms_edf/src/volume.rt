// A whole volume, part by part.
ghost use Rattle.std.specs.Prelude.{◌≡◌, ◌⊎◌, ◌≤◌, ◌<◌, ◌+◌, ◌*◌, ◌/◌, [], ℕ, List, All, length, map, Ok, IfOk, IfErr, Some, None};
ghost use Rattle.std.specs.Option.{ForSome};
ghost use Rattle.cms_journal.specs.Journal.{HasBlocks, contents_of};
ghost use Rattle.cms_model.specs.Sizes.{levels, pointer_count};
ghost use Rattle.cms_model.specs.Trees.{image_of, bytes_at};
ghost use Rattle.cms_model.specs.Volumes.{tree_blocks};
ghost use Rattle.cms_model.specs.declared.fault.OpenFault.TheVariants.{Device, Memory};
ghost use Rattle.cms_map.specs.Bits.{bits_in};
ghost use Rattle.cms_tree.specs.Walks.{IsWithin};
ghost use Rattle.cms_held.specs.HeldVolumes.{IsFaultOf};
ghost use Rattle.cms_edf.specs.OpeningSteps.{OfImage, met_in, listed, trees_in, lost_in};
ghost use Rattle.cms_edf.specs.EntryShapes.{HasShape};
ghost use Rattle.cms_edf.specs.OpeningFiles.{HasTrees, HaveCounts};
ghost use Rattle.cms_fields.specs.Limits.{most_files};
ghost use Rattle.cms_world.specs.Seen.{OnlyReads, seen};

use crate::files::{all_blocks, read_files};
use crate::listing::{Listing, Place, read_map};
use crate::met::lost_of;
use crate::trees::bytes_of;
use cms_map::Map;
use cms_model::OpenFault;
use cms_tree::Walked;
use cms_world::World;
use std::alloc::Global;

/// The trees of the map and of the files.
#[derive(Drop)]
pub struct Trees {
    pub map: Walked,
    pub files: Vec<Walked>,
}

/// The trees of a volume whose directory was read.
pub fn read_trees<W: World>(
    alloc: Global,
    world: &mut W,
    place: &Place,
    listing: &Listing,
) -> Result<Trees, OpenFault>
    requires some { 1 ≤ listing.now.map.blocks }
    requires shape { listing.now.map.levels ≡ levels (place.now.bsize / 4) listing.now.map.blocks }
    requires few { length listing.now.entries.items ≤ most_files }
    requires entries { (length listing.now.entries.items + 2) * 64
        ≤ length listing.now.walked.leaves.items * place.now.bsize }
    requires shapes { All (HasShape place.now.bsize) listing.now.entries.items }
    requires blocks { ForSome (W.told world.old)
        (λ j. HasBlocks j.units place.now.unit place.now.total place.now.bsize) }
    ensures read { IfOk result (λ t. OfImage (W.told world.old) place.now.unit
        (λ image. HasTrees place.now image listing.now t)) }
    ensures fault { IfErr result (λ why. OfImage (W.told world.old) place.now.unit (λ image.
        IsFaultOf (trees_in place.now.bsize place.now.total place.now.origin image
        (listed listing.now)) why)) }
    ensures map { IfOk result (λ t. (length t.map.leaves.items ≡ listing.now.map.blocks)
        × IsWithin place.now.total None t.map) }
    ensures files { IfOk result (λ t. (length t.files.items ≡ length listing.now.entries.items)
        × All (IsWithin place.now.total None) t.files.items) }
    ensures counts { IfOk result (λ t.
        HaveCounts place.now.bsize listing.now.entries.items t.files.items) }
    ensures pointers { IfOk result (λ t. length t.map.pointers.items
        ≡ pointer_count (place.now.bsize / 4) listing.now.map.blocks) }
    ensures reads { OnlyReads (seen W.World world.old) (seen W.World world.new) Device result }
{
    let map = read_map(alloc, world, place, &listing.map)?;
    let files = read_files(
        alloc,
        world,
        place,
        &listing.walked.leaves,
        &listing.entries,
    )?;
    Ok(Trees { map, files })
}

/// The blocks that are in use, and how many of them are lost.
#[derive(Drop)]
pub struct Marks {
    pub map: Map,
    pub lost: u32,
}

// The map of so many blocks in bytes.
fn map_of(alloc: Global, bytes: &[u8], total: u32) -> Result<Map, OpenFault>
    requires { total ≤ 8 * length bytes.now }
    ensures bits { IfOk result (λ m. m ≡ bits_in total bytes.now) }
    ensures count { IfOk result (λ m. length m ≡ total) }
    ensures fault { IfErr result (λ e. e ≡ Memory) }
{
    match Map::of_bytes(alloc, bytes, total) {
        Ok(map) => Ok(map),
        Err(_) => Err(OpenFault::Memory),
    }
}

/// The blocks that are in use, where none is met twice and each that is met is marked.
pub fn read_marks<W: World>(
    alloc: Global,
    world: &mut W,
    place: &Place,
    directory: &Walked,
    trees: &Trees,
) -> Result<Marks, OpenFault>
    requires total { 6 ≤ place.now.total }
    requires origin { (place.now.origin ≡ 4) ⊎ (place.now.origin ≡ 5) }
    requires room { place.now.total ≤ 8 * (length trees.now.map.leaves.items * place.now.bsize) }
    requires directory { IsWithin place.now.total (Some place.now.origin) directory.now }
    requires map { IsWithin place.now.total None trees.now.map }
    requires files { All (IsWithin place.now.total None) trees.now.files.items }
    requires blocks { ForSome (W.told world.old)
        (λ j. HasBlocks j.units place.now.unit place.now.total place.now.bsize) }
    ensures count { IfOk result (λ m. length m.map ≡ place.now.total) }
    ensures bits { IfOk result (λ m. OfImage (W.told world.old) place.now.unit
        (λ image. m.map ≡ bits_in place.now.total
        (bytes_at image trees.now.map.leaves.items))) }
    ensures lost { IfOk result (λ m. OfImage (W.told world.old) place.now.unit (λ image. lost_in
        (bytes_at image trees.now.map.leaves.items) place.now.total
        (tree_blocks (met_in directory.now) (met_in trees.now.map)
        (map met_in trees.now.files.items)) ≡ Ok m.lost)) }
    ensures fault { IfErr result (λ why. OfImage (W.told world.old) place.now.unit
        (λ image. IsFaultOf (lost_in
        (bytes_at image trees.now.map.leaves.items) place.now.total
        (tree_blocks (met_in directory.now) (met_in trees.now.map)
        (map met_in trees.now.files.items))) why)) }
    ensures reads { OnlyReads (seen W.World world.old) (seen W.World world.new) Device result }
{
    let bytes = bytes_of(alloc, world, place.unit, place.bsize, &trees.map.leaves)?;
    let map = map_of(alloc, &bytes, place.total)?;
    let blocks = all_blocks(alloc, directory, &trees.map, &trees.files)?;
    let lost = lost_of(alloc, place.total, &map, &blocks)?;
    Ok(Marks { map, lost })
}
