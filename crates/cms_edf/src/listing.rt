// Any volume is opened, test by test.
ghost use Rattle.std.specs.Prelude.{◌≡◌, ◌⊎◌, ◌≤◌, ◌<◌, ◌/◌, [], Some, None, IfOk, IfErr, OnOk, length};
ghost use Rattle.std.specs.Option.{ForSome};
ghost use Rattle.cms_journal.specs.Journal.{HasBlocks};
ghost use Rattle.cms_model.specs.Sizes.{levels, pointer_count};
ghost use Rattle.cms_model.specs.Volumes.{absent, first_twice};
ghost use Rattle.cms_model.specs.declared.fault.OpenFault.TheVariants as failed;
ghost use Rattle.cms_tree.specs.Walks.{IsWithin};
ghost use Rattle.cms_held.specs.HeldVolumes.{IsFaultOf};
ghost use Rattle.cms_edf.specs.OpeningSteps.{IsListing, OfImage, ReadsListed, ReadsMap, system_at};
ghost use Rattle.cms_fields.specs.Limits.{most_files};
ghost use Rattle.cms_world.specs.Seen.{OnlyReads, seen};

use crate::entries::{entries_of, name_twice};
use crate::system::{POINTER_SIZE, SystemFile, directory_in, map_in};
use crate::trees::{block_of, directory_bytes, tree_of};
use cms_fields::Entry;
use cms_journal::BlockSize;
use cms_model::OpenFault;
use cms_text::bytes::after;
use cms_tree::{TreeAt, Walked};
use cms_world::World;
use std::alloc::Global;

/// A volume on its unit.
#[derive(Clone, Copy)]
pub struct Place {
    /// the unit's number
    pub unit: u8,
    /// the unit's block size
    pub bsize: BlockSize,
    /// the volume's blocks
    pub total: u32,
    /// the block in which its directory begins, 4 or 5
    pub origin: u32,
}

/// What the directory says.
#[derive(Drop)]
pub struct Listing {
    pub directory: SystemFile,
    pub walked: Walked,
    pub map: SystemFile,
    pub entries: Vec<Entry>,
}

// Where the tree of the directory or the map stands.
fn system_at(place: &Place, system: &SystemFile, first: Option<u32>) -> TreeAt
    ensures { result ≡ system_at place.now system.now first }
{
    TreeAt {
        unit: place.unit,
        bsize: place.bsize,
        volume: place.total,
        holder: place.origin,
        root: system.root,
        count: system.blocks,
        psize: POINTER_SIZE,
        first,
    }
}

// No name stands twice.
fn names_once(alloc: Global, entries: &[Entry]) -> Result<(), OpenFault>
    requires { length entries.now ≤ most_files }
    ensures ok { OnOk result (first_twice 2 [] entries.now ≡ None) }
    ensures fault { IfErr result (IsFaultOf (absent (first_twice 2 [] entries.now) failed.Twice)) }
    ensures device { IfErr result (λ e. e ≡ failed.Device → ⊥) }
{
    match name_twice(alloc, entries) {
        Ok(None) => Ok(()),
        Ok(Some(number)) => Err(OpenFault::Twice(number)),
        Err(_) => Err(OpenFault::Memory),
    }
}

/// The directory of a volume: its own entry, its tree, the map's entry, and the files' entries, whose names are distinct.
pub fn read_listing<W: World>(
    alloc: Global,
    world: &mut W,
    place: &Place,
) -> Result<Listing, OpenFault>
    requires total { 6 ≤ place.now.total }
    requires origin { (place.now.origin ≡ 4) ⊎ (place.now.origin ≡ 5) }
    requires blocks { ForSome (W.told world.old)
        (λ j. HasBlocks j.units place.now.unit place.now.total place.now.bsize) }
    ensures read { OfImage (W.told world.old) place.now.unit
        (λ image. ReadsListed place.now image result) }
    ensures holds { IfOk result (IsListing place.now) }
    ensures reads { OnlyReads (seen W.World world.old)
        (seen W.World world.new) failed.Device result }
{
    let first = block_of(alloc, world, place.unit, place.origin, place.bsize)?;
    let directory = directory_in(place.bsize, place.origin, &first)?;
    let at = system_at(place, &directory, Some(place.origin));
    let walked = tree_of(alloc, world, &at)?;
    let map = map_in(place.bsize, place.total, after(&first, 64))?;
    let bytes = directory_bytes(alloc, world, place, &walked.leaves, &first)?;
    let entries = entries_of(alloc, place.bsize, directory.count - 2, after(&bytes, 128))?;
    names_once(alloc, &entries)?;
    Ok(Listing {
        directory,
        walked,
        map,
        entries,
    })
}

/// The tree of the map, by its entry.
#[tactic(auto, using(crate::proofs::Listings::map_read))]
pub fn read_map<W: World>(
    alloc: Global,
    world: &mut W,
    place: &Place,
    system: &SystemFile,
) -> Result<Walked, OpenFault>
    requires some { 1 ≤ system.now.blocks }
    requires shape { system.now.levels ≡ levels (place.now.bsize / 4) system.now.blocks }
    requires blocks { ForSome (W.told world.old)
        (λ j. HasBlocks j.units place.now.unit place.now.total place.now.bsize) }
    ensures read { OfImage (W.told world.old) place.now.unit
        (λ image. ReadsMap place.now image system.now result) }
    ensures count { IfOk result (λ walked. length walked.leaves.items ≡ system.now.blocks) }
    ensures pointers { IfOk result (λ walked. length walked.pointers.items
        ≡ pointer_count (place.now.bsize / 4) system.now.blocks) }
    ensures within { IfOk result (IsWithin place.now.total None) }
    ensures reads { OnlyReads (seen W.World world.old)
        (seen W.World world.new) failed.Device result }
{
    tree_of(alloc, world, &system_at(place, system, None))
}
