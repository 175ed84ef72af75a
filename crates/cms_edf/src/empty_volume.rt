// An empty volume is planned and made.
ghost use Rattle.std.specs.Prelude.{◌≡◌, ℕ, ◌≤◌, ◌<◌, ◌+◌, ◌-◌, ◌/◌, ◌^◌, ◌∷◌, ◌++◌, List, [], true, length, replicate, Some, OnOk, OnErr, IfOk, IfErr};
ghost use Rattle.std.specs.List.{range_with_len};
ghost use Rattle.std.specs.Option.{ForSome};
ghost use Rattle.cms_journal.specs.Journal.{Journal, HasBlocks, IsWritable, MayAdd};
ghost use Rattle.cms_journal.specs.declared.event.Event.TheVariants.{Wrote};
ghost use Rattle.cms_journal.specs.Told.{plus};
ghost use Rattle.cms_fields.specs.NewLabels.{first_label};
ghost use Rattle.cms_fields.specs.Numbers.{up};
ghost use Rattle.cms_fields.specs.Stamps.{is_stamp};
ghost use Rattle.cms_fields.specs.declared.time.Stamp as times;
ghost use Rattle.cms_model.specs.Lists.{In};
ghost use Rattle.cms_model.specs.LawsUpdates.{wipe, Wipes};
ghost use Rattle.cms_model.specs.Minidisks.{State};
ghost use Rattle.cms_model.specs.Settled.{IsFirm, update};
ghost use Rattle.cms_model.specs.Sizes.{map_size, pointer_count};
ghost use Rattle.cms_model.specs.Volumes.{Disk};
ghost use Rattle.cms_held.specs.EmptyVolumes.{IsEmptyVolume, IsReadyUnit, MakesEmpty, first_bits, made_minidisk, made_volume, made_writes};
ghost use Rattle.cms_held.specs.Kept.{IsKept};
ghost use Rattle.cms_held.specs.Systems as spec;
ghost use Rattle.cms_held.specs.Systems.{directory_bytes_of};
ghost use Rattle.cms_edf.specs.Doubts.{IsCutOff};
ghost use Rattle.cms_edf.specs.NewDirectories.{GoesOn, directory_in};
ghost use Rattle.cms_edf.specs.declared.doubt.Doubt.TheVariants.{Either};
ghost use Rattle.cms_world.specs.Seen.{OnUnits, seen};

use crate::allotment::take_blocks;
use crate::blocks::tree_in;
use crate::change_plan::FIRST_FILE;
use crate::directory_bytes::{append_systems, fill, system_fields};
use crate::doubt::{Doubt, write_label_block};
use crate::held::{Held, HeldFile, HeldTree};
use crate::new_directory::NewDirectory;
use crate::system_blocks::{LARGEST, Systems};
use crate::tree_part::TreePart;
use cms_fields::{Label, Stamp, first_fields};
use cms_journal::BlockSize;
use cms_map::Map;
use cms_names::Name;
use cms_tree::shape;
use cms_world::{Unit, World};
use indexmap::IndexMap;
use std::alloc::{AllocError, Global};
use std::marker::Model;

/// The block in which the directory of an empty volume begins.
const ORIGIN: u32 = 4;

/// The blocks at the front of a volume that are always in use.
const FIXED_BLOCKS: u32 = 5;

/// An empty volume that is to be made on a unit, with all the memory that its making takes.
#[derive(Drop)]
pub struct MakePlan {
    unit: u8,
    bsize: BlockSize,
    blocks: u32,
    systems: Systems,
    // the directory's data blocks
    leaves: Vec<u32>,
    files: IndexMap<Name, HeldFile>,
}

impl Model for MakePlan {
    ghost use Rattle.std.specs.Prelude.{◌≡◌, [], length};
    ghost use Rattle.cms_held.specs.Kept.{IsKept};
    ghost use Rattle.cms_held.specs.EmptyVolumes as volumes;
    ghost use Rattle.cms_edf.specs.NewDirectories.{GoesOn, directory_in};

    ghost Value = { volumes.MakePlan };

    ghost view = { λ p. record { unit = p.unit; disk = record { bsize = p.bsize; count = p.blocks }; systems = p.systems } };

    ghost invariant = { λ p. IsKept p.bsize p.blocks p.systems.label (length p.systems.label_bytes) p.systems.directory
        p.systems.map p.systems.bits []
        × (p.files.entries ≡ []) × (p.leaves.items ≡ p.systems.directory.leaves)
        × GoesOn p.leaves.items (directory_in p.systems) };
}

// A map with the tree in which it stands.
#[derive(Drop)]
struct FirstMap {
    tree: HeldTree,
    map: Map,
    used: u32,
}

// A map of so many blocks of which the first five are in use.
fn blank_map(alloc: Global, total: u32) -> Result<Map, AllocError>
    requires { 5 ≤ total }
    ensures { IfOk result (λ m. m ≡ first_bits 5 total) }
{
    let bytes = vec![in alloc; 0; total.div_ceil(8) as usize]?;
    Map::of_bytes(alloc, &bytes, total)
}

// The map of an empty volume, in the blocks from 6 on.
fn first_map(alloc: Global, bsize: BlockSize, total: u32) -> Result<FirstMap, AllocError>
    requires { 8 ≤ total }
    ensures count { IfOk result (λ m. length m.tree.leaves ≡ up (up total 8) bsize) }
    ensures nodes { IfOk result (λ m. length m.tree.pointers
        ≡ pointer_count (bsize / 4) (length m.tree.leaves)) }
    ensures from { IfOk result (λ m. m.tree.leaves ++ m.tree.pointers
        ≡ range_with_len 6 (map_size bsize total)) }
    ensures bits { IfOk result (λ m. m.map ≡ first_bits (5 + map_size bsize total) total) }
    ensures used { IfOk result (λ m. m.used ≡ 5 + map_size bsize total) }
{
    let data = total.div_ceil(8).div_ceil(bsize.bytes());
    let count = data + shape(data, bsize.bytes() / 4).pointers;
    let taken = take_blocks(alloc, &blank_map(alloc, total)?, count)?;
    Ok(FirstMap {
        tree: tree_in(alloc, &taken.blocks, data)?,
        map: taken.map,
        used: FIXED_BLOCKS + count,
    })
}

// The block of a label.
fn label_block(alloc: Global, label: &Label, stamp: &Stamp) -> Result<Vec<u8>, AllocError>
    requires size { 80 ≤ label.now.bsize }
    requires stamp { is_stamp stamp.now ≡ true }
    ensures { IfOk result (λ v. v.items ≡ first_label label.now stamp.now) }
{
    let mut bytes = Vec::new(alloc);
    bytes.extend_from_slice(&first_fields(label, stamp))?;
    fill(&mut bytes, label.bsize as usize)?;
    Ok(bytes)
}

// The block of an empty directory.
fn directory_block(
    alloc: Global,
    bsize: BlockSize,
    directory: &NewDirectory,
    map: &HeldTree,
    stamp: &Stamp,
) -> Result<Vec<u8>, AllocError>
    requires stamp { is_stamp stamp.now ≡ true }
    requires directory { length directory.now.tree.leaves ≡ 1 }
    requires none { length directory.now.tree.pointers ≡ 0 }
    requires first { In 0 directory.now.part.leaves }
    requires map { 1 ≤ length map.now.leaves }
    requires map_few { length map.now.leaves < 2 ^ 32 }
    ensures { IfOk result (λ v. (s : spec.Systems) → s.directory ≡ directory.now.tree → s.map ≡ map.now
        → v.items ≡ directory_bytes_of bsize s [] stamp.now) }
{
    let whole = bsize.bytes() as usize;
    let mut bytes = Vec::with_capacity(alloc, whole)?;
    let own = directory.file(bsize, FIRST_FILE);
    append_systems(&system_fields(bsize, &own, map, stamp), &mut bytes)?;
    fill(&mut bytes, whole)?;
    Ok(bytes)
}

// The directory, the map and the label of an empty volume.
fn first_systems(
    alloc: Global,
    bsize: BlockSize,
    blocks: u32,
    volid: [u8; 6],
    stamp: &Stamp,
) -> Result<Systems, AllocError>
    requires blocks { 8 ≤ blocks }
    requires stamp { is_stamp stamp.now ≡ true }
    ensures { IfOk result (λ s. (unit : ℕ) → IsEmptyVolume
        (record { unit = unit; disk = record { bsize = bsize; count = blocks }; systems = s })
        volid stamp.now) }
{
    let first = first_map(alloc, bsize, blocks)?;
    let label = Label {
        volid,
        bsize: bsize.bytes(),
        origin: ORIGIN,
        blocks,
        in_use: first.used,
    };
    let label_bytes = label_block(alloc, &label, stamp)?;
    let directory = NewDirectory::first(alloc, ORIGIN)?;
    let directory_bytes = directory_block(alloc, bsize, &directory, &first.tree, stamp)?;
    let map_part = TreePart::of_whole(alloc, &first.tree)?;
    Ok(Systems {
        bsize,
        label,
        label_bytes,
        directory,
        directory_bytes,
        map_tree: first.tree,
        map_part,
        map: first.map,
    })
}

/// Plans an empty volume of all blocks of a unit, 8 at least, with this volume id, in EBCDIC, and this stamp. Nothing is written.
pub fn plan_make(
    alloc: Global,
    unit: &Unit,
    bsize: BlockSize,
    volid: [u8; 6],
    stamp: &Stamp,
) -> Result<MakePlan, AllocError>
    requires blocks { 8 ≤ unit.now.blocks }
    requires stamp { is_stamp stamp.now ≡ true }
    ensures unit { IfOk result (λ p. p.unit ≡ unit.now.number) }
    ensures disk { IfOk result (λ p. p.disk ≡ record { bsize = bsize; count = unit.now.blocks }) }
    ensures empty { IfOk result (λ p. IsEmptyVolume p volid stamp.now) }
{
    let leaves = vec![in alloc; ORIGIN; 1]?;
    let systems = first_systems(alloc, bsize, unit.blocks, volid, stamp)?;
    Ok(MakePlan {
        unit: unit.number,
        bsize,
        blocks: unit.blocks,
        systems,
        leaves,
        files: IndexMap::new(alloc),
    })
}

/// Wipes a unit: writes zeros in place of its label, and syncs. Takes no memory.
///
/// Its only refusal is `Either`: the zeros may have been written, and nothing was synced. Where the unit had one state in every crash
/// image, a crash leaves that state or no label at every moment, and after Ok no label.
#[tactic(auto, using(cms_model::proofs::Wipes::wipe_is_whole))]
pub fn wipe<W: World>(world: &mut W, unit: u8, bsize: BlockSize) -> Result<(), Doubt>
    requires blocks { ForSome (W.told world.old) (λ j. HasBlocks j.units unit 3 bsize) }
    requires writable { ForSome (W.told world.old) (λ j. IsWritable j.units unit) }
    ensures done { OnOk result (W.told world.new ≡ plus (W.told world.old) (wipe unit bsize)) }
    ensures either { IfErr result (λ why. why ≡ Either) }
    ensures cut_off { OnErr result (MayAdd (Wrote unit 3 (replicate bsize 0)) (W.told world.old)
        (W.told world.new)) }
    ensures moments { (j : Journal) (disk : Disk) (before : State) → W.told world.old ≡ Some j
        → IsFirm disk j unit before
        → Wipes disk j unit bsize before }
    ensures counts { OnUnits (seen W.World world.old) (seen W.World world.new) result }
{
    let zeros = [0; LARGEST];
    write_label_block(world, unit, &zeros[..bsize.bytes() as usize])
}

/// Makes the empty volume that was planned on a unit that is wiped: its map and its directory, a sync, the label, a sync. Takes no memory.
///
/// At `Old` a part of the writes was made and nothing was synced, so that the unit is wiped as before. At `Either` all of them were, with
/// one sync, and perhaps the label was written. Where the unit is wiped, a crash leaves none or the empty volume at every moment, and after
/// Ok the empty volume, held as it is answered.
pub fn make<W: World>(world: &mut W, plan: MakePlan) -> Result<Held, Doubt>
    requires blocks { ForSome (W.told world.old)
        (λ j. HasBlocks j.units plan.unit plan.disk.count plan.disk.bsize) }
    requires writable { ForSome (W.told world.old) (λ j. IsWritable j.units plan.unit) }
    ensures done { OnOk result (W.told world.new ≡ plus (W.told world.old)
        (update plan.unit (made_writes plan) plan.systems.label_bytes)) }
    ensures held { IfOk result (λ h. h.volume ≡ made_volume plan) }
    ensures cut_off { IfErr result (IsCutOff (W.told world.old) (W.told world.new) plan.unit
        (made_writes plan) plan.systems.label_bytes) }
    ensures moments { (j : Journal) (volid : List ℕ) (stamp : times.Stamp)
        → W.told world.old ≡ Some j → IsEmptyVolume plan volid stamp
        → IsReadyUnit j plan → MakesEmpty j plan (made_minidisk plan volid) }
    ensures counts { OnUnits (seen W.World world.old) (seen W.World world.new) result }
{
    let MakePlan {
        unit,
        bsize,
        blocks,
        systems,
        leaves,
        files,
    } = plan;
    match systems.carry_out(world, unit, &leaves) {
        Ok(()) => Ok(held(unit, bsize, blocks, systems, leaves, files)),
        Err(why) => {
            drop(systems);
            Err(why)
        }
    }
}

// The empty volume as it is held once it is made.
fn held(
    unit: u8,
    bsize: BlockSize,
    blocks: u32,
    systems: Systems,
    mut leaves: Vec<u32>,
    files: IndexMap<Name, HeldFile>,
) -> Held
    requires leaves { leaves.items ≡ systems.directory.leaves }
    requires goes { GoesOn leaves.items (directory_in systems) }
    requires kept { IsKept bsize blocks systems.label
        (length systems.label_bytes) systems.directory systems.map systems.bits [] }
    requires empty { files.entries ≡ [] }
    ensures { result.volume
        ≡ made_volume
        (record {
          unit = unit;
          disk = record { bsize = bsize; count = blocks };
          systems = systems;
        }) }
{
    let Systems {
        bsize: _,
        label,
        label_bytes,
        directory,
        directory_bytes: _,
        map_tree,
        map_part: _,
        map,
    } = systems;
    let directory_nodes = directory.put_into(&mut leaves);
    Held {
        unit,
        bsize,
        blocks,
        label,
        label_bytes,
        directory: leaves,
        directory_nodes,
        map_tree,
        map,
        files,
        lost: 0,
    }
}
