// Trees and the bytes of their data blocks, as opening reads them.
ghost use Rattle.std.specs.Prelude.{◌≡◌, ◌⊎◌, ◌≤◌, ◌<◌, ◌+◌, ◌*◌, ◌/◌, ◌++◌, ℕ, length, slice_index, IfOk, IfErr, OnOk};
ghost use Rattle.std.specs.Option.{ForSome};
ghost use Rattle.cms_journal.specs.Journal.{HasBlock, HasBlocks, contents_of};
ghost use Rattle.cms_model.specs.Sizes.{pointer_count};
ghost use Rattle.cms_model.specs.Trees.{image_of, bytes_at};
ghost use Rattle.cms_model.specs.declared.fault.OpenFault.TheVariants.{Device, Memory};
ghost use Rattle.cms_world.specs.Seen.{OnlyReads, seen};
ghost use Rattle.cms_tree.specs.Walks.{IsWithin, image_at};
ghost use Rattle.cms_edf.specs.OpeningSteps.{OfImage, ReadsTree, AreBlocks};

use crate::blocks::{ReadFault, append, read_block};
use crate::held::HeldTree;
use crate::listing::Place;
use cms_journal::BlockSize;
use cms_model::OpenFault;
use cms_tree::{TreeAt, TreeFault, Walked, walk};
use cms_world::World;
use std::alloc::Global;

/// The bytes of a block of the unit.
#[tactic(auto, using(cms_model::proofs::Images::block_in_image))]
pub fn block_of<W: World>(
    alloc: Global,
    world: &mut W,
    unit: u8,
    number: u32,
    bsize: BlockSize,
) -> Result<Vec<u8>, OpenFault>
    requires { ForSome (W.told world.old) (λ j. HasBlock j.units unit number bsize) }
    ensures bytes { IfOk result (λ v. OfImage (W.told world.old) unit
        (λ image. v.items ≡ image number)) }
    ensures size { IfOk result (λ v. length v.items ≡ bsize) }
    ensures least { IfOk result (λ v. 512 ≤ length v.items) }
    ensures fault { IfErr result (λ e. (e ≡ Device) ⊎ (e ≡ Memory)) }
    ensures reads { OnlyReads (seen W.World world.old) (seen W.World world.new) Device result }
{
    match read_block(alloc, world, unit, number, bsize.bytes()) {
        Ok(bytes) => Ok(bytes),
        Err(ReadFault::Device) => Err(OpenFault::Device),
        Err(ReadFault::Memory) => Err(OpenFault::Memory),
    }
}

/// The tree that stands there, or its first pointer, in preorder, that isn't allowed.
pub fn tree_of<W: World>(alloc: Global, world: &mut W, at: &TreeAt) -> Result<Walked, OpenFault>
    requires some { 1 ≤ at.now.count }
    requires psize { (at.now.psize ≡ 4) ⊎ (at.now.psize ≡ 12) }
    requires blocks { ForSome (W.told world.old)
        (λ j. HasBlocks j.units at.now.unit at.now.volume at.now.bsize) }
    ensures read { ForSome (W.told world.old) (λ j. ReadsTree (image_at j at.now) at.now result) }
    ensures count { IfOk result (λ walked. length walked.leaves.items ≡ at.now.count) }
    ensures pointers { IfOk result (λ walked. length walked.pointers.items
        ≡ pointer_count (at.now.bsize / at.now.psize) at.now.count) }
    ensures within { IfOk result (IsWithin at.now.volume at.now.first) }
    ensures reads { OnlyReads (seen W.World world.old) (seen W.World world.new) Device result }
{
    match walk(alloc, world, at) {
        Ok(walked) => Ok(walked),
        Err(TreeFault::Device) => Err(OpenFault::Device),
        Err(TreeFault::Memory) => Err(OpenFault::Memory),
        Err(TreeFault::Pointer { holder, value }) => Err(OpenFault::Pointer { holder, value }),
    }
}

/// The blocks of a tree that was read, but for their joint order.
pub fn tree_held(walked: Walked) -> HeldTree
    ensures { result ≡ record { leaves = walked.leaves.items; pointers = walked.pointers.items } }
{
    HeldTree {
        leaves: walked.leaves,
        pointers: walked.pointers,
    }
}

/// The bytes of blocks, one after another.
pub fn bytes_of<W: World>(
    alloc: Global,
    world: &mut W,
    unit: u8,
    bsize: BlockSize,
    blocks: &[u32],
) -> Result<Vec<u8>, OpenFault>
    requires { ForSome (W.told world.old)
        (λ j. (k : ℕ) → k < length blocks.now
        → HasBlock j.units unit (slice_index blocks.now k) bsize) }
    ensures bytes { IfOk result (λ v. OfImage (W.told world.old) unit
        (λ image. v.items ≡ bytes_at image blocks.now)) }
    ensures size { IfOk result (λ v. length v.items ≡ bsize * length blocks.now) }
    ensures fault { IfErr result (λ e. (e ≡ Device) ⊎ (e ≡ Memory)) }
    ensures reads { OnlyReads (seen W.World world.old) (seen W.World world.new) Device result }
{
    let mut bytes = Vec::new(alloc);
    for place in 0..blocks.len() {
        let block = block_of(alloc, world, unit, blocks[place], bsize)?;
        append(&mut bytes, &block)?;
    }
    Ok(bytes)
}

// Appends the bytes of a block of the unit, of which one is there already.
#[tactic(auto, using(crate::proofs::Gathered::kept_bytes))]
fn append_block<W: World>(
    alloc: Global,
    world: &mut W,
    place: &Place,
    number: u32,
    first: &[u8],
    into: &mut Vec<u8>,
) -> Result<(), OpenFault>
    requires first { OfImage (W.told world.old) place.now.unit
        (λ image. first.now ≡ image place.now.origin) }
    requires size { length first.now ≡ place.now.bsize }
    requires block { ForSome (W.told world.old)
        (λ j. HasBlock j.units place.now.unit number place.now.bsize) }
    ensures bytes { OnOk result (OfImage (W.told world.old) place.now.unit
        (λ image. into.new.items ≡ into.old.items ++ image number)) }
    ensures size { OnOk result (length into.new.items ≡ length into.old.items + place.now.bsize) }
    ensures fault { IfErr result (λ e. (e ≡ Device) ⊎ (e ≡ Memory)) }
    ensures reads { OnlyReads (seen W.World world.old) (seen W.World world.new) Device result }
{
    if number == place.origin {
        return append(into, first);
    }
    let block = block_of(alloc, world, place.unit, number, place.bsize)?;
    append(into, &block)
}

/// The bytes of the directory's blocks, one after another; its first one is there already.
pub fn directory_bytes<W: World>(
    alloc: Global,
    world: &mut W,
    place: &Place,
    blocks: &[u32],
    first: &[u8],
) -> Result<Vec<u8>, OpenFault>
    requires first { OfImage (W.told world.old) place.now.unit
        (λ image. first.now ≡ image place.now.origin) }
    requires size { length first.now ≡ place.now.bsize }
    requires blocks { ForSome (W.told world.old) (λ j. (k : ℕ) → k < length blocks.now
        → HasBlock j.units place.now.unit (slice_index blocks.now k) place.now.bsize) }
    ensures bytes { IfOk result (λ v. OfImage (W.told world.old) place.now.unit
        (λ image. v.items ≡ bytes_at image blocks.now)) }
    ensures size { IfOk result (λ v. length v.items ≡ place.now.bsize * length blocks.now) }
    ensures fault { IfErr result (λ e. (e ≡ Device) ⊎ (e ≡ Memory)) }
    ensures reads { OnlyReads (seen W.World world.old) (seen W.World world.new) Device result }
{
    let mut bytes = Vec::new(alloc);
    for nth in 0..blocks.len() {
        append_block(alloc, world, place, blocks[nth], first, &mut bytes)?;
    }
    Ok(bytes)
}
