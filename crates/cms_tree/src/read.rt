// Trees read from a unit.
ghost use Rattle.std.specs.Prelude.{◌≡◌, ◌⊎◌, ℕ, ◌+◌, ◌-◌, ◌*◌, ◌/◌, ◌^◌, ◌<◌, ◌≤◌, ◌++◌, true, [], min, length, replicate, vec_len, None, Err, IfOk, IfErr, OnOk, OnErr, IsErrOf};
ghost use Rattle.std.specs.List.{concat};
ghost use Rattle.std.specs.Option.{ForSome};
ghost use Rattle.cms_journal.specs.Journal.{HasBlock, HasBlocks, contents_of};
ghost use Rattle.cms_model.specs.Sizes.{pointer_count};
ghost use Rattle.cms_model.specs.Trees.{Image, image_of, is_allowed, tree};
ghost use Rattle.cms_tree.specs.Walks.{Reads, Appends, IsWithin, AppendsWithin, form_at, image_at};
ghost use Rattle.cms_tree.specs.Parts.{form_of, blocks_in, Grows, JoinsLeaf, JoinsPart, IsPlain, IsRefusal, IsTaken, StaysWithin};
ghost use Rattle.cms_tree.specs.declared.types.TreeFault.TheVariants.{Device};
ghost use Rattle.cms_world.specs.Seen.{OnlyReads, seen};

use crate::{TreeAt, TreeFault, Walked, shape};
use cms_text::bytes::word_at;
use cms_world::{ReadFault, World};
use std::alloc::{AllocError, Global};

// How the trees of a volume stand on their unit.
#[derive(Clone, Copy)]
struct Layout {
    unit: u8,
    bsize: u32,
    // pointers in a block, and bytes of each
    fan: u32,
    stride: u32,
    // the last block of the volume
    last: u32,
}

// A tree, or the part of one below a pointer.
#[derive(Clone, Copy)]
struct Subtree {
    holder: u32,
    root: u32,
    count: u32,
    first: Option<u32>,
}

// The blocks that a walk has met: all in preorder, and the data blocks in order.
#[derive(Drop)]
struct MetBlocks {
    blocks: Vec<u32>,
    leaves: Vec<u32>,
}

// The pointer blocks of a level that a walk has met, from left to right.
#[derive(Drop)]
struct Tier {
    blocks: Vec<u32>,
}

#[tactic(auto, unfolding(cms_model::specs::Trees::is_allowed))]
fn is_allowed(last: u32, first: Option<u32>, block: u32) -> bool
    ensures { result ≡ is_allowed last first block }
{
    match first {
        Some(fixed) => block == fixed,
        None => block >= 6 && block <= last,
    }
}

// The bytes of a block.
#[tactic(auto, using(cms_model::proofs::Images::block_in_image))]
fn read_block<W: World>(
    alloc: Global,
    world: &mut W,
    layout: &Layout,
    block: u32,
) -> Result<Vec<u8>, TreeFault>
    requires { ForSome (W.told world.old)
        (λ j. HasBlock j.units layout.now.unit block layout.now.bsize) }
    ensures bytes { IfOk result (λ v. ForSome (W.told world.old)
        (λ j. v.items ≡ image_of (contents_of j layout.now.unit) block)) }
    ensures len { IfOk result (λ v. vec_len v ≡ layout.now.bsize) }
    ensures plain { IfErr result IsPlain }
    ensures reads { OnlyReads (seen W.World world.old) (seen W.World world.new) Device result }
{
    match cms_world::read_block(alloc, world, layout.unit, block, layout.bsize) {
        Ok(bytes) => Ok(bytes),
        Err(ReadFault::Device) => Err(TreeFault::Device),
        Err(ReadFault::Memory) => Err(TreeFault::Memory),
    }
}

// The number of data blocks below a pointer, where so many are left.
fn part_of(left: u32, size: u64) -> u32
    ensures { result ≡ min left size }
{
    if u64::from(left) < size {
        left
    } else {
        size as u32
    }
}

// The data blocks below each pointer of a block with so many levels.
fn size_below(fan: u32, levels: u8) -> u64
    requires some { 1 ≤ fan }
    requires deep { 1 ≤ levels }
    requires small { fan ^ levels < 2 ^ 64 }
    ensures { result ≡ fan ^ (levels - 1) }
{
    u64::from(fan).pow(u32::from(levels) - 1)
}

// Appends a data block.
fn take_leaf(layout: &Layout, part: &Subtree, into: &mut MetBlocks) -> Result<(), TreeFault>
    ensures read { (image : Image) (count : ℕ) → JoinsLeaf into.old into.new result
        (tree (form_of layout.now) image 0 part.now.first part.now.holder part.now.root count) }
    ensures count { OnOk result (vec_len into.new.leaves ≡ vec_len into.old.leaves + 1) }
    ensures within { OnOk result (StaysWithin layout.now.last part.now.first into.old into.new) }
    ensures device { result ≡ Err Device → ⊥ }
{
    if !is_allowed(layout.last, part.first, part.root) {
        return Err(TreeFault::Pointer {
            holder: part.holder,
            value: part.root,
        });
    }
    into.blocks.push(part.root)?;
    into.leaves.push(part.root)?;
    Ok(())
}

// Appends a pointer block to those of its level.
fn take_node(
    layout: &Layout,
    part: &Subtree,
    tier: &mut Tier,
    into: &mut MetBlocks,
) -> Result<(), TreeFault>
    ensures refused { IfErr result (λ fault. IsRefusal fault part.now.holder part.now.root
        (is_allowed layout.now.last None part.now.root)) }
    ensures ok { OnOk result (IsTaken layout.now.last part.now.root tier.old tier.new into.old
        into.new) }
    ensures device { result ≡ Err Device → ⊥ }
{
    if !is_allowed(layout.last, None, part.root) {
        return Err(TreeFault::Pointer {
            holder: part.holder,
            value: part.root,
        });
    }
    into.blocks.push(part.root)?;
    tier.blocks.push(part.root)?;
    Ok(())
}

// How the trees stand among which this one is.
fn layout_of(at: &TreeAt) -> Layout
    requires psize { (at.now.psize ≡ 4) ⊎ (at.now.psize ≡ 12) }
    ensures unit { result.unit ≡ at.now.unit }
    ensures form { form_of result ≡ form_at at.now }
    ensures bsize { result.bsize ≡ at.now.bsize }
    ensures fan { (2 ≤ result.fan) × (result.fan ≤ 1024) }
    ensures stride { (4 ≤ result.stride) × (result.fan * result.stride ≤ result.bsize) }
{
    let stride = u32::from(at.psize);
    let bsize = at.bsize.bytes();
    Layout {
        unit: at.unit,
        bsize,
        fan: bsize / stride,
        stride,
        last: at.volume,
    }
}

// So many levels, none of whose pointer blocks is met.
fn empty_tiers(alloc: Global, levels: u8) -> Result<Vec<Tier>, AllocError>
    ensures { IfOk result (λ tiers. blocks_in tiers.items ≡ replicate levels []) }
{
    let mut tiers = Vec::with_capacity(alloc, usize::from(levels))?;
    for _ in 0..levels {
        tiers.push(Tier {
            blocks: Vec::new(alloc),
        })?;
    }
    Ok(tiers)
}

// The pointer blocks of all levels, the bottom level first.
fn joined(alloc: Global, tiers: &[Tier]) -> Result<Vec<u32>, AllocError>
    ensures { IfOk result (λ pointers. pointers.items ≡ concat (blocks_in tiers.now)) }
{
    let mut pointers = Vec::new(alloc);
    for tier in tiers {
        pointers.extend_from_slice(&tier.blocks)?;
    }
    Ok(pointers)
}

/// Reads a tree: all its blocks in preorder, its pointer blocks level by level, bottom level first and each from left to right,
/// and its data blocks in order.
///
/// The tree has as many levels of pointer blocks as its shape; each is read once, and of it only the pointers that the data
/// blocks below it need. A pointer is allowed from block 6 to the last of the volume, but that to the first data block where
/// `at.first` gives its place: it is allowed there alone. The refusal is the first pointer in preorder that isn't allowed.
pub fn walk<W: World>(alloc: Global, world: &mut W, at: &TreeAt) -> Result<Walked, TreeFault>
    requires some { 1 ≤ at.now.count }
    requires psize { (at.now.psize ≡ 4) ⊎ (at.now.psize ≡ 12) }
    requires blocks { ForSome (W.told world.old)
        (λ j. HasBlocks j.units at.now.unit at.now.volume at.now.bsize) }
    ensures read { ForSome (W.told world.old) (λ j. Reads (image_at j at.now) at.now result) }

    // What holds of it in each world.
    ensures count { IfOk result (λ walked. vec_len walked.leaves ≡ at.now.count) }
    ensures pointers { IfOk result (λ walked. length walked.pointers.items
        ≡ pointer_count (at.now.bsize / at.now.psize) at.now.count) }
    ensures within { IfOk result (IsWithin at.now.volume at.now.first) }
    ensures reads { OnlyReads (seen W.World world.old) (seen W.World world.new) Device result }
{
    let layout = layout_of(at);
    let levels = shape(at.count, layout.fan).levels;
    let whole = Subtree {
        holder: at.holder,
        root: at.root,
        count: at.count,
        first: at.first,
    };
    let mut tiers = empty_tiers(alloc, levels)?;
    let mut met = MetBlocks {
        blocks: Vec::new(alloc),
        leaves: Vec::new(alloc),
    };
    walk_from(alloc, world, &layout, levels, &whole, &mut tiers, &mut met)?;
    Ok(Walked {
        blocks: met.blocks,
        pointers: joined(alloc, &tiers)?,
        leaves: met.leaves,
    })
}

/// Reads a tree as `walk` does, and appends its pointer blocks, level by level, and its data blocks in order. After a refusal both
/// vectors hold what they held before.
pub fn leaves<W: World>(
    alloc: Global,
    world: &mut W,
    at: &TreeAt,
    pointers: &mut Vec<u32>,
    leaves: &mut Vec<u32>,
) -> Result<(), TreeFault>
    requires some { 1 ≤ at.now.count }
    requires psize { (at.now.psize ≡ 4) ⊎ (at.now.psize ≡ 12) }
    requires blocks { ForSome (W.told world.old)
        (λ j. HasBlocks j.units at.now.unit at.now.volume at.now.bsize) }
    ensures read { ForSome (W.told world.old)
        (λ j. Appends
        (image_at j at.now) at.now pointers.old.items pointers.new.items leaves.old.items
        leaves.new.items result) }
    ensures err { OnErr result ((pointers.new.items ≡ pointers.old.items)
        × (leaves.new.items ≡ leaves.old.items)) }

    // What holds of it in each world.
    ensures count { OnOk result (vec_len leaves.new ≡ vec_len leaves.old + at.now.count) }
    ensures pointers { OnOk result (length pointers.new.items ≡ length pointers.old.items
        + pointer_count (at.now.bsize / at.now.psize) at.now.count) }
    ensures pointers_within { OnOk result (AppendsWithin at.now.volume None pointers.old.items
        pointers.new.items) }
    ensures leaves_within { OnOk result (AppendsWithin at.now.volume at.now.first leaves.old.items
        leaves.new.items) }
    ensures reads { OnlyReads (seen W.World world.old) (seen W.World world.new) Device result }
{
    let walked = walk(alloc, world, at)?;
    pointers.reserve(walked.pointers.len())?;
    leaves.extend_from_slice(&walked.leaves)?;
    pointers.extend_from_slice(&walked.pointers)?;
    Ok(())
}

// Appends the blocks of a tree of so many levels, or of the part of one below a pointer.
fn walk_from<W: World>(
    alloc: Global,
    world: &mut W,
    layout: &Layout,
    levels: u8,
    part: &Subtree,
    tiers: &mut [Tier],
    into: &mut MetBlocks,
) -> Result<(), TreeFault>
    requires fan { 2 ≤ layout.now.fan }
    requires stride { 4 ≤ layout.now.stride }
    requires fits { layout.now.fan * layout.now.stride ≤ layout.now.bsize }
    requires small { layout.now.fan ^ levels < 2 ^ 64 }
    requires some { 1 ≤ part.now.count }
    requires room { part.now.count ≤ layout.now.fan ^ levels }
    requires tiers { length tiers.old ≡ levels }
    requires blocks { ForSome (W.told world.old)
        (λ j. HasBlocks j.units layout.now.unit layout.now.last layout.now.bsize) }
    ensures read { ForSome (W.told world.old) (λ j. JoinsPart (image_of
        (contents_of j layout.now.unit)) layout.now levels part.now tiers.old tiers.new into.old
        into.new result) }
    ensures grows { OnOk result (Grows layout.now.fan layout.now.last part.now.count tiers.old
        tiers.new) }
    ensures count { OnOk result (vec_len into.new.leaves
        ≡ vec_len into.old.leaves + part.now.count) }
    ensures within { OnOk result (StaysWithin layout.now.last part.now.first into.old into.new) }
    ensures reads { OnlyReads (seen W.World world.old) (seen W.World world.new) Device result }
{
    let Some((top, below)) = tiers.split_last_mut() else {
        return take_leaf(layout, part, into);
    };
    take_node(layout, part, top, into)?;
    let block = read_block(alloc, world, layout, part.root)?;
    let size = size_below(layout.fan, levels);
    let mut left = part.count;
    let mut first = part.first;
    for place in 0..layout.fan {
        if left == 0 {
            return Ok(());
        }
        let child = Subtree {
            holder: part.root,
            root: word_at(&block, (place * layout.stride) as usize),
            count: part_of(left, size),
            first,
        };
        walk_from(alloc, world, layout, levels - 1, &child, below, into)?;
        left -= child.count;
        first = None;
    }
    Ok(())
}
