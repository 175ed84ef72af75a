// Trees of which an update writes a part.
ghost use Rattle.std.specs.Prelude.{◌≡◌, ◌≤◌, ◌<◌, ◌+◌, ◌^◌, ℕ, length, take, IfOk};
ghost use Rattle.std.specs.List.{range_with_len};
ghost use Rattle.std.specs.List.Sorted.{IsStrictlyIncreasing};
ghost use Rattle.cms_model.specs.SharedTrees.{MayBeWritten};
ghost use Rattle.cms_model.specs.Sizes.{pointer_count};
ghost use Rattle.cms_tree.specs.Paths.{fresh_places};
ghost use Rattle.cms_held.specs.Allotments.{KeepsTree};
ghost use Rattle.cms_held.specs.HeldVolumes as volumes;
ghost use Rattle.cms_held.specs.SharedBlocks.{fresh_of, released_of};
ghost use Rattle.cms_held.specs.Systems.{whole_part};

use crate::held::HeldTree;
use cms_tree::{fresh_places, keep_leaves, leave_leaves, left_out, path, shape};
use std::alloc::{AllocError, Global};
use std::marker::Model;

/// What is written of a tree: its data blocks and its pointer blocks at these places, from 0 and ascending.
#[derive(Drop)]
pub struct TreePart {
    pub leaves: Vec<u32>,
    pub nodes: Vec<u32>,
}

impl Model for TreePart {
    ghost use Rattle.cms_held.specs.Systems as systems;

    ghost Value = { systems.TreePart };

    ghost view = { λ p. record { leaves = p.leaves.items; nodes = p.nodes.items } };
}

/// The first so many numbers, from 0.
pub fn first_numbers(alloc: Global, count: u32) -> Result<Vec<u32>, AllocError>
    ensures { IfOk result (λ v. v.items ≡ range_with_len 0 count) }
{
    (0..count).collect(alloc)
}

impl TreePart {
    /// All of a tree.
    pub fn of_whole(alloc: Global, tree: &HeldTree) -> Result<TreePart, AllocError>
        requires few { length tree.now.leaves < 2 ^ 32 }
        requires few_nodes { length tree.now.pointers < 2 ^ 32 }
        ensures { IfOk result (λ p. p ≡ whole_part tree.now) }
    {
        Ok(TreePart {
            leaves: first_numbers(alloc, tree.leaves().len() as u32)?,
            nodes: first_numbers(alloc, tree.pointers().len() as u32)?,
        })
    }

    /// Those of a tree of `count` data blocks of which these are written, where the tree before has `before` of them: the pointer
    /// blocks are those that can't be kept.
    pub fn of_shared(
        alloc: Global,
        before: u32,
        count: u32,
        fan: u32,
        written: Vec<u32>,
    ) -> Result<TreePart, AllocError>
        requires some_before { 1 ≤ before }
        requires some { 1 ≤ count }
        requires wide { 2 ≤ fan }
        requires ascends { IsStrictlyIncreasing written.items }
        ensures leaves { IfOk result (λ p. p.leaves ≡ written.items) }
        ensures nodes { IfOk result (λ p. p.nodes ≡ fresh_places fan before count written.items) }
    {
        let mut nodes = Vec::with_capacity(alloc, shape(count, fan).pointers as usize)?;
        fresh_places(before, count, fan, &written, &mut nodes);
        Ok(TreePart {
            leaves: written,
            nodes,
        })
    }
}

/// The tree of `count` data blocks that keeps all blocks of the tree before but those at these places, which take the first of these
/// numbers: the data blocks first, then the pointer blocks.
pub fn shared_tree(
    alloc: Global,
    old: &HeldTree,
    count: u32,
    fan: u32,
    places: &TreePart,
    numbers: &[u32],
) -> Result<HeldTree, AllocError>
    requires some_before { 1 ≤ length old.now.leaves }
    requires few { length old.now.leaves < 2 ^ 32 }
    requires some { 1 ≤ count }
    requires wide { 2 ≤ fan }
    requires olds { length old.now.pointers ≡ pointer_count fan (length old.now.leaves) }
    requires may { MayBeWritten (length old.now.leaves) count places.now.leaves }
    requires nodes { places.now.nodes
        ≡ fresh_places fan (length old.now.leaves) count places.now.leaves }
    requires enough { length places.now.leaves + length places.now.nodes ≤ length numbers.now }
    ensures keeps { IfOk result (KeepsTree fan places.now.leaves old.now) }
    ensures count { IfOk result (λ t. length t.leaves ≡ count) }
    ensures fresh { IfOk result (λ t. fresh_of fan places.now.leaves old.now t
        ≡ take (length places.now.leaves + length places.now.nodes) numbers.now) }
{
    let mut leaves = Vec::with_capacity(alloc, count as usize)?;
    keep_leaves(old.leaves(), count, &places.leaves, numbers, &mut leaves);
    let (_, behind) = numbers.split_at(places.leaves.len());
    let (fresh, _) = behind.split_at(places.nodes.len());
    let before = old.leaves().len() as u32;
    let mut pointers = Vec::with_capacity(alloc, shape(count, fan).pointers as usize)?;
    path(
        before,
        old.pointers(),
        count,
        fan,
        &places.leaves,
        fresh,
        &mut pointers,
    );
    Ok(HeldTree { leaves, pointers })
}

/// The blocks of a tree that one of `count` data blocks, of which these are written, doesn't keep: data blocks first.
pub fn left_blocks(
    alloc: Global,
    old: &HeldTree,
    count: u32,
    fan: u32,
    written: &[u32],
) -> Result<Vec<u32>, AllocError>
    requires some_before { 1 ≤ length old.now.leaves }
    requires few { length old.now.leaves < 2 ^ 32 }
    requires some { 1 ≤ count }
    requires wide { 2 ≤ fan }
    requires olds { length old.now.pointers ≡ pointer_count fan (length old.now.leaves) }
    requires ascends { IsStrictlyIncreasing written.now }
    ensures { IfOk result (λ v. (new : volumes.HeldTree) → length new.leaves ≡ count
        → length new.pointers ≡ pointer_count fan count
        → v.items ≡ released_of fan written.now old.now new) }
{
    let room = old.leaves().len() + old.pointers().len();
    let mut left = Vec::with_capacity(alloc, room)?;
    leave_leaves(old.leaves(), count, written, &mut left);
    let before = old.leaves().len() as u32;
    left_out(before, old.pointers(), count, fan, written, &mut left);
    Ok(left)
}
