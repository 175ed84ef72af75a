// The directory that an update leaves.
ghost use Rattle.std.specs.Prelude.{◌≡◌, ◌≤◌, ◌<◌, ◌+◌, ◌*◌, ◌/◌, ◌^◌, ◌++◌, ◌∷◌, [], true, length, map, take, drop, slice_index, vec_capacity, IfOk, OnOk};
ghost use Rattle.cms_fields.specs.Numbers.{up};
ghost use Rattle.cms_model.specs.Lists.{In};
ghost use Rattle.cms_model.specs.SharedTimes.{without};
ghost use Rattle.cms_model.specs.SharedTrees.{MayBeWritten, is_kept};
ghost use Rattle.cms_model.specs.Sizes.{pointer_count};
ghost use Rattle.cms_tree.specs.Builds.{node_at, node_bytes};
ghost use Rattle.cms_tree.specs.Levels.{children_from};
ghost use Rattle.cms_tree.specs.Paths.{fresh_places};
ghost use Rattle.cms_held.specs.Allotments.{KeepsTree};
ghost use Rattle.cms_held.specs.HeldVolumes as volumes;
ghost use Rattle.cms_held.specs.SharedBlocks.{fresh_of, released_of};
ghost use Rattle.cms_held.specs.Systems.{file_at, whole_part};
ghost use Rattle.cms_edf.specs.NewDirectories.{GoesOn};

use crate::directory_bytes::root;
use crate::system::{POINTER_SIZE, SystemFile};
use crate::tree_part::TreePart;
use cms_journal::BlockSize;
use cms_text::bytes::put_word;
use cms_tree::{build, left_out, path, shape};
use std::alloc::{AllocError, Global};
use std::marker::Model;
use std::snapshot::Snapshot;

/// The directory that an update leaves. Of its data blocks it has the new numbers alone: the others are those of the directory that is
/// held.
#[derive(Drop)]
pub struct NewDirectory {
    // the data blocks of the directory before, which clauses alone read
    old: Snapshot<Vec<u32>>,
    count: u32,
    part: TreePart,
    // those of the data blocks that are written come first
    numbers: Vec<u32>,
    pointers: Vec<u32>,
}

impl Model for NewDirectory {
    ghost use Rattle.cms_edf.specs.NewDirectories as directories;
    ghost use Rattle.cms_edf.specs.NewDirectories.{HasNumbers, leaves_over};

    ghost Value = { directories.NewDirectory };

    ghost view = { λ d. record {
      tree = record {
        leaves = leaves_over d.old.value.items d.count d.part.leaves d.numbers.items;
        pointers = d.pointers.items;
      };
      part = d.part;
    } };

    ghost invariant = { λ d. HasNumbers d.old.value.items d.count d.part d.numbers.items };
}

impl NewDirectory {
    /// The directory of `count` data blocks that keeps all blocks of the one before but those at these places, which take the first of
    /// these numbers: the data blocks first, then the pointer blocks.
    pub fn of_shared(
        alloc: Global,
        leaves: &Vec<u32>,
        pointers: &[u32],
        count: u32,
        fan: u32,
        part: TreePart,
        numbers: Vec<u32>,
    ) -> Result<NewDirectory, AllocError>
        requires some_before { 1 ≤ length leaves.now.items }
        requires few { length leaves.now.items < 2 ^ 32 }
        requires some { 1 ≤ count }
        requires wide { 2 ≤ fan }
        requires olds { length pointers.now ≡ pointer_count fan (length leaves.now.items) }
        requires may { MayBeWritten (length leaves.now.items) count part.leaves }
        requires nodes { part.nodes ≡ fresh_places fan (length leaves.now.items) count part.leaves }
        requires enough { length part.leaves + length part.nodes ≤ length numbers.items }
        ensures keeps { IfOk result (λ d. KeepsTree fan part.leaves
            (record { leaves = leaves.now.items; pointers = pointers.now }) d.tree) }
        ensures count { IfOk result (λ d. length d.tree.leaves ≡ count) }
        ensures fresh { IfOk result (λ d. fresh_of fan part.leaves
            (record { leaves = leaves.now.items; pointers = pointers.now }) d.tree
            ≡ take (length part.leaves + length part.nodes) numbers.items) }
        ensures part { IfOk result (λ d. d.part ≡ part) }
    {
        let (_, behind) = numbers.split_at(part.leaves.len());
        let (fresh, _) = behind.split_at(part.nodes.len());
        let before = leaves.len() as u32;
        let mut nodes = Vec::with_capacity(alloc, shape(count, fan).pointers as usize)?;
        path(
            before,
            pointers,
            count,
            fan,
            &part.leaves,
            fresh,
            &mut nodes,
        );
        Ok(NewDirectory {
            old: Snapshot::of(leaves),
            count,
            part,
            numbers,
            pointers: nodes,
        })
    }

    /// The directory of an empty volume, which is written whole.
    pub fn first(alloc: Global, origin: u32) -> Result<NewDirectory, AllocError>
        ensures tree { IfOk result (λ d. d.tree
            ≡ record { leaves = origin ∷ []; pointers = [] }) }
        ensures part { IfOk result (λ d. d.part ≡ whole_part d.tree) }
    {
        let leaves = vec![in alloc; 0; 1]?;
        let numbers = vec![in alloc; origin; 1]?;
        let pointers = Vec::new(alloc);
        Ok(NewDirectory {
            old: Snapshot::of(&pointers),
            count: 1,
            part: TreePart {
                leaves,
                nodes: Vec::new(alloc),
            },
            numbers,
            pointers,
        })
    }

    /// What is written of it.
    pub fn part(&self) -> &TreePart
        ensures { result.now ≡ self.now.part }
    {
        &self.part
    }

    /// Its pointer blocks.
    pub fn pointers(&self) -> &[u32]
        ensures { result.now ≡ self.now.tree.pointers }
    {
        &self.pointers
    }

    /// The numbers of its data blocks that are written.
    pub fn written(&self) -> &[u32]
        ensures { result.now ≡ map (slice_index self.now.tree.leaves) self.now.part.leaves }
    {
        let (written, _) = self.numbers.split_at(self.part().leaves.len());
        written
    }

    /// Where its tree stands, of so many records.
    pub fn file(&self, bsize: BlockSize, count: u32) -> SystemFile
        requires some { 1 ≤ length self.now.tree.leaves }
        requires few { length self.now.tree.leaves < 2 ^ 32 }
        requires first { In 0 self.now.part.leaves }
        requires nodes { length self.now.tree.pointers
            ≡ pointer_count (bsize / 4) (length self.now.tree.leaves) }
        ensures { result ≡ file_at bsize self.now.tree count }
    {
        SystemFile {
            root: root(self.written(), &self.pointers),
            blocks: self.count,
            count,
            levels: shape(self.count, bsize.bytes() / u32::from(POINTER_SIZE)).levels,
        }
    }

    // The number of the data block at a place, where these are the ones that are held.
    fn leaf(&self, held: &[u32], place: u32) -> u32
        requires goes { GoesOn held.now self.now }
        requires within { place < length self.now.tree.leaves }
        ensures { result ≡ slice_index self.now.tree.leaves place }
    {
        match self.part.leaves.binary_search(&place) {
            Ok(at) => self.numbers[at],
            Err(_) => held[place as usize],
        }
    }

    // Fills a pointer block of the bottom level, by its place.
    fn fill_bottom(&self, held: &[u32], fan: u32, place: u32, block: &mut [u8])
        requires goes { GoesOn held.now self.now }
        requires wide { 2 ≤ fan }
        requires few { length self.now.tree.leaves < 2 ^ 32 }
        requires within { place < up (length self.now.tree.leaves) fan }
        requires narrow { fan ≤ 1024 }
        requires room { fan * 4 ≤ length block.old }
        ensures { block.new ≡ node_bytes (length block.old) 4
            (children_from [] (length self.now.tree.leaves) 1 (place * fan)
            (take fan (drop (place * fan) self.now.tree.leaves))) }
    {
        block.fill(0);
        let first = place * fan;
        let here = fan.min(self.count - first);
        for at in 0..here {
            put_word(block, 4 * at as usize, self.leaf(held, first + at));
        }
    }

    /// Fills the pointer block at a place among all of them, where these are the data blocks that are held.
    pub fn fill_node(&self, held: &[u32], bsize: BlockSize, place: u32, block: &mut [u8])
        requires goes { GoesOn held.now self.now }
        requires few { length self.now.tree.leaves < 2 ^ 32 }
        requires nodes { length self.now.tree.pointers
            ≡ pointer_count (bsize / 4) (length self.now.tree.leaves) }
        requires within { place < length self.now.tree.pointers }
        requires room { length block.old ≡ bsize }
        ensures { block.new
            ≡ node_at bsize 4 self.now.tree.leaves [] self.now.tree.pointers place }
    {
        let fan = bsize.bytes() / 4;
        let bottom = self.count.div_ceil(fan);
        if place < bottom {
            self.fill_bottom(held, fan, place, block);
        } else {
            let (level, above) = self.pointers.split_at(bottom as usize);
            build(
                level,
                &[],
                above,
                bsize,
                POINTER_SIZE,
                place - bottom,
                block,
            );
        }
    }

    /// Puts the new numbers among the data blocks that are held, and gives the pointer blocks. Takes no memory.
    pub fn put_into(self, held: &mut Vec<u32>) -> Vec<u32>
        requires goes { GoesOn held.old.items self }
        requires room { length self.tree.leaves ≤ vec_capacity held.old }
        ensures leaves { held.new.items ≡ self.tree.leaves }
        ensures pointers { result.items ≡ self.tree.pointers }
    {
        let NewDirectory {
            old: _,
            count,
            part,
            numbers,
            pointers,
        } = self;
        if held.len() < count as usize {
            held.push(0).unwrap();
        }
        held.truncate(count as usize);
        for (at, place) in part.leaves.iter().enumerate() {
            held[*place as usize] = numbers[at];
        }
        pointers
    }
}

// Appends the data blocks of a directory that one of `count`, of which these are written, doesn't keep.
fn append_left(
    leaves: &[u32],
    count: u32,
    written: &[u32],
    into: &mut Vec<u32>,
) -> Result<(), AllocError>
    requires { MayBeWritten (length leaves.now) count written.now }
    ensures { OnOk result (into.new.items ≡ into.old.items
        ++ without (is_kept true 1 (length leaves.now) count written.now) 0 leaves.now) }
{
    for place in written {
        if (*place as usize) < leaves.len() {
            into.push(leaves[*place as usize])?;
        }
    }
    if (count as usize) < leaves.len() {
        into.extend_from_slice(&leaves[count as usize..])?;
    }
    Ok(())
}

/// The blocks of a directory that one of `count` data blocks, of which these are written, doesn't keep: data blocks first.
pub fn blocks_left(
    alloc: Global,
    leaves: &[u32],
    pointers: &[u32],
    count: u32,
    fan: u32,
    written: &[u32],
) -> Result<Vec<u32>, AllocError>
    requires some_before { 1 ≤ length leaves.now }
    requires few { length leaves.now < 2 ^ 32 }
    requires some { 1 ≤ count }
    requires wide { 2 ≤ fan }
    requires olds { length pointers.now ≡ pointer_count fan (length leaves.now) }
    requires may { MayBeWritten (length leaves.now) count written.now }
    ensures { IfOk result (λ v. (new : volumes.HeldTree) → length new.leaves ≡ count
        → length new.pointers ≡ pointer_count fan count
        → v.items ≡ released_of fan written.now
        (record { leaves = leaves.now; pointers = pointers.now }) new) }
{
    let mut left = Vec::with_capacity(alloc, written.len() + pointers.len())?;
    append_left(leaves, count, written, &mut left)?;
    left.reserve(pointers.len())?;
    let before = leaves.len() as u32;
    left_out(before, pointers, count, fan, written, &mut left);
    Ok(left)
}
