// Blocks written one after another.
ghost use Rattle.std.specs.Prelude.{◌≡◌, ◌≤◌, ◌<◌, ◌+◌, ◌*◌, ◌/◌, ◌^◌, All, length};
ghost use Rattle.cms_model.specs.Lists.{cut};
ghost use Rattle.cms_model.specs.Sizes.{pointer_count};
ghost use Rattle.cms_held.specs.Systems.{block_writes, leaf_writes, map_piece, nodes_at};
ghost use Rattle.cms_world.specs.Seen.{seen};
ghost use Rattle.cms_edf.specs.BlockWrites.{IsBlockOf, MayWrite, Writes};
ghost use Rattle.cms_edf.specs.Doubts.{AreAt, directory_writes, first_writes, map_writes};
ghost use Rattle.cms_edf.specs.NewDirectories.{GoesOn};

use crate::held::HeldTree;
use crate::new_directory::NewDirectory;
use crate::system::POINTER_SIZE;
use crate::tree_part::TreePart;
use cms_journal::BlockSize;
use cms_map::Map;
use cms_tree::build;
use cms_world::{Failed, World};

/// Where blocks are written: a unit, its volume's blocks, and their size.
#[derive(Clone, Copy)]
pub struct Target {
    pub unit: u8,
    pub total: u32,
    pub bsize: BlockSize,
}

/// Writes these blocks, with a block's bytes each.
pub fn write_data<W: World>(
    world: &mut W,
    target: &Target,
    blocks: &[u32],
    bytes: &[u8],
) -> Result<(), Failed>
    requires long { length bytes.now ≡ length blocks.now * target.now.bsize }
    requires within { All (IsBlockOf target.now.total) blocks.now }
    requires may { MayWrite (W.told world.old) target.now }
    ensures writes { Writes (seen W.World world.old) (seen W.World world.new) target.now
        (block_writes blocks.now (cut (length blocks.now) target.now.bsize bytes.now)) result }
{
    let size = target.bsize.bytes() as usize;
    for nth in 0..blocks.len() {
        let from = nth * size;
        match world.write_block(target.unit, blocks[nth], &bytes[from..from + size]) {
            Ok(()) => {}
            Err(Failed) => return Err(Failed),
        }
    }
    Ok(())
}

/// Writes the pointer blocks at these places of a tree of fixed records, each made in `block`.
pub fn write_nodes<W: World>(
    world: &mut W,
    target: &Target,
    tree: &HeldTree,
    places: &[u32],
    block: &mut [u8],
) -> Result<(), Failed>
    requires room { length block.old ≡ target.now.bsize }
    requires wide { 2 ≤ target.now.bsize / 4 }
    requires some { 1 ≤ length tree.now.leaves }
    requires few { length tree.now.leaves < 2 ^ 32 }
    requires nodes { length tree.now.pointers
        ≡ pointer_count (target.now.bsize / 4) (length tree.now.leaves) }
    requires at { AreAt target.now.total tree.now.pointers places.now }
    requires may { MayWrite (W.told world.old) target.now }
    ensures writes { Writes (seen W.World world.old) (seen W.World world.new) target.now
        (nodes_at target.now.bsize tree.now places.now) result }
{
    let pointers = tree.pointers();
    for nth in 0..places.len() {
        let place = places[nth];
        build(
            tree.leaves(),
            &[],
            pointers,
            target.bsize,
            POINTER_SIZE,
            place,
            block,
        );
        match world.write_block(target.unit, pointers[place as usize], block) {
            Ok(()) => {}
            Err(Failed) => return Err(Failed),
        }
    }
    Ok(())
}

/// Writes the data blocks of a map at these places, each made in `block`.
pub fn write_map<W: World>(
    world: &mut W,
    target: &Target,
    blocks: &[u32],
    places: &[u32],
    map: &Map,
    block: &mut [u8],
) -> Result<(), Failed>
    requires room { length block.old ≡ target.now.bsize }
    requires few { length blocks.now * target.now.bsize < 2 ^ 32 }
    requires at { AreAt target.now.total blocks.now places.now }
    requires may { MayWrite (W.told world.old) target.now }
    ensures writes { Writes (seen W.World world.old) (seen W.World world.new) target.now
        (leaf_writes blocks.now (map_piece target.now.bsize map.now) places.now) result }
{
    let size = target.bsize.bytes();
    for nth in 0..places.len() {
        let place = places[nth];
        map.put_bytes(place * size, block);
        match world.write_block(target.unit, blocks[place as usize], block) {
            Ok(()) => {}
            Err(Failed) => return Err(Failed),
        }
    }
    Ok(())
}

/// Writes the pointer blocks of a directory that are written, each made in `block`, where these are the data blocks that are held.
fn write_new_nodes<W: World>(
    world: &mut W,
    target: &Target,
    directory: &NewDirectory,
    held: &[u32],
    block: &mut [u8],
) -> Result<(), Failed>
    requires room { length block.old ≡ target.now.bsize }
    requires goes { GoesOn held.now directory.now }
    requires few { length directory.now.tree.leaves < 2 ^ 32 }
    requires nodes { length directory.now.tree.pointers
        ≡ pointer_count (target.now.bsize / 4) (length directory.now.tree.leaves) }
    requires at { AreAt target.now.total directory.now.tree.pointers directory.now.part.nodes }
    requires may { MayWrite (W.told world.old) target.now }
    ensures writes { Writes (seen W.World world.old) (seen W.World world.new) target.now
        (nodes_at target.now.bsize directory.now.tree directory.now.part.nodes) result }
{
    let pointers = directory.pointers();
    let places = &directory.part().nodes;
    for nth in 0..places.len() {
        let place = places[nth];
        directory.fill_node(held, target.bsize, place, block);
        match world.write_block(target.unit, pointers[place as usize], block) {
            Ok(()) => {}
            Err(Failed) => return Err(Failed),
        }
    }
    Ok(())
}

/// Writes of a directory what is behind its first block: its other data blocks that are written, then its pointer blocks, each of these made
/// in `block`, where these are the data blocks that are held.
pub fn write_directory<W: World>(
    world: &mut W,
    target: &Target,
    directory: &NewDirectory,
    held: &[u32],
    bytes: &[u8],
    block: &mut [u8],
) -> Result<(), Failed>
    requires room { length block.old ≡ target.now.bsize }
    requires goes { GoesOn held.now directory.now }
    requires few { length directory.now.tree.leaves < 2 ^ 32 }
    requires nodes { length directory.now.tree.pointers
        ≡ pointer_count (target.now.bsize / 4) (length directory.now.tree.leaves) }
    requires first { 1 ≤ length directory.now.part.leaves }
    requires long { length bytes.now ≡ length directory.now.part.leaves * target.now.bsize }
    requires at { AreAt target.now.total directory.now.tree.leaves directory.now.part.leaves }
    requires nodes_at { AreAt target.now.total directory.now.tree.pointers
        directory.now.part.nodes }
    requires may { MayWrite (W.told world.old) target.now }
    ensures writes { Writes (seen W.World world.old) (seen W.World world.new) target.now
        (directory_writes target.now.bsize directory.now.tree directory.now.part bytes.now)
        result }
{
    let (_, behind) = directory.written().split_at(1);
    let (_, pieces) = bytes.split_at(target.bsize.bytes() as usize);
    match write_data(world, target, behind, pieces) {
        Ok(()) => write_new_nodes(world, target, directory, held, block),
        Err(Failed) => Err(Failed),
    }
}

/// Writes a map: its data blocks and then its pointer blocks at these places, each made in `block`.
pub fn write_map_tree<W: World>(
    world: &mut W,
    target: &Target,
    tree: &HeldTree,
    places: &TreePart,
    map: &Map,
    block: &mut [u8],
) -> Result<(), Failed>
    requires room { length block.old ≡ target.now.bsize }
    requires wide { 2 ≤ target.now.bsize / 4 }
    requires some { 1 ≤ length tree.now.leaves }
    requires few { length tree.now.leaves < 2 ^ 32 }
    requires nodes { length tree.now.pointers
        ≡ pointer_count (target.now.bsize / 4) (length tree.now.leaves) }
    requires short { length tree.now.leaves * target.now.bsize < 2 ^ 32 }
    requires at { AreAt target.now.total tree.now.leaves places.now.leaves }
    requires nodes_at { AreAt target.now.total tree.now.pointers places.now.nodes }
    requires may { MayWrite (W.told world.old) target.now }
    ensures writes { Writes (seen W.World world.old) (seen W.World world.new) target.now
        (map_writes target.now.bsize tree.now places.now map.now) result }
{
    match write_map(world, target, tree.leaves(), &places.leaves, map, block) {
        Ok(()) => write_nodes(world, target, tree, &places.nodes, block),
        Err(Failed) => Err(Failed),
    }
}

/// Writes the first block of a directory.
pub fn write_first<W: World>(
    world: &mut W,
    target: &Target,
    directory: &NewDirectory,
    bytes: &[u8],
) -> Result<(), Failed>
    requires first { 1 ≤ length directory.now.part.leaves }
    requires long { length bytes.now ≡ length directory.now.part.leaves * target.now.bsize }
    requires at { AreAt target.now.total directory.now.tree.leaves directory.now.part.leaves }
    requires may { MayWrite (W.told world.old) target.now }
    ensures writes { Writes (seen W.World world.old) (seen W.World world.new) target.now
        (first_writes target.now.bsize directory.now.tree directory.now.part bytes.now) result }
{
    let (first, _) = directory.written().split_at(1);
    let (piece, _) = bytes.split_at(target.bsize.bytes() as usize);
    write_data(world, target, first, piece)
}
