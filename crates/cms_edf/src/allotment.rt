// The blocks that an update takes and gives back.
ghost use Rattle.std.specs.Prelude.{◌≡◌, ◌≤◌, ◌<◌, ◌+◌, ◌-◌, ◌/◌, ◌*◌, ◌^◌, ◌∷◌, ◌++◌, length, take, drop, nat_le, ◌==◌, ◌&&◌, IfOk, IfErr, OnOk};
ghost use Rattle.cms_journal.specs.Journal.{IsBlockSize};
ghost use Rattle.cms_fields.specs.Numbers.{up};
ghost use Rattle.cms_fields.specs.Limits.{most_files};
ghost use Rattle.cms_model.specs.DirectoryParts.{blocks_made, directory_count};
ghost use Rattle.cms_model.specs.Lists.{In};
ghost use Rattle.cms_model.specs.SharedTrees.{MayBeWritten};
ghost use Rattle.cms_model.specs.Sizes.{map_size, pointer_count};
ghost use Rattle.cms_map.specs.Bits.{HasFixed, free_blocks, with_marked};
ghost use Rattle.cms_map.specs.Touched.{AreTouched};
ghost use Rattle.cms_tree.specs.Paths.{fresh_places};
ghost use Rattle.cms_held.specs.Allotments.{KeepsTree, on_map};
ghost use Rattle.cms_held.specs.Kept.{Keeps};
ghost use Rattle.cms_held.specs.MapShares.{turned};
ghost use Rattle.cms_held.specs.Renewals.{with_freed};
ghost use Rattle.cms_edf.specs.Allotments.{IsAllottedFor, IsNextMade, MapIsShared, SharesDirectory, given_back, need_of, numbers_in, numbers_made};
ghost use Rattle.cms_edf.specs.NoRoom.{LacksRoom};
ghost use Rattle.cms_edf.specs.declared.allotment.PlanFault.TheVariants.{Memory};

use crate::held::{Held, HeldTree};
use crate::new_directory::{NewDirectory, blocks_left};
use crate::system::ENTRY_SIZE;
use crate::tree_part::{TreePart, first_numbers, left_blocks, shared_tree};
use cms_journal::BlockSize;
use cms_map::Map;
use cms_tree::shape;
use std::alloc::{AllocError, Global};

/// Why no update is planned.
#[derive(Clone, Copy)]
pub enum PlanFault {
    /// a limit is passed, which never comes of a drop, a renaming or a relabelling: 1 the number of files, 2 that of records, 3 that of
    /// stored bytes
    Limit(u32),
    /// there is no room
    Full {
        /// the free blocks that are needed
        need: u32,
        /// the blocks that are free, fewer
        free: u32,
    },
    /// there is no memory
    Memory,
}

impl From<AllocError> for PlanFault {
    ghost from_gives = { λ _ e. e ≡ Memory };

    fn from(_: AllocError) -> Self {
        PlanFault::Memory
    }
}

/// The numbers of the directory's entries that an update makes anew.
#[derive(Clone, Copy)]
pub enum Made<'a> {
    /// these, the directory's own among them
    Entries(&'a [u32]),
    /// all
    Whole,
}

/// What an update does to the files, as far as its blocks go.
#[derive(Clone, Copy)]
pub struct Exchange<'a> {
    /// how many files there are then
    pub files: u32,
    /// the directory's entries that are made anew
    pub made: Made<'a>,
    /// how many blocks are taken for a file
    pub file: u32,
    /// the data blocks of a file that are given back
    pub leaves: &'a [u32],
    /// and its pointer blocks
    pub pointers: &'a [u32],
}

/// The blocks that an update takes, and the map after it.
#[derive(Drop)]
pub struct Allotment {
    /// those of a file, in order
    pub file: Vec<u32>,
    pub directory: NewDirectory,
    pub map_tree: HeldTree,
    pub map_part: TreePart,
    pub map: Map,
}

// The first data block from one on in which the entry of one of these numbers stands, or the end of so many data blocks.
fn next_made(made: &[u32], each: u32, from: u32, count: u32) -> u32
    requires each { 1 ≤ each }
    requires within { from ≤ count }
    ensures { IsNextMade made.now each from count result }
{
    let mut next = count;
    for number in made {
        let block = *number / each;
        if from <= block && block < next {
            next = block;
        }
    }
    next
}

// How many data blocks a directory of so many files has.
fn directory_count(bsize: BlockSize, files: u32) -> u32
    requires { files ≤ most_files }
    ensures count { result ≡ directory_count bsize files }
    ensures size { IsBlockSize bsize }
{
    (ENTRY_SIZE * (files + 2)).div_ceil(bsize.bytes())
}

// The data blocks of a directory of so many files in which the entries of these numbers stand.
fn blocks_with(
    alloc: Global,
    bsize: BlockSize,
    files: u32,
    made: &[u32],
) -> Result<Vec<u32>, AllocError>
    requires { files ≤ most_files }
    ensures { IfOk result (λ v. v.items ≡ blocks_made bsize files made.now) }
{
    let each = bsize.bytes() / ENTRY_SIZE;
    let count = (ENTRY_SIZE * (files + 2)).div_ceil(bsize.bytes());
    let mut blocks = Vec::with_capacity(alloc, made.len())?;
    let mut next = next_made(made, each, 0, count);
    while next < count {
        blocks.push(next)?;
        next = next_made(made, each, next + 1, count);
    }
    Ok(blocks)
}

// The data blocks of a directory of so many files in which the entries stand that are made anew.
fn blocks_made(
    alloc: Global,
    bsize: BlockSize,
    files: u32,
    made: Made<'_>,
) -> Result<Vec<u32>, AllocError>
    requires { files ≤ most_files }
    ensures { IfOk result (λ v. v.items ≡ blocks_made bsize files (numbers_in files made.entry)) }
{
    match made {
        Made::Entries(numbers) => blocks_with(alloc, bsize, files, numbers),
        Made::Whole => first_numbers(alloc, directory_count(bsize, files)),
    }
}

// Whether a block lies from 6 to the last.
fn may_be_free(block: u32, total: u32) -> bool
    ensures { result ≡ (nat_le 6 block && nat_le block total) }
{
    6 <= block && block <= total
}

// Makes blocks free, those that may be.
fn release_all(map: &mut Map, total: u32, blocks: &[u32])
    requires { length map.old ≡ total }
    ensures freed { map.new ≡ with_freed blocks.now map.old }
    ensures count { length map.new ≡ total }
{
    for block in blocks {
        if may_be_free(*block, total) {
            map.release(*block);
        }
    }
}

// A block and others behind it.
fn joined(alloc: Global, first: u32, more: &[u32]) -> Result<Vec<u32>, AllocError>
    ensures { IfOk result (λ v. v.items ≡ first ∷ more.now) }
{
    let mut blocks = Vec::with_capacity(alloc, more.len())?;
    blocks.push(first)?;
    blocks.extend_from_slice(more)?;
    Ok(blocks)
}

// The same map.
fn copied(map: &Map) -> Result<Map, AllocError>
    ensures { IfOk result (λ m. m ≡ map.now) }
{
    map.clone()
}

/// The lowest free blocks, and the map with them.
#[derive(Drop)]
pub struct Taken {
    pub blocks: Vec<u32>,
    pub map: Map,
}

/// Takes so many of the lowest free blocks of a map, which stays as it is.
pub fn take_blocks(alloc: Global, map: &Map, count: u32) -> Result<Taken, AllocError>
    requires { count ≤ length (free_blocks map.now) }
    ensures blocks { IfOk result (λ t. t.blocks.items ≡ take count (free_blocks map.now)) }
    ensures marked { IfOk result (λ t. t.map
        ≡ with_marked (take count (free_blocks map.now)) map.now) }
    ensures long { IfOk result (λ t. length t.blocks.items ≡ count) }
    ensures count { IfOk result (λ t. length t.map ≡ length map.now) }
{
    let mut blocks = Vec::with_capacity(alloc, count as usize)?;
    let mut map = copied(map)?;
    map.take_lowest(count, &mut blocks);
    Ok(Taken { blocks, map })
}

// The new directory, and the blocks of the old one that are given back.
#[derive(Drop)]
struct SharedDirectory {
    directory: NewDirectory,
    left: Vec<u32>,
}

// The part of the map that is written, and the tree that it comes to.
#[derive(Drop)]
struct SharedPart {
    tree: HeldTree,
    places: TreePart,
    // the blocks that are given back
    left: Vec<u32>,
}

// The new directory, whose first block is the other one of blocks 4 and 5, and whose others take these in order.
fn share_directory(
    alloc: Global,
    held: &Held,
    files: u32,
    places: TreePart,
    blocks: &[u32],
) -> Result<SharedDirectory, AllocError>
    requires few { files ≤ most_files }
    requires first { In 0 places.leaves }
    requires may { MayBeWritten (length held.now.volume.directory.leaves)
        (directory_count held.now.volume.disk.bsize files) places.leaves }
    requires nodes { places.nodes ≡ fresh_places (held.now.volume.disk.bsize / 4)
        (length held.now.volume.directory.leaves)
        (directory_count held.now.volume.disk.bsize files) places.leaves }
    requires enough { length places.leaves + length places.nodes ≤ length blocks.now + 1 }
    ensures { IfOk result (λ p.
        SharesDirectory held.now.volume files blocks.now places p.directory p.left.items) }
{
    let bsize = held.bsize.bytes();
    let count = (ENTRY_SIZE * (files + 2)).div_ceil(bsize);
    let numbers = joined(alloc, 9 - held.label.origin, blocks)?;
    let (leaves, nodes) = (&held.directory, &held.directory_nodes);
    let left = blocks_left(alloc, leaves, nodes, count, bsize / 4, &places.leaves)?;
    let directory = NewDirectory::of_shared(
        alloc,
        leaves,
        nodes,
        count,
        bsize / 4,
        places,
        numbers,
    )?;
    Ok(SharedDirectory { directory, left })
}

// The new map's tree, of which these data blocks are written, and which takes these blocks in order.
fn share_map(
    alloc: Global,
    held: &Held,
    written: Vec<u32>,
    blocks: &[u32],
) -> Result<SharedPart, AllocError>
    requires may { MayBeWritten (length held.now.volume.map.leaves)
        (length held.now.volume.map.leaves) written.items }
    requires enough { map_size held.now.volume.disk.bsize held.now.volume.label.blocks
        ≤ length blocks.now }
    ensures { IfOk result (λ p.
        MapIsShared held.now.volume written.items blocks.now p.tree p.places p.left.items) }
{
    let fan = held.bsize.bytes() / 4;
    let count = held.map_tree.leaves().len() as u32;
    let places = TreePart::of_shared(alloc, count, count, fan, written)?;
    let tree = shared_tree(alloc, &held.map_tree, count, fan, &places, blocks)?;
    let left = left_blocks(alloc, &held.map_tree, count, fan, &places.leaves)?;
    Ok(SharedPart { tree, places, left })
}

// Whether a block has a bit in the map of so many.
fn has_bit(block: u32, total: u32) -> bool
    ensures { result ≡ (nat_le 1 block && nat_le block total) }
{
    1 <= block && block <= total
}

// Appends those of the blocks that have a bit in the map of so many.
fn append_on_map(total: u32, blocks: &[u32], into: &mut Vec<u32>) -> Result<(), AllocError>
    ensures { OnOk result (into.new.items ≡ into.old.items ++ on_map total blocks.now) }
{
    for block in blocks {
        if has_bit(*block, total) {
            into.push(*block)?;
        }
    }
    Ok(())
}

// The blocks whose bits say what is written of the map: the lowest free ones, those that are given back, and those of the map.
fn turned_blocks(
    alloc: Global,
    held: &Held,
    lowest: &[u32],
    released: &[u32],
) -> Result<Vec<u32>, AllocError>
    ensures { IfOk result (λ v. v.items ≡ on_map held.now.volume.label.blocks
        (lowest.now ++
        (released.now ++ (held.now.volume.map.leaves ++ held.now.volume.map.pointers)))) }
{
    let total = held.label.blocks;
    let mut blocks = Vec::with_capacity(alloc, lowest.len() + released.len())?;
    append_on_map(total, lowest, &mut blocks)?;
    append_on_map(total, released, &mut blocks)?;
    append_on_map(total, held.map_tree.leaves(), &mut blocks)?;
    append_on_map(total, held.map_tree.pointers(), &mut blocks)?;
    Ok(blocks)
}

// The data blocks of the map that are written, where so many of the lowest free blocks are taken for files and directory, and these are
// given back: none where nothing is.
fn map_written(
    alloc: Global,
    held: &Held,
    used: u32,
    lowest: &[u32],
    released: &[u32],
) -> Result<Vec<u32>, AllocError>
    requires used { used ≤ length lowest.now }
    requires lowest { lowest.now ≡ take (length lowest.now) (free_blocks held.now.volume.bits) }
    ensures touched { IfOk result (λ v. AreTouched held.now.volume.disk.bsize
        (on_map held.now.volume.label.blocks (turned (length lowest.now) held.now.volume.bits
        (take used lowest.now) released.now held.now.volume.map)) v.items) }
{
    if used == 0 && released.is_empty() {
        return Ok(Vec::new(alloc));
    }
    let bsize = held.bsize.bytes();
    let blocks = turned_blocks(alloc, held, lowest, released)?;
    let room = held.label.blocks.div_ceil(8 * bsize) as usize;
    let mut written = Vec::with_capacity(alloc, room)?;
    held.map.touched(&blocks, bsize, &mut written);
    Ok(written)
}

// The blocks that are given back for the files: those of a file, and those of the directory but its first.
fn released_blocks(
    alloc: Global,
    exchange: &Exchange<'_>,
    left: &[u32],
) -> Result<Vec<u32>, AllocError>
    ensures { IfOk result (λ v. v.items ≡ given_back exchange.now ++ drop 1 left.now) }
{
    let behind = match left {
        [_, behind @ ..] => behind,
        [] => &[],
    };
    let room = exchange.leaves.len() + exchange.pointers.len() + behind.len();
    let mut released = Vec::with_capacity(alloc, room)?;
    released.extend_from_slice(exchange.leaves)?;
    released.extend_from_slice(exchange.pointers)?;
    released.extend_from_slice(behind)?;
    Ok(released)
}

// The map with so many of the lowest free blocks taken and these given back.
fn new_map(
    alloc: Global,
    held: &Held,
    used: u32,
    released: &[u32],
    left: &[u32],
) -> Result<Map, AllocError>
    requires { used ≤ length (free_blocks held.now.volume.bits) }
    ensures { IfOk result (λ m. m ≡ with_freed (released.now ++ left.now)
        (with_marked (take used (free_blocks held.now.volume.bits)) held.now.volume.bits)) }
{
    let taken = take_blocks(alloc, &held.map, used)?;
    let mut map = taken.map;
    release_all(&mut map, held.label.blocks, released);
    release_all(&mut map, held.label.blocks, left);
    Ok(map)
}

/// How many blocks of a tree are written.
pub fn written_count(places: &TreePart) -> u32
    requires { length places.now.leaves + length places.now.nodes < 2 ^ 32 }
    ensures { result ≡ length places.now.leaves + length places.now.nodes }
{
    (places.leaves.len() + places.nodes.len()) as u32
}

// The new map, with its tree.
#[derive(Drop)]
struct NewMap {
    shared: SharedPart,
    map: Map,
}

// The new map, where so many of the lowest free blocks are taken for files and directory, and these are given back: its tree takes those
// behind.
fn take_map(
    alloc: Global,
    held: &Held,
    used: u32,
    lowest: &[u32],
    released: &[u32],
) -> Result<NewMap, AllocError>
    requires kept { Keeps held.now.volume }
    requires room { used + map_size held.now.volume.disk.bsize held.now.volume.label.blocks
        ≤ length lowest.now }
    requires few { length lowest.now < 2 ^ 32 }
    requires enough { length lowest.now ≤ length (free_blocks held.now.volume.bits) }
    requires lowest { lowest.now ≡ take (length lowest.now) (free_blocks held.now.volume.bits) }
    ensures touched { IfOk result (λ m. AreTouched held.now.volume.disk.bsize
        (on_map held.now.volume.label.blocks (turned (length lowest.now) held.now.volume.bits
        (take used lowest.now) released.now held.now.volume.map)) m.shared.places.leaves) }
    ensures shared { IfOk result (λ m. MapIsShared held.now.volume m.shared.places.leaves
        (drop used lowest.now) m.shared.tree m.shared.places m.shared.left.items) }
    ensures marks { IfOk result (λ m. m.map ≡ with_freed (released.now ++ m.shared.left.items)
        (with_marked (take (used + (length m.shared.places.leaves
        + length m.shared.places.nodes)) (free_blocks held.now.volume.bits))
        held.now.volume.bits)) }
{
    let written = map_written(alloc, held, used, lowest, released)?;
    let (_, behind) = lowest.split_at(used as usize);
    let shared = share_map(alloc, held, written, behind)?;
    let all = used + written_count(&shared.places);
    let map = new_map(alloc, held, all, released, &shared.left)?;
    Ok(NewMap { shared, map })
}

// The blocks of an update for which there is room.
fn allot_all(
    alloc: Global,
    held: &Held,
    exchange: &Exchange<'_>,
    places: TreePart,
    need: u32,
) -> Result<Allotment, AllocError>
    requires few { exchange.now.files ≤ most_files }
    requires written { places.leaves
        ≡ blocks_made held.now.volume.disk.bsize exchange.now.files (numbers_made exchange.now) }
    requires nodes { places.nodes ≡ fresh_places (held.now.volume.disk.bsize / 4)
        (length held.now.volume.directory.leaves)
        (directory_count held.now.volume.disk.bsize exchange.now.files) places.leaves }
    requires first { In 0 places.leaves }
    requires may { MayBeWritten (length held.now.volume.directory.leaves)
        (directory_count held.now.volume.disk.bsize exchange.now.files) places.leaves }
    requires need { need ≡ need_of held.now.volume exchange.now }
    requires enough { need ≤ length (free_blocks held.now.volume.bits) }
    ensures { IfOk result (IsAllottedFor held.now.volume exchange.now) }
{
    let lowest = take_blocks(alloc, &held.map, need)?.blocks;
    let used = exchange.file + written_count(&places) - 1;
    let (file, behind) = lowest.split_at(exchange.file as usize);
    let shared = share_directory(alloc, held, exchange.files, places, behind)?;
    let directory = shared.directory;
    let Ok(released) = released_blocks(alloc, exchange, &shared.left) else {
        drop(directory);
        return Err(AllocError);
    };
    let Ok(file) = file.to_vec(alloc) else {
        drop(directory);
        return Err(AllocError);
    };
    let Ok(new) = take_map(alloc, held, used, &lowest, &released) else {
        drop(directory);
        return Err(AllocError);
    };
    let shared = new.shared;
    Ok(Allotment {
        file,
        directory,
        map_tree: shared.tree,
        map_part: shared.places,
        map: new.map,
    })
}

// The places of the directory that are written.
fn directory_places(
    alloc: Global,
    held: &Held,
    exchange: &Exchange<'_>,
) -> Result<TreePart, AllocError>
    requires few { exchange.now.files ≤ most_files }
    ensures leaves { IfOk result (λ p. p.leaves
        ≡ blocks_made held.now.volume.disk.bsize exchange.now.files (numbers_made exchange.now)) }
    ensures nodes { IfOk result (λ p. p.nodes ≡ fresh_places (held.now.volume.disk.bsize / 4)
        (length held.now.volume.directory.leaves)
        (directory_count held.now.volume.disk.bsize exchange.now.files)
        (blocks_made held.now.volume.disk.bsize exchange.now.files (numbers_made exchange.now))) }
{
    let bsize = held.bsize.bytes();
    let written = blocks_made(alloc, held.bsize, exchange.files, exchange.made)?;
    let count = (ENTRY_SIZE * (exchange.files + 2)).div_ceil(bsize);
    let before = held.directory.len() as u32;
    TreePart::of_shared(alloc, before, count, bsize / 4, written)
}

// The blocks of the map, as many as it is charged for.
fn map_blocks(held: &Held) -> u32
    ensures { result ≡ map_size held.now.volume.disk.bsize held.now.volume.label.blocks }
{
    let bytes = held.bsize.bytes();
    let data = held.label.blocks.div_ceil(8).div_ceil(bytes);
    data + shape(data, bytes / 4).pointers
}

/// Takes the lowest free blocks for what an update writes of the directory and of the map, behind so many for a file, and gives back the
/// blocks of the directory and the map that aren't kept, and those of a file's tree. `Full` exactly where there are too few.
pub fn allot(alloc: Global, held: &Held, exchange: &Exchange<'_>) -> Result<Allotment, PlanFault>
    requires few { exchange.now.files ≤ most_files }
    requires small { exchange.now.file < 2 ^ 31 }
    requires first { In 0 (blocks_made held.now.volume.disk.bsize exchange.now.files
        (numbers_made exchange.now)) }
    requires may { MayBeWritten (directory_count held.now.volume.disk.bsize
        (length held.now.volume.files))
        (directory_count held.now.volume.disk.bsize exchange.now.files)
        (blocks_made held.now.volume.disk.bsize exchange.now.files (numbers_made exchange.now)) }
    ensures allotted { IfOk result (IsAllottedFor held.now.volume exchange.now) }
    ensures map_few { IfOk result (λ a. length a.map_tree.leaves < 2 ^ 32) }
    ensures room { OnOk result (need_of held.now.volume exchange.now
        ≤ length (free_blocks held.now.volume.bits)) }
    ensures fixed { HasFixed held.now.volume.bits }
    ensures full { IfErr result (LacksRoom held.now.volume (need_of held.now.volume exchange.now)) }
{
    let free = held.map.free_count();
    let Ok(places) = directory_places(alloc, held, exchange) else {
        return Err(PlanFault::Memory);
    };
    let need = exchange.file + (written_count(&places) - 1) + map_blocks(held);
    if free < need {
        return Err(PlanFault::Full { need, free });
    }
    match allot_all(alloc, held, exchange, places, need) {
        Ok(allotment) => Ok(allotment),
        Err(_) => Err(PlanFault::Memory),
    }
}
