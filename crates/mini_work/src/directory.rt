// The entries of a directory as they stand in its blocks.
ghost use Rattle.std.specs.Prelude.{◌≡◌, ◌≤◌, ℕ, length, vec_len, IfOk, IfSome};
ghost use Rattle.mini_work.specs.Causes.{HasCause, HasEnd, on_world};
ghost use Rattle.mini_work.specs.OpenedImages.{MayUse};
ghost use Rattle.mini_work.specs.Output.{OnlyTypes};

use crate::entries::entry_text;
use crate::fault::Fault;
use crate::output::type_bytes;
use crate::status::Status;
use cms_disk::UnitInfo;
use cms_text::bytes::word_at;
use cms_world::{ReadFault, World, read_block};
use std::alloc::Global;

// The bytes of an entry and of a pointer.
const ENTRY_BYTES: usize = 64;

const POINTER_BYTES: usize = 4;

// The most data blocks of a directory.
const MOST_LEAVES: usize = 2_049;

// Where the data blocks of a directory stand, by its own entry.
#[derive(Clone, Copy)]
struct Tree {
    origin: u32,
    levels: u8,
    root: u32,
}

/// The bytes of a block of a unit; none where it has none of this number.
pub(crate) fn read_any<W: World>(
    alloc: Global,
    world: &mut W,
    unit: &UnitInfo,
    block: u32,
) -> Result<Option<Vec<u8>>, Fault>
    requires { MayUse (W.told world.old) unit.now }
    ensures least { IfOk result (λ found. IfSome found (λ bytes. 512 ≤ vec_len bytes)) }
    ensures told { W.told world.new ≡ W.told world.old }
    ensures cause { (n : ℕ) → HasCause (on_world W.World world.old n)
        (on_world W.World world.new n) result }
{
    if !(1..=unit.unit.blocks).contains(&block) {
        return Ok(None);
    }
    match read_block(alloc, world, unit.unit.number, block, unit.bsize.bytes()) {
        Ok(bytes) => Ok(Some(bytes)),
        Err(ReadFault::Device) => Err(Fault::Image),
        Err(ReadFault::Memory) => Err(Fault::Memory),
    }
}

/// Shows the first entries of a directory as they stand, at most so many: up to one of zeros, or a block that isn't there.
pub(crate) fn show_directory<W: World>(
    alloc: Global,
    world: &mut W,
    unit: &UnitInfo,
    origin: u32,
    most: usize,
) -> Result<Status, Fault>
    requires { MayUse (W.told world.old) unit.now }
    ensures goes { OnlyTypes (W.told world.old) (W.told world.new) }
    ensures cause { (n : ℕ) → HasEnd (on_world W.World world.old n)
        (on_world W.World world.new n) result }
{
    let tree = read_tree(alloc, world, unit, origin)?;
    for leaf in 0..MOST_LEAVES {
        let more = show_leaf(alloc, world, unit, tree, leaf, most)?;
        if !more {
            return Ok(Status::Done);
        }
    }
    Ok(Status::Done)
}

// Where the data blocks of a directory stand; where its first block isn't there, nowhere else.
fn read_tree<W: World>(
    alloc: Global,
    world: &mut W,
    unit: &UnitInfo,
    origin: u32,
) -> Result<Tree, Fault>
    requires { MayUse (W.told world.old) unit.now }
    ensures told { W.told world.new ≡ W.told world.old }
    ensures cause { (n : ℕ) → HasCause (on_world W.World world.old n)
        (on_world W.World world.new n) result }
{
    match read_any(alloc, world, unit, origin)? {
        Some(bytes) => Ok(tree_of(origin, &bytes)),
        None => Ok(Tree {
            origin,
            levels: 0,
            root: 0,
        }),
    }
}

// Where the data blocks of a directory stand that begins with this block.
fn tree_of(origin: u32, bytes: &[u8]) -> Tree
    requires { 64 ≤ length bytes.now }
{
    Tree {
        origin,
        levels: bytes[52],
        root: word_at(bytes, 40),
    }
}

// Shows the entries in a data block of a directory, and says whether there may be more behind them.
fn show_leaf<W: World>(
    alloc: Global,
    world: &mut W,
    unit: &UnitInfo,
    tree: Tree,
    leaf: usize,
    most: usize,
) -> Result<bool, Fault>
    requires { MayUse (W.told world.old) unit.now }
    ensures goes { OnlyTypes (W.told world.old) (W.told world.new) }
    ensures cause { (n : ℕ) → HasCause (on_world W.World world.old n)
        (on_world W.World world.new n) result }
{
    let Some(bytes) = read_leaf(alloc, world, unit, tree, leaf)? else {
        return Ok(false);
    };
    let first = leaf.saturating_mul(bytes.len() / ENTRY_BYTES);
    show_block(alloc, world, unit, &bytes, first, most)
}

// A data block of a directory, by its place, if it and the pointers to it are there.
fn read_leaf<W: World>(
    alloc: Global,
    world: &mut W,
    unit: &UnitInfo,
    tree: Tree,
    leaf: usize,
) -> Result<Option<Vec<u8>>, Fault>
    requires { MayUse (W.told world.old) unit.now }
    ensures told { W.told world.new ≡ W.told world.old }
    ensures cause { (n : ℕ) → HasCause (on_world W.World world.old n)
        (on_world W.World world.new n) result }
{
    match find_leaf(alloc, world, unit, tree, leaf)? {
        Some(block) => read_any(alloc, world, unit, block),
        None => Ok(None),
    }
}

// The number of a data block of a directory, if the pointers to it are there.
fn find_leaf<W: World>(
    alloc: Global,
    world: &mut W,
    unit: &UnitInfo,
    tree: Tree,
    leaf: usize,
) -> Result<Option<u32>, Fault>
    requires { MayUse (W.told world.old) unit.now }
    ensures told { W.told world.new ≡ W.told world.old }
    ensures cause { (n : ℕ) → HasCause (on_world W.World world.old n)
        (on_world W.World world.new n) result }
{
    if leaf == 0 {
        return Ok(Some(tree.origin));
    }
    match tree.levels {
        1 => find_pointer(alloc, world, unit, tree.root, leaf),
        2 => find_below(alloc, world, unit, tree.root, leaf),
        _ => Ok(None),
    }
}

// The same of two levels of pointers.
fn find_below<W: World>(
    alloc: Global,
    world: &mut W,
    unit: &UnitInfo,
    root: u32,
    leaf: usize,
) -> Result<Option<u32>, Fault>
    requires { MayUse (W.told world.old) unit.now }
    ensures told { W.told world.new ≡ W.told world.old }
    ensures cause { (n : ℕ) → HasCause (on_world W.World world.old n)
        (on_world W.World world.new n) result }
{
    let fan = unit.bsize.bytes() as usize / POINTER_BYTES;
    match find_pointer(alloc, world, unit, root, leaf / fan)? {
        Some(below) => find_pointer(alloc, world, unit, below, leaf % fan),
        None => Ok(None),
    }
}

// A pointer of a block by its place, if the block is there and has it.
fn find_pointer<W: World>(
    alloc: Global,
    world: &mut W,
    unit: &UnitInfo,
    block: u32,
    place: usize,
) -> Result<Option<u32>, Fault>
    requires { MayUse (W.told world.old) unit.now }
    ensures told { W.told world.new ≡ W.told world.old }
    ensures cause { (n : ℕ) → HasCause (on_world W.World world.old n)
        (on_world W.World world.new n) result }
{
    match read_any(alloc, world, unit, block)? {
        Some(pointers) => Ok(pointer_at(&pointers, place)),
        None => Ok(None),
    }
}

fn pointer_at(pointers: &[u8], place: usize) -> Option<u32> {
    if place >= pointers.len() / POINTER_BYTES {
        return None;
    }
    Some(word_at(pointers, place * POINTER_BYTES))
}

// Shows the entries in a block, of which the first has this number, and says whether there may be more behind them.
fn show_block<W: World>(
    alloc: Global,
    world: &mut W,
    unit: &UnitInfo,
    bytes: &[u8],
    first: usize,
    most: usize,
) -> Result<bool, Fault>
    ensures goes { OnlyTypes (W.told world.old) (W.told world.new) }
    ensures cause { (n : ℕ) → HasCause (on_world W.World world.old n)
        (on_world W.World world.new n) result }
{
    for (place, entry) in bytes.chunks_exact(ENTRY_BYTES).enumerate() {
        let number = first.saturating_add(place);
        if is_end(entry, number, most) {
            return Ok(false);
        }
        show_entry(alloc, world, unit, number, entry)?;
    }
    Ok(true)
}

// Whether no more entries are shown: enough were, or nothing is written there.
fn is_end(bytes: &[u8], number: usize, most: usize) -> bool {
    number >= most || bytes.iter().all(|byte| *byte == 0)
}

// Shows an entry as it stands.
fn show_entry<W: World>(
    alloc: Global,
    world: &mut W,
    unit: &UnitInfo,
    place: usize,
    bytes: &[u8],
) -> Result<(), Fault>
    requires { 64 ≤ length bytes.now }
    ensures goes { OnlyTypes (W.told world.old) (W.told world.new) }
    ensures cause { (n : ℕ) → HasCause (on_world W.World world.old n)
        (on_world W.World world.new n) result }
{
    let text = entry_text(alloc, unit.bsize, place, bytes)?;
    type_bytes(world, text.as_bytes())
}
