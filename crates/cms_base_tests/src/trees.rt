// Shapes, and trees that are built and read again.
ghost use Rattle.std.specs.Prelude.{◌≡◌, ◌≤◌, IfSome};
ghost use Rattle.cms_journal.specs.Journal.{HasBlocks};
ghost use Rattle.cms_world.specs.Mem.{journal_of};

use crate::climbs::numbers;
use crate::texts::number_at;
use cms_cases::{Report, word};
use cms_journal::BlockSize;
use cms_tree::{Mark, TreeAt, TreeFault, build, leaves, left_out, path, shape};
use cms_world::{Access, MemWorld, Unit, World};
use std::alloc::Global;
use std::process::Abort;

/// `shape/LEAVES/FAN`: the shape of a tree over so many leaves with so many pointers in a block.
/// `marks`: the front of a pointer block with marks, and whether the rest is zeros.
/// `tree/ROOT/LEAVES/FIRST/FAILING`: how a tree with this root and so many leaves, of which one may be the first, is read where the call
/// of the world with this number fails: the answer; the pointer blocks, behind the number 1; of the leaves, behind the number 2, this
/// number, how many numbers there are, and whether they are as they were built; and how many calls there were, of which the first
/// attaches the unit and the others read blocks.
/// `path/OLD/NEW/FAN/WRITTEN`: the pointer blocks of a tree over NEW data blocks that keeps what it can of one over OLD, where this data
/// block is written, and the old ones that it leaves out: these have the numbers from 100 on, and the fresh ones from 1000 on.
pub const ROWS: &str = "\
shape/1/128 => Shape { levels: 0, pointers: 0 }
shape/128/128 => Shape { levels: 1, pointers: 1 }
shape/129/128 => Shape { levels: 2, pointers: 3 }
shape/42/42 => Shape { levels: 1, pointers: 1 }
shape/43/42 => Shape { levels: 2, pointers: 3 }
shape/16385/128 => Shape { levels: 3, pointers: 132 }
shape/4294967295/2 => Shape { levels: 32, pointers: 4294967295 }
marks => (Some([0, 0, 0, 7, 0, 0, 0, 2, 0, 0, 0, 0, 0, 0, 0, 8, 0, 0, 0, 2, 255, 255, 255, 255]), true)
tree/51/43/4/0 => (Ok(()), [1, 49, 50, 51], Some(2), 44, true, 4)
tree/49/42/4/0 => (Ok(()), [1, 49], Some(2), 43, true, 2)
tree/4/1/4/0 => (Ok(()), [1], Some(2), 2, true, 1)
tree/51/43/-/0 => (Err(Pointer { holder: 49, value: 4 }), [1], Some(2), 1, true, 3)
tree/51/43/7/0 => (Err(Pointer { holder: 49, value: 4 }), [1], Some(2), 1, true, 3)
tree/52/43/4/0 => (Err(Pointer { holder: 3, value: 52 }), [1], Some(2), 1, true, 1)
tree/5/43/4/0 => (Err(Pointer { holder: 3, value: 5 }), [1], Some(2), 1, true, 1)
tree/51/44/4/0 => (Err(Pointer { holder: 50, value: 0 }), [1], Some(2), 1, true, 4)
tree/51/43/4/3 => (Err(Device), [1], Some(2), 1, true, 3)
path/1/2/128/1 => ([1000], [])
path/128/129/128/128 => ([100, 1000, 1001], [])
path/42/43/42/42 => ([100, 1000, 1001], [])
path/300/301/128/300 => ([100, 101, 1000, 1001], [102, 103])
path/130/129/128/0 => ([1000, 1001, 1002], [100, 101, 102])
path/2/1/128/0 => ([], [100])";

fn tell_shape(into: &mut Report, leaves: u32, fan: u32) {
    if leaves < 1 || fan < 2 {
        return into.push_str("no tree");
    }
    into.value(&shape(leaves, fan))
}

// A record of 509 bytes and one of 3, each behind its length, stand in two blocks: the second begins in the first block.
fn tell_marks(into: &mut Report) {
    let marks = [
        Mark { last: 2, place: 0 },
        Mark {
            last: 2,
            place: 0xFFFF_FFFF,
        },
    ];
    let mut block = [7; 512];
    if shape(2, 42).pointers == 1 {
        build(
            &[7, 8],
            &marks,
            &[9],
            BlockSize::new(512),
            12,
            0,
            &mut block,
        );
    }
    into.value(&(block.get(..24), block[24..] == [0; 488]))
}

// The data blocks of a tree: block 4, and blocks 7 to 48.
fn data_blocks() -> [u32; 43] {
    let mut numbers = [4; 43];
    for place in 1..43 {
        numbers[place] = 6 + place as u32;
    }
    numbers
}

// An image of zeros, with the pointer blocks over them, which are blocks 49 to 51.
fn tree_image<R: Abort>(rt: &R, alloc: Global) -> Vec<u8> {
    let marks = [Mark { last: 1, place: 0 }; 43];
    let mut image = vec![in alloc; 0; 48 * 512].expect(rt, "memory");
    if shape(43, 42).pointers == 3 {
        for nth in 0..3 {
            let mut block = [0; 512];
            build(
                &data_blocks(),
                &marks,
                &[49, 50, 51],
                BlockSize::new(512),
                12,
                nth,
                &mut block,
            );
            image.extend_from_slice(&block).expect(rt, "memory");
        }
    }
    image
}

// The image as a unit.
fn attach(world: &mut MemWorld) -> Option<Unit>
    ensures { IfSome result
        (λ unit. HasBlocks (journal_of world.new).units unit.number unit.blocks 512) }
{
    if world.units() >= 256 {
        return None;
    }
    match world.attach("T", 512, Access::ReadOnly) {
        Ok(unit) => Some(unit),
        Err(_) => None,
    }
}

// How a tree was read: the answer, both lists, and how many calls there were.
fn tell_found(
    into: &mut Report,
    answer: Result<(), TreeFault>,
    pointers: &[u32],
    found: &[u32],
    calls: usize,
) {
    let count = found.len();
    let are_built = found.get(1..) == data_blocks().get(..count.saturating_sub(1));
    into.value(&(answer, pointers, found.first(), count, are_built, calls))
}

// Reads a tree, behind a number in each list.
fn tell_read<R: Abort>(into: &mut Report, rt: &R, alloc: Global, world: &mut MemWorld, at: &TreeAt)
    requires some { 1 ≤ at.now.count }
    requires psize { at.now.psize ≡ 12 }
    requires blocks { HasBlocks (journal_of world.old).units at.now.unit at.now.volume
        at.now.bsize }
{
    let mut pointers = vec![in alloc; 1].expect(rt, "memory");
    let mut found = vec![in alloc; 2].expect(rt, "memory");
    let answer = leaves(alloc, world, at, &mut pointers, &mut found);
    tell_found(into, answer, &pointers, &found, world.calls().len())
}

// A world that has the image, of whose calls one fails.
fn world_of<R: Abort>(rt: &R, alloc: Global, failing: u32) -> MemWorld {
    let mut world = MemWorld::new(alloc, b"", 0).expect(rt, "memory");
    world
        .add_image("T", &tree_image(rt, alloc))
        .expect(rt, "memory");
    world.fail_at(failing, false).expect(rt, "memory");
    world
}

// How a tree is read in a world.
fn tell_tree<R: Abort>(into: &mut Report, rt: &R, alloc: Global, world: &mut MemWorld, case: &str) {
    let count = number_at(case, 2);
    match attach(world) {
        Some(unit) if count >= 1 => {
            let at = TreeAt {
                unit: unit.number,
                bsize: BlockSize::new(512),
                volume: unit.blocks,
                holder: 3,
                root: number_at(case, 1),
                count,
                psize: 12,
                first: word(case, 3).parse().ok(),
            };
            tell_read(into, rt, alloc, world, &at)
        }
        _ => into.push_str("no tree"),
    }
}

fn tell_both(into: &mut Report, blocks: &[u32], left: &[u32]) {
    into.value(&(blocks, left))
}

fn tell_path<R: Abort>(
    into: &mut Report,
    rt: &R,
    alloc: Global,
    before: u32,
    count: u32,
    fan: u32,
    written: u32,
) {
    if before < 1 || count < 1 || fan < 2 {
        return into.push_str("no tree");
    }
    let olds = numbers(rt, alloc, 100, shape(before, fan).pointers);
    let fresh = numbers(rt, alloc, 1000, shape(count, fan).pointers);
    let mut blocks = Vec::with_capacity(alloc, fresh.len()).expect(rt, "memory");
    let mut left = Vec::with_capacity(alloc, olds.len()).expect(rt, "memory");
    path(before, &olds, count, fan, &[written], &fresh, &mut blocks);
    left_out(before, &olds, count, fan, &[written], &mut left);
    tell_both(into, &blocks, &left)
}

/// Tells what a case comes to.
pub fn tell<R: Abort>(into: &mut Report, rt: &R, alloc: Global, case: &str) {
    match word(case, 0) {
        "shape" => tell_shape(into, number_at(case, 1), number_at(case, 2)),
        "marks" => tell_marks(into),
        "path" => tell_path(
            into,
            rt,
            alloc,
            number_at(case, 1),
            number_at(case, 2),
            number_at(case, 3),
            number_at(case, 4),
        ),
        _ => {
            let mut world = world_of(rt, alloc, number_at(case, 4));
            tell_tree(into, rt, alloc, &mut world, case);
            drop(world)
        }
    }
}
