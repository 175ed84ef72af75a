// Trees that are written while their leaves are, beside those that `build` makes.
ghost use Rattle.std.specs.Prelude.{◌≡◌, ◌⊎◌, ◌/◌, ◌≤◌, length, vec_len};
ghost use Rattle.cms_model.specs.Sizes.{pointer_count};

use crate::plain_world::{PlainWorld, blank, written_once};
use cms_cases::{Report, number, word};
use cms_journal::BlockSize;
use cms_tree::{Climb, Mark, build, shape};
use cms_world::World;
use std::alloc::Global;
use std::process::Abort;

/// `climb/LEAVES/SIZE`: whether a tree over so many leaves with pointers of this size is written, and as `build` makes it.
/// `blocks/COUNT`: whether one over the leaves 10 to 138 is written where the write behind so many fails, of the first pointer block or of
/// the root, which is the last; how many blocks are written in all, which they are from the 127th on, and how often a write failed.
pub const ROWS: &str = "\
climb/1/4 => (true, true)
climb/2/4 => (true, true)
climb/127/4 => (true, true)
climb/128/4 => (true, true)
climb/129/4 => (true, true)
climb/16385/4 => (true, true)
climb/42/12 => (true, true)
climb/43/12 => (true, true)
climb/1765/12 => (true, true)
blocks/all => (true, 132, Some([136, 137, 1000000, 138, 1000001, 1000002]), 0)
blocks/128 => (false, 128, Some([136, 137]), 1)
blocks/131 => (false, 131, Some([136, 137, 1000000, 138, 1000001]), 1)";

/// The number of the first pointer block; the leaves are numbered from 10.
pub const FIRST: u32 = 1_000_000;

/// So many numbers, one after another.
pub fn numbers<R: Abort>(rt: &R, alloc: Global, first: u32, count: u32) -> Vec<u32>
    ensures { vec_len result ≡ count }
{
    let mut numbers = Vec::new(alloc);
    for place in 0..count {
        let number = first.wrapping_add(place);
        numbers.push(number).expect(rt, "memory");
    }
    numbers
}

/// A mark of its own for each leaf.
pub fn mark_of(place: u32) -> Mark {
    Mark {
        last: place / 3,
        place: place % 511,
    }
}

// The marks of so many leaves.
fn marks<R: Abort>(rt: &R, alloc: Global, count: u32) -> Vec<Mark>
    ensures { vec_len result ≡ count }
{
    let mut marks = Vec::new(alloc);
    for place in 0..count {
        marks.push(mark_of(place)).expect(rt, "memory");
    }
    marks
}

/// Writes the leaves of a tree from one on by the world, and with them the pointer blocks over them; whether all were written.
pub fn add_leaves(
    climb: &mut Climb,
    world: &mut PlainWorld<'_>,
    first: u32,
    leaves: u32,
    fresh: &[u32],
) -> bool
    requires few { leaves ≤ 100000 }
    requires added { climb.old.added ≡ first }
    requires leaves { climb.old.count ≡ leaves }
    requires bsize { climb.old.bsize ≡ 512 }
    requires psize { (climb.old.psize ≡ 4) ⊎ (climb.old.psize ≡ 12) }
    requires fresh { pointer_count (512 / climb.old.psize) leaves ≤ length fresh.now }
{
    for place in first..leaves {
        let leaf = 10 + place;
        if world.write_block(0, leaf, &[0; 512]).is_err()
            || climb.add(world, 0, leaf, &mark_of(place), fresh).is_err()
        {
            return false;
        }
    }
    true
}

/// Writes a tree of so many leaves; whether all were written.
pub fn climbs<R: Abort>(
    rt: &R,
    alloc: Global,
    world: &mut PlainWorld<'_>,
    leaves: u32,
    psize: u8,
    fresh: &[u32],
) -> bool
    requires some { 1 ≤ leaves }
    requires few { leaves ≤ 100000 }
    requires psize { (psize ≡ 4) ⊎ (psize ≡ 12) }
    requires fresh { pointer_count (512 / psize) leaves ≤ length fresh.now }
{
    let climb = Climb::new(alloc, leaves, BlockSize::new(512), psize);
    add_leaves(&mut climb.expect(rt, "memory"), world, 0, leaves, fresh)
}

// How many pointer blocks have this number or a higher one, where the world holds each of them once and as `build` makes it.
fn built(
    world: &PlainWorld<'_>,
    blocks: &[u32],
    marks: &[Mark],
    psize: u8,
    fresh: &[u32],
    new: u32,
) -> Option<usize>
    requires psize { (psize ≡ 4) ⊎ (psize ≡ 12) }
    requires some { 1 ≤ length blocks.now }
    requires few { length blocks.now ≤ 100000 }
    requires marks { length marks.now ≡ length blocks.now }
    requires fresh { pointer_count (512 / psize) (length blocks.now) ≤ length fresh.now }
{
    let mut count = 0usize;
    for nth in 0..shape(blocks.len() as u32, 512 / u32::from(psize)).pointers {
        let number = fresh[nth as usize];
        if number >= new {
            let mut block = [0; 512];
            let bsize = BlockSize::new(512);
            build(blocks, marks, fresh, bsize, psize, nth, &mut block);
            if written_once(world, number) != Some(block.as_slice()) {
                return None;
            }
            count = count.saturating_add(1);
        }
    }
    Some(count)
}

/// Whether the world holds, behind so many blocks, each pointer block with this number or a higher one once and as `build` makes it, and
/// no other.
pub fn holds<R: Abort>(
    rt: &R,
    alloc: Global,
    world: &PlainWorld<'_>,
    leaves: u32,
    psize: u8,
    fresh: &[u32],
    new: u32,
    others: usize,
) -> bool
    requires some { 1 ≤ leaves }
    requires few { leaves ≤ 100000 }
    requires psize { (psize ≡ 4) ⊎ (psize ≡ 12) }
    requires fresh { pointer_count (512 / psize) leaves ≤ length fresh.now }
{
    let blocks = numbers(rt, alloc, 10, leaves);
    let marks = marks(rt, alloc, leaves);
    let held = world.blocks.len().checked_sub(others);
    built(world, &blocks, &marks, psize, fresh, new) == held
}

// Whether a tree is written, and as it is built.
fn tell_climb<R: Abort>(into: &mut Report, rt: &R, alloc: Global, leaves: u32, is_wide: bool) {
    let psize = if is_wide { 12 } else { 4 };
    if leaves < 1 || leaves > 100_000 {
        return into.push_str("no tree");
    }
    let count = shape(leaves, 512 / u32::from(psize)).pointers;
    let fresh = numbers(rt, alloc, FIRST, count);
    let mut world = blank(alloc, usize::MAX);
    let climbs = climbs(rt, alloc, &mut world, leaves, psize, &fresh);
    let others = leaves as usize;
    let holds = holds(rt, alloc, &world, leaves, psize, &fresh, FIRST, others);
    into.value(&(climbs, holds))
}

// Whether all was written, and what a world keeps.
fn tell_kept(into: &mut Report, all: bool, world: &PlainWorld<'_>) {
    let blocks = world.blocks.as_slice();
    into.value(&(all, blocks.len(), blocks.get(126..), world.failures))
}

// What is written of a tree over 129 leaves where the write behind so many fails.
fn tell_blocks<R: Abort>(into: &mut Report, rt: &R, alloc: Global, most: usize) {
    let fresh = numbers(rt, alloc, FIRST, shape(129, 128).pointers);
    let mut world = blank(alloc, most);
    let climbs = climbs(rt, alloc, &mut world, 129, 4, &fresh);
    tell_kept(into, climbs, &world)
}

/// Tells what a case comes to.
pub fn tell<R: Abort>(into: &mut Report, rt: &R, alloc: Global, case: &str) {
    let count = number(word(case, 1));
    match word(case, 0) {
        "climb" => tell_climb(into, rt, alloc, count, word(case, 2) == "12"),
        _ => tell_blocks(into, rt, alloc, count as usize),
    }
}
