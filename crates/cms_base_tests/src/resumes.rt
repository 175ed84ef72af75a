// Trees that go on with one that stood before, beside those that `build` makes.
ghost use Rattle.std.specs.Prelude.{◌≡◌, ◌⊎◌, ◌/◌, ◌<◌, ◌≤◌, length};
ghost use Rattle.cms_model.specs.Sizes.{pointer_count};

use crate::climbs::{FIRST, add_leaves, climbs, holds, mark_of, numbers};
use crate::plain_world::{PlainWorld, blank};
use crate::texts::number_at;
use cms_cases::{Report, word};
use cms_journal::BlockSize;
use cms_tree::{Climb, shape};
use std::alloc::Global;
use std::process::Abort;

/// `resume/BEFORE/KEPT/LEAVES/SIZE`: a tree over so many leaves that keeps some of those of a tree before, with pointers of this
/// size: whether it was written, whether each new pointer block is as `build` makes it, where those that are kept have their old
/// numbers, and no other is written, and how many blocks were read.
pub const ROWS: &str = "\
resume/1/1/2/4 => (true, true, 0)
resume/1/0/2/12 => (true, true, 0)
resume/128/128/129/4 => (true, true, 0)
resume/129/129/300/4 => (true, true, 2)
resume/300/256/257/4 => (true, true, 1)
resume/300/100/128/4 => (true, true, 1)
resume/42/42/43/12 => (true, true, 0)
resume/43/1/45/12 => (true, true, 2)
resume/1764/1763/1765/12 => (true, true, 2)";

// What a tree is resumed from, and what becomes of it.
#[derive(Clone, Copy)]
struct Resumed {
    before: u32,
    kept: u32,
    leaves: u32,
    psize: u8,
}

// The number of the first new pointer block.
const NEW: u32 = 2_000_000;

// The number of each pointer block of the new tree: its old one, where all below it is kept, else the next new one.
fn numbers_after<R: Abort>(rt: &R, alloc: Global, trees: &Resumed) -> Vec<u32>
    requires psize { (trees.now.psize ≡ 4) ⊎ (trees.now.psize ≡ 12) }
    requires some { 1 ≤ trees.now.before }
    requires more { 1 ≤ trees.now.leaves }
{
    let fan = 512 / u32::from(trees.psize);
    let old_levels = shape(trees.before, fan).levels;
    let mut numbers = Vec::new(alloc);
    let mut first = FIRST;
    let mut next = NEW;
    let mut size = 1u32;
    for height in 0..shape(trees.leaves, fan).levels {
        size = size.saturating_mul(fan).max(1);
        for nth in 0..trees.leaves.div_ceil(size) {
            let end = nth.saturating_add(1).saturating_mul(size);
            let mut number = first.wrapping_add(nth);
            if height >= old_levels || end > trees.kept {
                number = next;
                next = next.wrapping_add(1);
            }
            numbers.push(number).expect(rt, "memory");
        }
        first = first.wrapping_add(trees.before.div_ceil(size));
    }
    numbers
}

// Goes on with the tree that stands, and writes the leaves that aren't kept; whether all were written.
fn resume(
    alloc: Global,
    world: &mut PlainWorld<'_>,
    trees: &Resumed,
    olds: &[u32],
    fresh: &[u32],
) -> bool
    requires psize { (trees.now.psize ≡ 4) ⊎ (trees.now.psize ≡ 12) }
    requires some { 1 ≤ trees.now.before }
    requires few { (trees.now.before ≤ 100000) × (trees.now.leaves ≤ 100000) }
    requires kept { trees.now.kept ≤ trees.now.before }
    requires fewer { trees.now.kept < trees.now.leaves }
    requires olds { length olds.now ≡ pointer_count (512 / trees.now.psize) trees.now.before }
    requires fresh { pointer_count (512 / trees.now.psize) trees.now.leaves ≤ length fresh.now }
{
    let resumed = Climb::resume(
        alloc,
        world,
        0,
        trees.before,
        olds,
        9 + trees.before,
        &mark_of(trees.before - 1),
        trees.kept,
        trees.leaves,
        BlockSize::new(512),
        trees.psize,
    );
    match resumed {
        Ok(mut climb) => add_leaves(&mut climb, world, trees.kept, trees.leaves, fresh),
        Err(_) => false,
    }
}

// What becomes of a tree: whether it is written, whether as it is built, and how many blocks are read.
fn tell_resumed<R: Abort>(
    into: &mut Report,
    rt: &R,
    alloc: Global,
    trees: &Resumed,
    olds: &[u32],
    fresh: &[u32],
)
    requires psize { (trees.now.psize ≡ 4) ⊎ (trees.now.psize ≡ 12) }
    requires some { 1 ≤ trees.now.before }
    requires few { (trees.now.before ≤ 100000) × (trees.now.leaves ≤ 100000) }
    requires kept { trees.now.kept ≤ trees.now.before }
    requires fewer { trees.now.kept < trees.now.leaves }
    requires olds { length olds.now ≡ pointer_count (512 / trees.now.psize) trees.now.before }
    requires fresh { pointer_count (512 / trees.now.psize) trees.now.leaves ≤ length fresh.now }
{
    let mut world = blank(alloc, usize::MAX);
    climbs(rt, alloc, &mut world, trees.before, trees.psize, olds);
    let leaves = (trees.leaves - trees.kept) as usize;
    let others = world.blocks.len().saturating_add(leaves);
    let resumes = resume(alloc, &mut world, trees, olds, fresh);
    let holds = holds(
        rt,
        alloc,
        &world,
        trees.leaves,
        trees.psize,
        fresh,
        NEW,
        others,
    );
    into.value(&(resumes, holds, world.reads))
}

// The trees of a case.
fn trees_of(case: &str) -> Resumed
    ensures { (result.psize ≡ 4) ⊎ (result.psize ≡ 12) }
{
    Resumed {
        before: number_at(case, 1),
        kept: number_at(case, 2),
        leaves: number_at(case, 3),
        psize: if word(case, 4) == "12" { 12 } else { 4 },
    }
}

/// Tells what a case comes to.
pub fn tell<R: Abort>(into: &mut Report, rt: &R, alloc: Global, case: &str) {
    let trees = trees_of(case);
    if trees.before < 1 || trees.before > 100_000 || trees.leaves > 100_000 {
        return into.push_str("no tree");
    }
    if trees.kept > trees.before || trees.kept >= trees.leaves {
        return into.push_str("not kept");
    }
    let fan = 512 / u32::from(trees.psize);
    let count = shape(trees.before, fan).pointers;
    let olds = numbers(rt, alloc, FIRST, count);
    let fresh = numbers_after(rt, alloc, &trees);
    if fresh.len() < shape(trees.leaves, fan).pointers as usize {
        return into.push_str("no numbers");
    }
    tell_resumed(into, rt, alloc, &trees, &olds, &fresh)
}
