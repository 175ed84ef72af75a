// Pointer blocks built over data blocks.
ghost use Rattle.std.specs.Prelude.{◌≡◌, ◌⊎◌, ℕ, ◌+◌, ◌-◌, ◌*◌, ◌/◌, ◌^◌, ◌<◌, ◌≤◌, ◌++◌, length};
ghost use Rattle.byteorder.specs.Endian.{big_bytes};
ghost use Rattle.cms_text.specs.Bytes.{overwritten};
ghost use Rattle.cms_fields.specs.Numbers.{up};
ghost use Rattle.cms_model.specs.Sizes.{levels, pointer_count};
ghost use Rattle.cms_model.specs.LawsTrees.{cell_bytes};
ghost use Rattle.cms_tree.specs.Builds.{cell_of, node_at, node_bytes, BuiltIsTree};
ghost use Rattle.cms_tree.specs.Levels.{wide_mark, children_from, IsGroup};

use crate::Mark;
use cms_journal::BlockSize;
use cms_text::bytes::{put, put_word};

/// Fills a pointer block of a tree over these data blocks: the block at the place `nth` of all its pointer blocks, from 0,
/// counted from the bottom level up and from left to right on each.
///
/// `fresh` has a number for each pointer block in this order. Pointers have `psize` bytes, 4 or 12. Each block has as many
/// pointers as it has room for, but the last of a level; zeros stand behind them. A pointer of 12 bytes also has the `last` of
/// the last data block below it and the `place` of the first, of which `marks` has one for each data block.
pub fn build(
    leaves: &[u32],
    marks: &[Mark],
    fresh: &[u32],
    bsize: BlockSize,
    psize: u8,
    nth: u32,
    into: &mut [u8],
)
    requires some { 1 ≤ length leaves.now }
    requires few { length leaves.now < 2 ^ 32 }
    requires psize { (psize ≡ 4) ⊎ (psize ≡ 12) }
    requires marks { psize ≡ 12 → length marks.now ≡ length leaves.now }
    requires fresh { pointer_count (bsize / psize) (length leaves.now) ≤ length fresh.now }
    requires nth { nth < pointer_count (bsize / psize) (length leaves.now) }
    requires room { length into.old ≡ bsize }
    ensures { into.new ≡ node_at bsize psize leaves.now marks.now fresh.now nth }
{
    let fan = bsize.bytes() as usize / usize::from(psize);
    let group = group_of(leaves, fresh, fan, nth as usize);
    fill_node(&group, leaves.len(), marks, psize, into);
}

// The children of a pointer block.
#[derive(Clone, Copy)]
struct Group<'a> {
    blocks: &'a [u32],
    // the place of the first among the blocks of its level
    first: usize,
    // the data blocks below each block of that level but the last
    size: u64,
}

// The children of the pointer block at a place among all.
fn group_of<'a>(leaves: &'a [u32], fresh: &'a [u32], fan: usize, nth: usize) -> Group<'a>
    requires some { 1 ≤ length leaves.now }
    requires few { length leaves.now < 2 ^ 32 }
    requires wide { 2 ≤ fan }
    requires narrow { fan ≤ 1024 }
    requires fresh { pointer_count fan (length leaves.now) ≤ length fresh.now }
    requires nth { nth < pointer_count fan (length leaves.now) }
    ensures { IsGroup fan leaves.now fresh.now nth result }
{
    let mut below = leaves;
    let mut numbers = fresh;
    let mut size = 1u64;
    let mut place = nth;
    loop {
        let count = below.len().div_ceil(fan);
        if place < count {
            let first = place * fan;
            let end = (first + fan).min(below.len());
            return Group {
                blocks: &below[first..end],
                first,
                size,
            };
        }
        place -= count;
        let (level, above) = numbers.split_at(count);
        below = level;
        numbers = above;
        size *= fan as u64;
    }
}

// Fills a pointer block with its pointers and then zeros.
fn fill_node(group: &Group, count: usize, marks: &[Mark], psize: u8, into: &mut [u8])
    requires psize { (psize ≡ 4) ⊎ (psize ≡ 12) }
    requires marks { psize ≡ 12 → length marks.now ≡ count }
    requires few { count < 2 ^ 32 }
    requires size { 1 ≤ group.now.size }
    requires short { group.now.size ≤ 2 ^ 60 }
    requires within { group.now.first + length group.now.blocks.now ≤ up count group.now.size }
    requires room { length group.now.blocks.now * psize ≤ length into.old }
    ensures { into.new ≡ node_bytes (length into.old) psize
        (children_from marks.now count group.now.size group.now.first group.now.blocks.now) }
{
    into.fill(0);
    for (place, block) in group.blocks.iter().enumerate() {
        let mark = if psize == 12 {
            mark_of(marks, group.size, (group.first + place) as u64)
        } else {
            Mark { last: 0, place: 0 }
        };
        put_cell(into, place * usize::from(psize), psize, *block, &mark);
    }
}

// The mark of a block of a level.
fn mark_of(marks: &[Mark], size: u64, place: u64) -> Mark
    requires few { length marks.now < 2 ^ 32 }
    requires size { 1 ≤ size }
    requires short { size ≤ 2 ^ 60 }
    requires within { place * size < length marks.now }
    ensures { result ≡ wide_mark marks.now (length marks.now) size place }
{
    let first = place * size;
    let end = (first + size).min(marks.len() as u64);
    Mark {
        last: marks[end as usize - 1].last,
        place: marks[first as usize].place,
    }
}

// Writes a pointer at a place.
pub(crate) fn put_cell(into: &mut [u8], at: usize, psize: u8, block: u32, mark: &Mark)
    requires psize { (psize ≡ 4) ⊎ (psize ≡ 12) }
    requires room { at + psize ≤ length into.old }
    ensures { into.new ≡ overwritten at
        (cell_bytes (cell_of psize (record { block = block; mark = mark.now }))) into.old }
{
    let field = cell_field(block, mark);
    put(into, at, &field[..usize::from(psize)]);
}

// The bytes of a pointer with its mark.
fn cell_field(block: u32, mark: &Mark) -> [u8; 12]
    ensures { result ≡ big_bytes 4 block ++
        (big_bytes 4 mark.now.last ++ big_bytes 4 mark.now.place) }
{
    let mut field = [0; 12];
    put_word(&mut field, 0, block);
    put_word(&mut field, 4, mark.last);
    put_word(&mut field, 8, mark.place);
    field
}

/// An image that has the blocks of `build` at the numbers `fresh` has a tree of those data blocks.
pub fn build_laws()
    ensures { BuiltIsTree }
{}
