// Pointer blocks of a tree that keeps some of those of the tree before.
ghost use Rattle.std.specs.Prelude.{◌≡◌, ℕ, List, ◌+◌, ◌*◌, ◌^◌, ◌<◌, ◌≤◌, ◌++◌, true, false, if◌then◌else◌, length, slice_index, vec_len, vec_capacity};
ghost use Rattle.std.specs.List.{concat};
ghost use Rattle.std.specs.List.Sorted.{IsStrictlyIncreasing};
ghost use Rattle.cms_fields.specs.Numbers.{up};
ghost use Rattle.cms_model.specs.Sizes.{levels, pointer_count};
ghost use Rattle.cms_model.specs.SharedTrees.{any_within, is_kept, fresh_on, fresh_to};
ghost use Rattle.cms_model.specs.SharedTimes.{without, gone};
ghost use Rattle.cms_tree.specs.Paths.{HeapedIsRead, IsRest, PathIsShared, PathIsWhole, PathTakesFirst, PathTakesNoMore, fresh_places, numbered, path_levels, places_on, tree_levels};

use crate::shape;

// A level of pointer blocks of two trees, of which one stands before an update and one after it.
#[derive(Clone, Copy)]
struct SharedLevel {
    // the data blocks below each pointer block but the last
    size: u64,
    // the data blocks of the tree before, and of the tree after
    before: u32,
    count: u32,
    // whether both trees have the level
    both: bool,
}

// The last of ascending numbers, from the first on that isn't below one.
fn rest_from(numbers: &[u32], low: u64) -> &[u32]
    requires { IsStrictlyIncreasing numbers.now }
    ensures { IsRest low numbers.now result.now }
{
    for (at, number) in numbers.iter().enumerate() {
        if u64::from(*number) >= low {
            return &numbers[at..];
        }
    }
    &numbers[numbers.len()..]
}

// Whether one of these ascending numbers is below one.
fn any_below(numbers: &[u32], end: u64) -> bool
    requires { IsStrictlyIncreasing numbers.now }
    ensures { (from : ℕ) → (1 ≤ length numbers.now → from ≤ slice_index numbers.now 0)
        → result ≡ any_within from end numbers.now }
{
    if numbers.is_empty() {
        return false;
    }
    u64::from(numbers[0]) < end
}

impl SharedLevel {
    // The pointer blocks of the level over so many data blocks.
    fn blocks(&self, leaves: u32) -> u32
        requires { 1 ≤ self.now.size }
        ensures { result ≡ up leaves self.now.size }
    {
        u64::from(leaves).div_ceil(self.size) as u32
    }

    // The pointer blocks of the level in the tree before, none where only one of the trees has it.
    fn shared_blocks(&self) -> u32
        requires { 1 ≤ self.now.size }
        ensures { result ≡ (if self.now.both then up self.now.before self.now.size else 0) }
    {
        if self.both {
            self.blocks(self.before)
        } else {
            0
        }
    }

    // Whether a pointer block is kept. `written` has the written places from its own first one on.
    fn is_kept(&self, nth: u64, written: &[u32]) -> bool
        requires room { nth * self.now.size + self.now.size < 2 ^ 64 }
        requires ascends { IsStrictlyIncreasing written.now }
        requires first { 1 ≤ length written.now → nth * self.now.size ≤ slice_index written.now 0 }
        ensures { result ≡ is_kept self.now.both self.now.size self.now.before self.now.count
            written.now nth }
    {
        if !self.both {
            return false;
        }
        let end = nth * self.size + self.size;
        let last = end.min(u64::from(self.count));
        if end.min(u64::from(self.before)) != last {
            return false;
        }
        !any_below(written, last)
    }
}

// The number of a pointer block: its old one where it is kept, else the next fresh one.
fn number_of(kept: bool, olds: &[u32], nth: usize, fresh: &[u32], next: usize) -> u32
    requires old { kept ≡ true → nth < length olds.now }
    requires fresh { kept ≡ false → next < length fresh.now }
    ensures { result ≡ (if kept then slice_index olds.now nth else slice_index fresh.now next) }
{
    if kept { olds[nth] } else { fresh[next] }
}

// Appends the pointer blocks of a level, and tells how many of the fresh numbers it took.
fn number_level(
    level: &SharedLevel,
    olds: &[u32],
    written: &[u32],
    fresh: &[u32],
    into: &mut Vec<u32>,
) -> usize
    requires some { 1 ≤ level.now.size }
    requires ascends { IsStrictlyIncreasing written.now }
    requires olds { level.now.both ≡ true → up level.now.before level.now.size ≤ length olds.now }
    requires fresh { fresh_on level.now.both level.now.size level.now.before level.now.count
        written.now (up level.now.count level.now.size) ≤ length fresh.now }
    requires room { vec_len into.old + up level.now.count level.now.size ≤ vec_capacity into.old }
    ensures appended { into.new.items ≡ into.old.items
        ++ numbered level.now.both level.now.size level.now.before level.now.count
        written.now olds.now fresh.now (up level.now.count level.now.size) }
    ensures taken { result ≡ fresh_on level.now.both level.now.size level.now.before level.now.count
        written.now (up level.now.count level.now.size) }
    ensures len { vec_len into.new ≡ vec_len into.old + up level.now.count level.now.size }
    ensures capacity { vec_capacity into.old ≤ vec_capacity into.new }
{
    let mut rest = written;
    let mut taken = 0usize;
    for nth in 0..level.blocks(level.count) {
        rest = rest_from(rest, u64::from(nth) * level.size);
        let kept = level.is_kept(u64::from(nth), rest);
        let number = number_of(kept, olds, nth as usize, fresh, taken);
        into.push(number).unwrap();
        if !kept {
            taken += 1;
        }
    }
    taken
}

/// Appends the numbers of the pointer blocks of a tree of which some are kept from the tree before, bottom level first and each
/// level from left to right.
///
/// The tree before has `old_leaves` data blocks and the tree after `new_leaves`, at least one each; a pointer block has `fan`
/// pointers, at least two. `old_pointers` has the number of each pointer block of the tree before, in the same order. `written` has
/// the places of the data blocks that are written anew, ascending and each once. A pointer block is kept where the tree before has
/// one at the same place of the same level, over the same places of data blocks, and none of these is written; it keeps its number.
/// Each other takes the next of the `fresh` numbers, of which there must be enough. The call takes no memory: the vector must have
/// room for the tree's pointer blocks.
pub fn path(
    old_leaves: u32,
    old_pointers: &[u32],
    new_leaves: u32,
    fan: u32,
    written: &[u32],
    fresh: &[u32],
    into: &mut Vec<u32>,
)
    requires some_before { 1 ≤ old_leaves }
    requires some { 1 ≤ new_leaves }
    requires wide { 2 ≤ fan }
    requires olds { length old_pointers.now ≡ pointer_count fan old_leaves }
    requires ascends { IsStrictlyIncreasing written.now }
    requires fresh { fresh_to fan old_leaves new_leaves written.now (levels fan new_leaves)
        ≤ length fresh.now }
    requires room { vec_len into.old + pointer_count fan new_leaves ≤ vec_capacity into.old }
    ensures appended { into.new.items ≡ into.old.items
        ++ concat (path_levels fan old_leaves old_pointers.now new_leaves written.now fresh.now) }
    ensures len { vec_len into.new ≡ vec_len into.old + pointer_count fan new_leaves }
    ensures capacity { vec_capacity into.old ≤ vec_capacity into.new }
{
    let old_levels = shape(old_leaves, fan).levels;
    let new_levels = shape(new_leaves, fan).levels;
    let mut olds = old_pointers;
    let mut numbers = fresh;
    let mut size = 1u64;
    for height in 0..new_levels {
        size *= u64::from(fan);
        let level = SharedLevel {
            size,
            before: old_leaves,
            count: new_leaves,
            both: height < old_levels,
        };
        let (tier, above) = olds.split_at(level.shared_blocks() as usize);
        let taken = number_level(&level, tier, written, numbers, into);
        let (_, left) = numbers.split_at(taken);
        olds = above;
        numbers = left;
    }
}

// Appends the pointer blocks of a level of the tree before that aren't kept.
fn leave_level(level: &SharedLevel, tier: &[u32], written: &[u32], into: &mut Vec<u32>)
    requires some { 1 ≤ level.now.size }
    requires ascends { IsStrictlyIncreasing written.now }
    requires tier { length tier.now ≤ up level.now.before level.now.size }
    requires room { vec_len into.old + length tier.now ≤ vec_capacity into.old }
    ensures appended { into.new.items ≡ into.old.items
        ++ without (is_kept level.now.both level.now.size level.now.before level.now.count
        written.now) 0 tier.now }
    ensures len { vec_len into.new ≤ vec_len into.old + length tier.now }
    ensures capacity { vec_capacity into.old ≤ vec_capacity into.new }
{
    let mut rest = written;
    for (nth, block) in tier.iter().enumerate() {
        rest = rest_from(rest, nth as u64 * level.size);
        if !level.is_kept(nth as u64, rest) {
            into.push(*block).unwrap();
        }
    }
}

/// Appends the numbers of the old pointer blocks that `path` doesn't keep, bottom level first and each level from left to right.
/// It takes no memory: the vector must have room for all pointer blocks of the tree before.
pub fn left_out(
    old_leaves: u32,
    old_pointers: &[u32],
    new_leaves: u32,
    fan: u32,
    written: &[u32],
    into: &mut Vec<u32>,
)
    requires some_before { 1 ≤ old_leaves }
    requires some { 1 ≤ new_leaves }
    requires wide { 2 ≤ fan }
    requires olds { length old_pointers.now ≡ pointer_count fan old_leaves }
    requires ascends { IsStrictlyIncreasing written.now }
    requires room { vec_len into.old + pointer_count fan old_leaves ≤ vec_capacity into.old }
    ensures appended { (tiers : List (List ℕ)) → length tiers ≡ levels fan new_leaves
        → into.new.items ≡ into.old.items ++ gone fan 1 old_leaves new_leaves written.now
        (tree_levels fan old_leaves old_pointers.now) tiers }
    ensures capacity { vec_capacity into.old ≤ vec_capacity into.new }
{
    let old_levels = shape(old_leaves, fan).levels;
    let new_levels = shape(new_leaves, fan).levels;
    let mut olds = old_pointers;
    let mut size = 1u64;
    for height in 0..old_levels {
        size *= u64::from(fan);
        let level = SharedLevel {
            size,
            before: old_leaves,
            count: new_leaves,
            both: height < new_levels,
        };
        let (tier, above) = olds.split_at(level.blocks(old_leaves) as usize);
        leave_level(&level, tier, written, into);
        olds = above;
    }
}

// Appends the places of the pointer blocks of a level that aren't kept, where the first block of the level has this one.
fn place_level(level: &SharedLevel, first: u32, written: &[u32], into: &mut Vec<u32>)
    requires some { 1 ≤ level.now.size }
    requires few { first + up level.now.count level.now.size < 2 ^ 32 }
    requires ascends { IsStrictlyIncreasing written.now }
    requires room { vec_len into.old + up level.now.count level.now.size ≤ vec_capacity into.old }
    ensures appended { into.new.items ≡ into.old.items
        ++ places_on level.now.both level.now.size level.now.before level.now.count
        written.now first (up level.now.count level.now.size) }
    ensures len { vec_len into.new ≤ vec_len into.old + up level.now.count level.now.size }
    ensures capacity { vec_capacity into.old ≤ vec_capacity into.new }
{
    let mut rest = written;
    for nth in 0..level.blocks(level.count) {
        rest = rest_from(rest, u64::from(nth) * level.size);
        if !level.is_kept(u64::from(nth), rest) {
            into.push(first + nth).unwrap();
        }
    }
}

/// Appends the places of the pointer blocks that `path` doesn't keep, from 0 in the order of `path`. It takes no memory: the vector
/// must have room for the tree's pointer blocks.
pub fn fresh_places(
    old_leaves: u32,
    new_leaves: u32,
    fan: u32,
    written: &[u32],
    into: &mut Vec<u32>,
)
    requires some_before { 1 ≤ old_leaves }
    requires some { 1 ≤ new_leaves }
    requires wide { 2 ≤ fan }
    requires ascends { IsStrictlyIncreasing written.now }
    requires room { vec_len into.old + pointer_count fan new_leaves ≤ vec_capacity into.old }
    ensures appended { into.new.items
        ≡ into.old.items ++ fresh_places fan old_leaves new_leaves written.now }
    ensures capacity { vec_capacity into.old ≤ vec_capacity into.new }
{
    let old_levels = shape(old_leaves, fan).levels;
    let new_levels = shape(new_leaves, fan).levels;
    let mut first = 0;
    let mut size = 1u64;
    for height in 0..new_levels {
        size *= u64::from(fan);
        let level = SharedLevel {
            size,
            before: old_leaves,
            count: new_leaves,
            both: height < old_levels,
        };
        place_level(&level, first, written, into);
        first += level.blocks(new_leaves);
    }
}

// The level of data blocks of two trees, each of which has itself below it.
fn data_level(before: u32, count: u32) -> SharedLevel
    ensures { result ≡ record { size = 1; before = before; count = count; both = true } }
{
    SharedLevel {
        size: 1,
        before,
        count,
        both: true,
    }
}

/// Appends the numbers of the data blocks of a tree that keeps some of those of the tree before, in order.
///
/// `old` has the number of each data block of the tree before, and the tree after has `count` of them. `written` has the places of
/// those that are written anew, ascending and each once, with each that the tree before lacks. A data block that isn't written keeps
/// its number, and each other takes the next of the `fresh` numbers, of which there must be enough. The call takes no memory: the
/// vector must have room for all.
pub fn keep_leaves(old: &[u32], count: u32, written: &[u32], fresh: &[u32], into: &mut Vec<u32>)
    requires few { length old.now < 2 ^ 32 }
    requires ascends { IsStrictlyIncreasing written.now }
    requires fresh { fresh_on true 1 (length old.now) count written.now count ≤ length fresh.now }
    requires room { vec_len into.old + count ≤ vec_capacity into.old }
    ensures appended { into.new.items ≡ into.old.items
        ++ numbered true 1 (length old.now) count written.now old.now fresh.now count }
    ensures len { vec_len into.new ≡ vec_len into.old + count }
    ensures capacity { vec_capacity into.old ≤ vec_capacity into.new }
{
    let level = data_level(old.len() as u32, count);
    let _taken = number_level(&level, old, written, fresh, into);
}

/// Appends the numbers of the old data blocks that `keep_leaves` doesn't keep, in order. It takes no memory: the vector must have
/// room for all data blocks of the tree before.
pub fn leave_leaves(old: &[u32], count: u32, written: &[u32], into: &mut Vec<u32>)
    requires few { length old.now < 2 ^ 32 }
    requires ascends { IsStrictlyIncreasing written.now }
    requires room { vec_len into.old + length old.now ≤ vec_capacity into.old }
    ensures appended { into.new.items ≡ into.old.items
        ++ without (is_kept true 1 (length old.now) count written.now) 0 old.now }
    ensures len { vec_len into.new ≤ vec_len into.old + length old.now }
    ensures capacity { vec_capacity into.old ≤ vec_capacity into.new }
{
    let level = data_level(old.len() as u32, count);
    leave_level(&level, old, written, into);
}

/// The tree of `path` shares its pointer blocks with the tree before, takes the first of the fresh numbers, as many as are counted and
/// no more than it has pointer blocks, and has as many of these as its shape. Where its levels stand, it is read so.
pub fn path_laws()
    ensures shared { PathIsShared }
    ensures taken { PathTakesFirst }
    ensures whole { PathIsWhole }
    ensures few { PathTakesNoMore }
    ensures read { HeapedIsRead }
{}
