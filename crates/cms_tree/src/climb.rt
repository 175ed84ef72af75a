// Pointer blocks that are written while their leaves are.
ghost use Rattle.std.specs.Prelude.{◌≡◌, ◌⊎◌, ℕ, List, ◌+◌, ◌*◌, ◌/◌, ◌%◌, ◌^◌, ◌<◌, ◌-◌, ◌≤◌, ◌∷◌, ◌++◌, [], true, length, suc, take, drop, replicate, unwrap_or, Some, None, All, IfOk, IfSome};
ghost use Rattle.std.specs.Option.{ForSome};
ghost use Rattle.cms_journal.specs.Journal.{HasBlock, IsBlockSize, IsWritable};
ghost use Rattle.cms_text.specs.Bytes.{overwritten};
ghost use Rattle.cms_fields.specs.Numbers.{up};
ghost use Rattle.cms_model.specs.LawsTrees.{cell_bytes};
ghost use Rattle.cms_model.specs.Sizes.{levels, pointer_count};
ghost use Rattle.cms_tree.specs.declared.types.Mark.{Mark};
ghost use Rattle.cms_tree.specs.Builds.{cell_of, root_of};
ghost use Rattle.cms_tree.specs.Levels.{over_count};
ghost use Rattle.cms_tree.specs.Climbs.{AddsOn, AddsOwn, HasEach, HasSize, HoldsLittle, IsNew, IsNext, Climbs, ClimbsOn, Adds, ClimbsAll, numbers_behind};
ghost use Rattle.cms_tree.specs.Kept.{Kept, kept_here};
ghost use Rattle.cms_tree.specs.Paths.{levels_of};
ghost use Rattle.cms_tree.specs.Resumes.{IsClear, IsResumed, ReadsFront, ResumesAll, ResumesOne, partly_above, place_in, root_before};
ghost use Rattle.cms_tree.specs.declared.types.ResumeFault.TheVariants.{Device};
ghost use Rattle.cms_tree.specs.Tiers.{ends_group, Tier, IsTier, IsOpen, IsChild, IsParent, Stand, Lifts, Rises};
ghost use Rattle.cms_world.specs.Seen.{OnUnits, OnlyReads, seen};

use crate::node::put_cell;
use crate::{Mark, ResumeFault, shape};
use cms_journal::BlockSize;
use cms_text::bytes::word_at;
use cms_world::{Failed, World};
use std::alloc::{AllocError, Global};
use std::marker::Model;

/// A tree of pointer blocks that is written while its leaves are. It holds one block for each level.
#[derive(Drop)]
pub struct Climb {
    bsize: BlockSize,
    psize: u8,
    leaves: u32,
    added: u32,
    levels: Vec<Level>,
}

// The open pointer block of a level: its pointers so far, and zeros.
#[derive(Drop)]
struct Level {
    bytes: Vec<u8>,
    // the `place` of the first data block below it, as soon as that is known
    place: Option<u32>,
}

// A block by its place on its level, with all that stands below it.
#[derive(Clone, Copy)]
struct Child {
    block: u32,
    mark: Mark,
    nth: u32,
    // the blocks of that level
    count: u32,
}

impl Model for Climb {
    ghost use Rattle.cms_tree.specs.Climbs as climbs;
    ghost use Rattle.cms_tree.specs.Climbs.{IsClimbing};

    ghost Value = { climbs.Climb };

    ghost view = { λ c. record { bsize = c.bsize; psize = c.psize; count = c.leaves; added = c.added; levels = c.levels.items } };

    ghost invariant = { λ c. IsClimbing (record {
      bsize = c.bsize;
      psize = c.psize;
      count = c.leaves;
      added = c.added;
      levels = c.levels.items;
    }) };
}

impl Climb {
    /// A tree of so many leaves, at least one, none of which is added yet. Pointers have `psize` bytes, 4 or 12.
    pub fn new(alloc: Global, leaves: u32, bsize: BlockSize, psize: u8) -> Result<Climb, AllocError>
        requires some { 1 ≤ leaves }
        requires psize { (psize ≡ 4) ⊎ (psize ≡ 12) }
        ensures { IfOk result (IsNew bsize psize leaves) }
    {
        let fan = bsize.bytes() / u32::from(psize);
        let levels = clear_levels(alloc, shape(leaves, fan).levels, bsize)?;
        Ok(Climb {
            bsize,
            psize,
            leaves,
            added: 0,
            levels,
        })
    }

    /// A tree of so many leaves, of which the first `kept` are those of a tree of `old_leaves` that stands on the unit. It is as if
    /// these were added, and goes on with that tree's pointer blocks, whose numbers are given bottom level first and from left to
    /// right. `last` and `mark` are the number and the mark of its last data block.
    ///
    /// The pointers to what is kept stay as they are there. A pointer of 12 bytes also keeps its `place` where a part of what is
    /// below it is kept. A pointer to the old root gets its `last` from `mark`, and 0 as its `place`.
    ///
    /// It reads one pointer block for each level at most, and holds one block for each level. `Device` where a read failed.
    pub fn resume<W: World>(
        alloc: Global,
        world: &mut W,
        unit: u8,
        old_leaves: u32,
        old_pointers: &[u32],
        last: u32,
        mark: &Mark,
        kept: u32,
        leaves: u32,
        bsize: BlockSize,
        psize: u8,
    ) -> Result<Climb, ResumeFault>
        requires psize { (psize ≡ 4) ⊎ (psize ≡ 12) }
        requires some { 1 ≤ old_leaves }
        requires pointers { length old_pointers.now ≡ pointer_count (bsize / psize) old_leaves }
        requires kept { kept ≤ old_leaves }
        requires fewer { kept < leaves }
        requires blocks { ForSome (W.told world.old)
            (λ j. HasEach j.units unit bsize old_pointers.now) }
        ensures resumed { IfOk result (IsResumed
            (W.told world.old) unit bsize psize old_leaves old_pointers.now last mark.now
            kept leaves) }
        ensures reads { OnlyReads (seen W.World world.old) (seen W.World world.new) Device result }
    {
        let fan = bsize.bytes() / u32::from(psize);
        let height = shape(leaves, fan).levels;
        let mut levels = clear_levels(alloc, height, bsize)?;
        let before = Before {
            pointers: old_pointers,
            levels: shape(old_leaves, fan).levels.min(height),
            count: old_leaves,
            kept,
            partly: false,
            root: root_of(old_pointers, last),
            last: mark.last,
        };
        match resume_levels(world, unit, bsize, psize, &mut levels, &before) {
            Ok(_) => Ok(Climb {
                bsize,
                psize,
                leaves,
                added: kept,
                levels,
            }),
            Err(Failed) => Err(ResumeFault::Device),
        }
    }

    /// Adds the next leaf, and writes each pointer block that is complete with it, bottom level first: a block is complete as
    /// soon as its last pointer is. It holds then what `build` puts there.
    ///
    /// `fresh` has a number for each pointer block in the order of `build`, the same at each call. `Failed` where the device did;
    /// only some of the blocks were written then, and the climb is of no more use. It takes no memory.
    pub fn add<W: World>(
        &mut self,
        world: &mut W,
        unit: u8,
        leaf: u32,
        mark: &Mark,
        fresh: &[u32],
    ) -> Result<(), Failed>
        requires fewer { self.old.added < self.old.count }
        requires fresh { pointer_count (self.old.bsize / self.old.psize) self.old.count
            ≤ length fresh.now }
        requires blocks { ForSome (W.told world.old)
            (λ j. HasEach j.units unit self.old.bsize fresh.now) }
        requires writable { ForSome (W.told world.old) (λ j. IsWritable j.units unit) }
        ensures adds { (leaves : List ℕ) (marks : List Mark)
            → Climbs self.old leaves marks fresh.now
            → IsNext self.old leaves marks leaf mark.now
            → Adds (W.told world.old)
            (W.told world.new) unit self.old self.new leaves marks fresh.now result }
        ensures adds_on { (kept : ℕ) (es : List Kept) (leaves : List ℕ) (marks : List Mark)
            → ClimbsOn self.old kept es leaves marks fresh.now
            → IsNext self.old leaves marks leaf mark.now
            → AddsOn (W.told world.old) (W.told world.new) unit self.old self.new kept es leaves
            marks fresh.now result }
        ensures added { self.new ≡ record self.old {
          added = self.old.added + 1;
          levels = self.new.levels;
        } }
        ensures held { HoldsLittle self.new }
        ensures own { (kept : ℕ) → kept ≤ self.old.added
            → AddsOwn (W.told world.old) (W.told world.new) unit self.old.bsize
            (numbers_behind (self.old.bsize / self.old.psize)
            (levels (self.old.bsize / self.old.psize) self.old.count)
            self.old.count kept fresh.now) }
        ensures counts { OnUnits (seen W.World world.old) (seen W.World world.new) result }
    {
        let child = Child {
            block: leaf,
            mark: *mark,
            nth: self.added,
            count: self.leaves,
        };
        self.added += 1;
        rise(
            world,
            unit,
            self.bsize,
            self.psize,
            &mut self.levels,
            &child,
            fresh,
        )
    }
}

// Open pointer blocks of so many levels, all without pointers.
fn clear_levels(alloc: Global, height: u8, bsize: BlockSize) -> Result<Vec<Level>, AllocError>
    ensures count { IfOk result (λ levels. length levels.items ≡ height) }
    ensures clear { IfOk result (λ levels. All (IsClear bsize) levels.items) }
{
    let mut levels = Vec::with_capacity(alloc, usize::from(height))?;
    for _ in 0..height {
        levels.push(Level {
            bytes: vec![in alloc; 0; bsize.bytes() as usize]?,
            place: None,
        })?;
    }
    Ok(levels)
}

// The root of a tree: its last pointer block, or its one data block.
fn root_of(pointers: &[u32], last: u32) -> u32
    ensures { result ≡ root_of (last ∷ []) pointers.now }
{
    if pointers.is_empty() {
        last
    } else {
        pointers[pointers.len() - 1]
    }
}

// The levels of a tree that stands on the unit from one on, of which some blocks are kept.
#[derive(Clone, Copy)]
struct Before<'a> {
    // its pointer blocks, level by level
    pointers: &'a [u32],
    // how many levels it has of these
    levels: u8,
    // the blocks of the level below
    count: u32,
    // how many of these are kept, and whether a part of the next is
    kept: u32,
    partly: bool,
    // its root, and the `last` of the root's mark
    root: u32,
    last: u32,
}

impl<'a> Before<'a> {
    // Whether a part is kept of the pointer block over the first block that isn't.
    fn partly_above(&self, fan: u32) -> bool
        requires { 1 ≤ fan }
        ensures { result ≡ partly_above fan self.now.kept self.now.partly }
    {
        self.partly || self.kept % fan > 0
    }

    // The pointer blocks of the next level, none where the tree has no more.
    fn next_blocks(&self, fan: u32) -> u32
        requires { 1 ≤ fan }
        ensures some { 1 ≤ self.now.levels → result ≡ up self.now.count fan }
        ensures none { self.now.levels ≡ 0 → result ≡ 0 }
    {
        if self.levels == 0 {
            0
        } else {
            self.count.div_ceil(fan)
        }
    }

    // The levels above the next.
    fn above(&self, fan: u32) -> Before<'a>
        requires wide { 1 ≤ fan }
        requires pointers { over_count fan self.now.levels self.now.count
            ≤ length self.now.pointers.now }
        ensures pointers { 1 ≤ self.now.levels
            → result.pointers.now ≡ drop (up self.now.count fan) self.now.pointers.now }
        ensures few { self.now.levels ≡ 0 → result.pointers.now ≡ self.now.pointers.now }
        ensures levels { result.levels ≡ self.now.levels - 1 }
        ensures count { result.count ≡ up self.now.count fan }
        ensures kept { result.kept ≡ self.now.kept / fan }
        ensures partly { result.partly ≡ partly_above fan self.now.kept self.now.partly }
        ensures root { (result.root ≡ self.now.root) × (result.last ≡ self.now.last) }
    {
        let (_, pointers) = self.pointers.split_at(self.next_blocks(fan) as usize);
        Before {
            pointers,
            levels: self.levels.saturating_sub(1),
            count: self.count.div_ceil(fan),
            kept: self.kept / fan,
            partly: self.partly_above(fan),
            root: self.root,
            last: self.last,
        }
    }
}

// The `place` in a pointer block's pointer, 0 where pointers have none.
fn place_in(bytes: &[u8], psize: u8, nth: u32) -> u32
    requires { nth * psize + psize ≤ length bytes.now }
    ensures { result ≡ place_in psize bytes.now nth }
{
    if psize == 12 {
        word_at(bytes, nth as usize * 12 + 8)
    } else {
        0
    }
}

// Leaves so many bytes, and zeros behind them.
fn clear_behind(bytes: &mut [u8], len: usize)
    requires { len ≤ length bytes.old }
    ensures { bytes.new ≡ take len bytes.old ++ replicate (length bytes.old - len) 0 }
{
    bytes[len..].fill(0);
}

// Reads a pointer block, of which it leaves the first so many pointers, and tells the `place` in the next.
fn read_front<W: World>(
    world: &mut W,
    unit: u8,
    block: u32,
    psize: u8,
    at: u32,
    bytes: &mut [u8],
) -> Result<u32, Failed>
    requires room { at * psize + psize ≤ length bytes.old }
    requires blocks { ForSome (W.told world.old)
        (λ j. HasBlock j.units unit block (length bytes.old)) }
    ensures reads { IfOk result (ReadsFront (W.told world.old) unit block psize at bytes.new) }
    ensures told { W.told world.new ≡ W.told world.old }
    ensures counts { OnUnits (seen W.World world.old) (seen W.World world.new) result }
{
    world.read_block(unit, block, bytes)?;
    let place = place_in(bytes, psize, at);
    clear_behind(bytes, at as usize * usize::from(psize));
    Ok(place)
}

// Lets the open pointer block of a level begin with what is kept of the one on the unit. Its own `place` there is given; that of
// the block below of which a part is kept is told.
fn resume_level<W: World>(
    world: &mut W,
    unit: u8,
    bsize: BlockSize,
    psize: u8,
    level: &mut Level,
    before: &Before,
    own: u32,
) -> Result<u32, Failed>
    requires size { IsBlockSize bsize }
    requires psize { (psize ≡ 4) ⊎ (psize ≡ 12) }
    requires clear { IsClear bsize level.old }
    requires pointers { over_count (bsize / psize) before.now.levels before.now.count
        ≤ length before.now.pointers.now }
    requires kept { before.now.kept ≤ before.now.count }
    requires partly { before.now.partly ≡ true → before.now.kept < before.now.count }
    requires low { before.now.levels ≡ 0 → before.now.kept ≤ 1 }
    requires blocks { ForSome (W.told world.old)
        (λ j. HasEach j.units unit bsize before.now.pointers.now) }
    ensures resumes { IfOk result (λ place. (size leaves : ℕ) → 1 ≤ size
        → before.now.count ≡ up leaves size
        → ResumesOne (W.told world.old) unit bsize psize
        (levels_of (bsize / psize) size leaves before.now.levels before.now.pointers.now) before.now
        own level.new place) }
    ensures told { W.told world.new ≡ W.told world.old }
    ensures counts { OnUnits (seen W.World world.old) (seen W.World world.new) result }
{
    let fan = bsize.bytes() / u32::from(psize);
    if !before.partly_above(fan) {
        return Ok(0);
    }
    level.place = Some(own);
    if before.levels == 0 {
        level.point_root(psize, before);
        return Ok(0);
    }
    let block = before.pointers[(before.kept / fan) as usize];
    let at = before.kept % fan;
    read_front(world, unit, block, psize, at, &mut level.bytes)
}

// The same on each level, bottom level first.
fn resume_levels<W: World>(
    world: &mut W,
    unit: u8,
    bsize: BlockSize,
    psize: u8,
    levels: &mut [Level],
    before: &Before,
) -> Result<u32, Failed>
    requires size { IsBlockSize bsize }
    requires psize { (psize ≡ 4) ⊎ (psize ≡ 12) }
    requires clear { All (IsClear bsize) levels.old }
    requires fewer { before.now.levels ≤ length levels.old }
    requires pointers { over_count (bsize / psize) before.now.levels before.now.count
        ≤ length before.now.pointers.now }
    requires kept { before.now.kept ≤ before.now.count }
    requires partly { before.now.partly ≡ true → before.now.kept < before.now.count }
    requires low { before.now.kept ≤ (bsize / psize) ^ before.now.levels }
    requires blocks { ForSome (W.told world.old)
        (λ j. HasEach j.units unit bsize before.now.pointers.now) }
    ensures resumes { IfOk result (λ place. (size leaves : ℕ) → 1 ≤ size
        → before.now.count ≡ up leaves size
        → ResumesAll (W.told world.old) unit bsize psize
        (levels_of (bsize / psize) size leaves before.now.levels before.now.pointers.now) before.now
        levels.new place) }
    ensures told { W.told world.new ≡ W.told world.old }
    ensures counts { OnUnits (seen W.World world.old) (seen W.World world.new) result }
{
    let Some((level, above)) = levels.split_first_mut() else {
        return Ok(0);
    };
    let fan = bsize.bytes() / u32::from(psize);
    let own = resume_levels(world, unit, bsize, psize, above, &before.above(fan))?;
    resume_level(world, unit, bsize, psize, level, before, own)
}

// Whether a block of a level, by its place, is the last that its pointer block points to.
fn ends_group(fan: u32, count: u32, nth: u32) -> bool
    requires wide { 1 ≤ fan }
    requires within { nth < count }
    ensures { result ≡ ends_group fan count nth }
{
    if nth + 1 == count {
        true
    } else {
        (nth + 1) % fan == 0
    }
}

impl Level {
    // Points to a block at its place in the pointer block, and tells the `place` of the first data
    // block below that.
    fn point(&mut self, psize: u8, fan: u32, child: &Child) -> u32
        requires psize { (psize ≡ 4) ⊎ (psize ≡ 12) }
        requires some { 1 ≤ fan }
        requires room { fan * psize ≤ length self.old.bytes.items }
        requires short { length self.old.bytes.items < 2 ^ 32 }
        ensures bytes { self.new.bytes.items ≡ overwritten (child.now.nth % fan * psize)
            (cell_bytes (cell_of psize (record { block = child.now.block; mark = child.now.mark })))
            self.old.bytes.items }
        ensures size { length self.new.bytes.items ≡ length self.old.bytes.items }
        ensures place { result ≡ unwrap_or self.old.place child.now.mark.place }
        ensures known { self.new.place ≡ Some result }
    {
        let place = self.place.unwrap_or(child.mark.place);
        self.place = Some(place);
        let at = child.nth % fan;
        put_cell(
            &mut self.bytes,
            at as usize * usize::from(psize),
            psize,
            child.block,
            &child.mark,
        );
        place
    }

    // Points to the root of a tree, where that is kept.
    fn point_root(&mut self, psize: u8, before: &Before)
        requires psize { (psize ≡ 4) ⊎ (psize ≡ 12) }
        requires room { psize ≤ length self.old.bytes.items }
        ensures some { 1 ≤ before.now.kept → self.new.bytes.items ≡ overwritten 0
            (cell_bytes (cell_of psize (root_before before.now))) self.old.bytes.items }
        ensures none { before.now.kept ≡ 0 → self.new.bytes.items ≡ self.old.bytes.items }
        ensures place { self.new.place ≡ self.old.place }
    {
        if before.kept > 0 {
            let mark = Mark {
                last: before.last,
                place: 0,
            };
            put_cell(&mut self.bytes, 0, psize, before.root, &mark);
        }
    }

    // Begins the next pointer block.
    fn clear(&mut self)
        ensures bytes { self.new.bytes.items ≡ replicate (length self.old.bytes.items) 0 }
        ensures place { self.new.place ≡ None }
    {
        self.bytes.fill(0);
        self.place = None;
    }
}

// Points to a block of a level in the pointer block above it. Where that one is complete then, it is written, and it is the block of
// its own level that is answered.
fn lift<W: World>(
    world: &mut W,
    unit: u8,
    bsize: BlockSize,
    psize: u8,
    level: &mut Level,
    child: &Child,
    fresh: &[u32],
) -> Result<Option<Child>, Failed>
    requires size { IsBlockSize bsize }
    requires psize { (psize ≡ 4) ⊎ (psize ≡ 12) }
    requires level { HasSize bsize level.old }
    requires within { child.now.nth < child.now.count }
    requires fresh { up child.now.count (bsize / psize) ≤ length fresh.now }
    requires blocks { ForSome (W.told world.old) (λ j. HasEach j.units unit bsize fresh.now) }
    requires writable { ForSome (W.told world.old) (λ j. IsWritable j.units unit) }
    ensures lifts { (leaves : List ℕ) (marks : List Mark) (numbers : List ℕ) (node : ℕ → List ℕ)
        (tier : Tier) (es : List Kept) (levels : ℕ)
        → fresh.now ≡ drop tier.first numbers
        → IsTier bsize psize leaves marks numbers node tier es (suc levels)
        → IsOpen bsize psize marks (length leaves) tier (kept_here es) child.now.nth level.old
        → IsChild psize marks (length leaves) tier child.now
        → Lifts (W.told world.old) (W.told world.new) unit bsize psize leaves marks numbers node
        tier (kept_here es) child.now level.new result }
    ensures parent { IfOk result (λ parent. IfSome parent (IsParent (bsize / psize) child.now)) }
    ensures size { HasSize bsize level.new }
    ensures own { (kept : ℕ) → kept ≤ child.now.nth
        → AddsOwn (W.told world.old) (W.told world.new) unit bsize
        (drop (kept / (bsize / psize)) (take (up child.now.count (bsize / psize)) fresh.now)) }
    ensures counts { OnUnits (seen W.World world.old) (seen W.World world.new) result }
{
    let fan = bsize.bytes() / u32::from(psize);
    let place = level.point(psize, fan, child);
    if !ends_group(fan, child.count, child.nth) {
        return Ok(None);
    }
    let nth = child.nth / fan;
    let block = fresh[nth as usize];
    world.write_block(unit, block, &level.bytes)?;
    level.clear();
    Ok(Some(Child {
        block,
        mark: Mark {
            last: child.mark.last,
            place,
        },
        nth,
        count: child.count.div_ceil(fan),
    }))
}

// Points to a block of a level in the pointer block above it, and so on upward as long as these are complete then.
fn rise<W: World>(
    world: &mut W,
    unit: u8,
    bsize: BlockSize,
    psize: u8,
    levels: &mut [Level],
    child: &Child,
    fresh: &[u32],
) -> Result<(), Failed>
    requires size { IsBlockSize bsize }
    requires psize { (psize ≡ 4) ⊎ (psize ≡ 12) }
    requires levels { All (HasSize bsize) levels.old }
    requires within { child.now.nth < child.now.count }
    requires fresh { over_count (bsize / psize) (length levels.old) child.now.count
        ≤ length fresh.now }
    requires blocks { ForSome (W.told world.old) (λ j. HasEach j.units unit bsize fresh.now) }
    requires writable { ForSome (W.told world.old) (λ j. IsWritable j.units unit) }
    ensures rises { (leaves : List ℕ) (marks : List Mark) (numbers : List ℕ) (node : ℕ → List ℕ)
        (tier : Tier) (es : List Kept) → fresh.now ≡ drop tier.first numbers
        → IsTier bsize psize leaves marks numbers node tier es (length levels.old)
        → Stand bsize psize marks (length leaves) numbers tier es child.now.nth levels.old
        → IsChild psize marks (length leaves) tier child.now
        → Rises (W.told world.old) (W.told world.new) unit bsize psize leaves marks numbers node
        tier es child.now levels.old levels.new result }
    ensures sizes { All (HasSize bsize) levels.new }
    ensures own { (kept : ℕ) → kept ≤ child.now.nth
        → AddsOwn (W.told world.old) (W.told world.new) unit bsize
        (numbers_behind (bsize / psize) (length levels.old) child.now.count kept fresh.now) }
    ensures counts { OnUnits (seen W.World world.old) (seen W.World world.new) result }
{
    let Some((level, above)) = levels.split_first_mut() else {
        return Ok(());
    };
    match lift(world, unit, bsize, psize, level, child, fresh)? {
        Some(parent) => {
            let higher = &fresh[parent.count as usize..];
            rise(world, unit, bsize, psize, above, &parent, higher)
        }
        None => Ok(()),
    }
}

/// With all its leaves a climb has written each pointer block once, and an image in which these were put has them all.
pub fn climb_laws()
    ensures { ClimbsAll }
{}
