// Data blocks that are written one after another while their bytes come, and the pointer blocks over them.
ghost use Rattle.std.specs.Prelude.{◌≡◌, ◌⊎◌, ℕ, List, ◌+◌, ◌-◌, ◌*◌, ◌/◌, ◌<◌, ◌≤◌, min, take, replicate, length, IfOk, OnOk};
ghost use Rattle.std.specs.Option.{ForSome};
ghost use Rattle.cms_world.specs.Seen.{OnUnits, seen};
ghost use Rattle.cms_text.specs.Bytes.{overwritten};
ghost use Rattle.cms_fields.specs.Limits.{most_bytes, most_records};
ghost use Rattle.cms_fields.specs.Numbers.{up};
ghost use Rattle.cms_model.specs.Sizes.{pointer_count};
ghost use Rattle.cms_tree.specs.declared.types.Mark.{Mark};
ghost use Rattle.cms_tree.specs.Kept.{Kept};
ghost use Rattle.cms_held.specs.Drafts.{nowhere};
ghost use Rattle.cms_held.specs.BlockWriters.{AddsOwnBlocks, AreMarked, CanWrite, Finishes, IsDone, IsLater, IsNewWriter, IsSame, IsWriter, Streams, TakesBytes, WritesBlock, came, mark_on, with_start};

use crate::tree::HeldTree;
use cms_journal::BlockSize;
use cms_text::bytes::{after, put};
use cms_tree::{Climb, Mark};
use cms_world::{Failed, World};
use std::alloc::{AllocError, Global};

/// The place in the mark of a data block in which no record begins.
pub const NOWHERE: u32 = 0xFFFF_FFFF;

/// Data blocks of a unit, written one after another while their bytes come, each with the pointer blocks that are complete with it. One
/// data block is held, and a pointer block for each level.
#[derive(Drop)]
pub struct BlockWriter {
    pub unit: u8,
    pub bsize: BlockSize,
    pub psize: u8,
    /// the data blocks, and the pointer blocks from the bottom level on
    pub tree: HeldTree,
    /// the bytes that there are to be
    pub size: u32,
    pub climb: Climb,
    /// the data blocks that stand already, and are not written
    pub kept: u32,
    /// the bytes so far of the data block that comes next, and zeros
    pub block: Vec<u8>,
    pub filled: u32,
    /// the data blocks that stand already or are written
    pub whole: u32,
    /// the mark of the data block that comes next, so far
    pub mark: Mark,
}

impl BlockWriter {
    /// Blocks for so many bytes, at least one, of which none came yet.
    pub fn new(
        alloc: Global,
        unit: u8,
        bsize: BlockSize,
        psize: u8,
        size: u32,
        tree: HeldTree,
    ) -> Result<BlockWriter, AllocError>
        requires psize { (psize ≡ 4) ⊎ (psize ≡ 12) }
        requires some { 1 ≤ size }
        requires few { size ≤ most_bytes }
        requires leaves { length tree.leaves ≡ up size bsize }
        requires pointers { length tree.pointers
            ≡ pointer_count (bsize / psize) (length tree.leaves) }
        ensures { IfOk result (IsNewWriter unit bsize psize size tree) }
    {
        let climb = Climb::new(alloc, tree.leaves().len() as u32, bsize, psize)?;
        Ok(BlockWriter {
            unit,
            bsize,
            psize,
            tree,
            size,
            climb,
            kept: 0,
            block: vec![in alloc; 0; bsize.bytes() as usize]?,
            filled: 0,
            whole: 0,
            mark: Mark {
                last: 0,
                place: NOWHERE,
            },
        })
    }

    /// How many bytes came.
    pub fn came(&self) -> u32
        requires is { IsWriter self.now }
        requires within { came self.now ≤ self.now.size }
        ensures { result ≡ came self.now }
    {
        self.whole * self.bsize.bytes() + self.filled
    }

    // Takes as many of the bytes as there is room for in the block.
    fn fill(&mut self, bytes: &[u8]) -> usize
        requires block { length self.old.block.items ≡ self.old.bsize }
        requires within { self.old.filled ≤ self.old.bsize }
        ensures taken { result ≡ min (self.old.bsize - self.old.filled) (length bytes.now) }
        ensures more { self.new.filled ≡ self.old.filled + result }
        ensures block { self.new.block.items
            ≡ overwritten self.old.filled (take result bytes.now) self.old.block.items }
        ensures same { self.new ≡ record self.old {
          block = self.new.block;
          filled = self.new.filled;
        } }
    {
        let room = (self.bsize.bytes() - self.filled) as usize;
        let taken = room.min(bytes.len());
        put(&mut self.block, self.filled as usize, &bytes[..taken]);
        self.filled += taken as u32;
        taken
    }

    // Begins an empty data block, in which no record begins yet.
    fn clear(&mut self)
        ensures zeros { self.new.block.items ≡ replicate (length self.old.block.items) 0 }
        ensures same { self.new ≡ record self.old {
          block = self.new.block;
          mark = record { last = self.old.mark.last; place = nowhere };
        } }
    {
        self.block.fill(0);
        self.mark.place = NOWHERE;
    }

    // Writes the data block that is filled, and the pointer blocks that are complete with it, and begins the next one.
    fn flush<W: World>(&mut self, world: &mut W) -> Result<(), Failed>
        requires is { IsWriter self.old }
        requires fewer { self.old.whole < length self.old.tree.leaves }
        requires ready { ForSome (W.told world.old) (λ j. CanWrite j.units self.old) }
        ensures writes { (es : List Kept) (bytes : List ℕ) (marks : List Mark)
            → Streams self.old es bytes marks
            → IsDone self.old bytes marks
            → WritesBlock (W.told world.old)
            (W.told world.new) self.old self.new es bytes marks result }
        ensures is { IsWriter self.new }
        ensures same { IsSame self.old self.new }
        ensures whole { self.new.whole ≡ self.old.whole + 1 }
        ensures empty { self.new.filled ≡ 0 }
        ensures last { self.new.mark.last ≡ self.old.mark.last }
        ensures zeros { OnOk result (self.new.block.items ≡ replicate self.old.bsize 0) }
        ensures mark { OnOk result (self.new.mark
            ≡ record { last = self.old.mark.last; place = nowhere }) }
        ensures own { AddsOwnBlocks (W.told world.old) (W.told world.new) self.old }
        ensures still { ForSome (W.told world.new) (λ j. CanWrite j.units self.new) }
        ensures counts { OnUnits (seen W.World world.old) (seen W.World world.new) result }
    {
        let leaf = self.tree.leaves()[self.whole as usize];
        let mark = self.mark;
        self.whole += 1;
        self.filled = 0;
        match world.write_block(self.unit, leaf, &self.block) {
            Ok(()) => {}
            Err(Failed) => return Err(Failed),
        }
        self.clear();
        self.climb
            .add(world, self.unit, leaf, &mark, self.tree.pointers())
    }

    // Takes bytes up to the end of the data block, and writes that where it is whole.
    fn take<W: World>(&mut self, world: &mut W, bytes: &[u8]) -> Result<usize, Failed>
        requires is { IsWriter self.old }
        requires unfilled { self.old.filled < self.old.bsize }
        requires some { 1 ≤ length bytes.now }
        requires room { came self.old + length bytes.now ≤ self.old.size }
        requires ready { ForSome (W.told world.old) (λ j. CanWrite j.units self.old) }
        ensures taken { IfOk result (λ n. (1 ≤ n) × (n ≤ length bytes.now)
            × (came self.new ≡ came self.old + n)) }
        ensures writes { TakesBytes (W.told world.old)
            (W.told world.new) self.old self.new bytes.now result }
        ensures later { IsLater self.old self.new (came self.old + length bytes.now) }
        ensures mark { OnOk result (self.new.mark ≡ mark_on self.old self.new.whole) }
        ensures own { AddsOwnBlocks (W.told world.old) (W.told world.new) self.old }
        ensures still { ForSome (W.told world.new) (λ j. CanWrite j.units self.new) }
        ensures counts { OnUnits (seen W.World world.old) (seen W.World world.new) result }
    {
        let taken = self.fill(bytes);
        if self.filled < self.bsize.bytes() {
            return Ok(taken);
        }
        match self.flush(world) {
            Ok(()) => Ok(taken),
            Err(Failed) => Err(Failed),
        }
    }

    /// Writes bytes behind those that came: each data block that is whole with them, and the pointer blocks that are complete with it.
    ///
    /// It takes no memory. `Failed` where the device did; only some of the blocks were written then, and the writer is of no more use.
    pub fn append<W: World>(&mut self, world: &mut W, bytes: &[u8]) -> Result<(), Failed>
        requires is { IsWriter self.old }
        requires unfilled { self.old.filled < self.old.bsize }
        requires room { came self.old + length bytes.now ≤ self.old.size }
        requires ready { ForSome (W.told world.old) (λ j. CanWrite j.units self.old) }
        ensures writes { TakesBytes (W.told world.old)
            (W.told world.new) self.old self.new bytes.now result }
        ensures all { OnOk result (came self.new ≡ came self.old + length bytes.now) }
        ensures later { IsLater self.old self.new (came self.old + length bytes.now) }
        ensures mark { OnOk result (self.new.mark ≡ mark_on self.old self.new.whole) }
        ensures own { AddsOwnBlocks (W.told world.old) (W.told world.new) self.old }
        ensures still { ForSome (W.told world.new) (λ j. CanWrite j.units self.new) }
        ensures counts { OnUnits (seen W.World world.old) (seen W.World world.new) result }
    {
        let mut rest = bytes;
        'append: while !rest.is_empty() {
            match self.take(world, rest) {
                Ok(taken) => rest = after(rest, taken),
                Err(Failed) => return Err(Failed),
            }
        }
        Ok(())
    }

    /// A record begins with the next byte.
    pub fn begin(&mut self)
        requires { self.old.mark.last < most_records }
        ensures { self.new ≡ record self.old { mark = with_start self.old } }
    {
        self.mark.last += 1;
        if self.mark.place == NOWHERE {
            self.mark.place = self.filled;
        }
    }

    /// Writes the last data block, with zeros behind its bytes, and the pointer blocks that are left.
    ///
    /// It takes no memory. `Failed` where the device did; only some of these blocks were written then.
    pub fn finish<W: World>(&mut self, world: &mut W) -> Result<(), Failed>
        requires is { IsWriter self.old }
        requires unfilled { self.old.filled < self.old.bsize }
        requires all { came self.old ≡ self.old.size }
        requires ready { ForSome (W.told world.old) (λ j. CanWrite j.units self.old) }
        ensures writes { (es : List Kept) (bytes : List ℕ) (marks : List Mark)
            → Streams self.old es bytes marks
            → AreMarked self.old (length self.old.tree.leaves * self.old.bsize) marks
            → Finishes (W.told world.old) (W.told world.new) self.old es bytes marks result }
        ensures same { IsSame self.old self.new }
        ensures own { AddsOwnBlocks (W.told world.old) (W.told world.new) self.old }
        ensures still { ForSome (W.told world.new) (λ j. CanWrite j.units self.new) }
        ensures counts { OnUnits (seen W.World world.old) (seen W.World world.new) result }
    {
        if self.filled == 0 {
            return Ok(());
        }
        self.flush(world)
    }
}
