// The records of a file, one after another.
ghost use Rattle.std.specs.Prelude.{◌≡◌, ◌⊎◌, ◌≤◌, ◌<◌, ◌+◌, ◌-◌, ◌*◌, ◌++◌, ◌↔◌, ℕ, List, true, false, length, drop, IfOk, IfErr, OnOk, OnErr, IsTrue, IfSome, Ok, Err};
ghost use Rattle.std.specs.Option.{ForSome};
ghost use Rattle.cms_journal.specs.Journal.{HasBlocks, contents_of};
ghost use Rattle.cms_fields.specs.Limits.{most_bytes, longest_record};
ghost use Rattle.cms_names.specs.declared.name.Format.TheVariants.{F};
ghost use Rattle.cms_model.specs.Trees.{Image, image_of};
ghost use Rattle.cms_edf.specs.OpeningSteps.{OfImage};
ghost use Rattle.cms_disk.specs.Cursors.{AreAhead, AreOn, AreRun, IsFirst, HoldsLittle, HasLeft, HandsOut, Gives, SameFile, IsNeeded, IsShort, IsUnread, TextFits, Waits, WaitsFor, block_behind, text_of};
ghost use Rattle.cms_disk.specs.declared.fault.DiskFault.TheVariants.{Device, Altered, Memory};
ghost use Rattle.cms_world.specs.Seen.{OnlyReads, seen};

use crate::fault::DiskFault;
use cms_edf::FileInfo;
use cms_journal::BlockSize;
use cms_names::Format;
use cms_records::RecordState;
use cms_world::{Unit, World};
use std::alloc::Global;
use std::marker::Model;

/// A file that is read record by record. Besides the list of its data blocks it holds one block and one record, with the two bytes of its
/// length.
#[derive(Drop)]
pub struct Cursor {
    unit: Unit,
    bsize: BlockSize,
    leaves: Vec<u32>,
    done: usize,
    block: Vec<u8>,
    from: usize,
    over: usize,
    left: u32,
    longest: u32,
    begun: RecordState,
    altered: bool,
}

impl Model for Cursor {
    ghost use Rattle.cms_disk.specs.Cursors as cursors;

    ghost Value = { cursors.Cursor };

    ghost use Rattle.cms_disk.specs.CursorFields.{reading_of, AreSound};

    ghost view = { reading_of };

    ghost invariant = { AreSound };
}

impl Cursor {
    /// Before the first record of a file with these data blocks, of which this is told.
    pub(crate) fn new(
        alloc: Global,
        unit: Unit,
        bsize: BlockSize,
        info: &FileInfo,
        leaves: &[u32],
    ) -> Result<Cursor, DiskFault>
        requires leaves { AreOn unit.blocks leaves.now }
        requires few { length leaves.now * bsize ≤ most_bytes }
        requires short { info.now.length ≤ longest_record }
        requires fixed { info.now.format ≡ F → 1 ≤ info.now.length }
        ensures first { IfOk result (IsFirst unit.number unit.blocks bsize leaves.now
            info.now.format info.now.length info.now.count) }
        ensures fault { IfErr result (λ e. e ≡ Memory) }
    {
        let fixed = match info.format {
            Format::F => Some(info.length),
            Format::V => None,
        };
        let size = bsize.bytes() as usize;
        Ok(Cursor {
            unit,
            bsize,
            leaves: leaves.to_vec(alloc)?,
            done: 0,
            block: vec![in alloc; 0; size]?,
            from: size,
            over: 0,
            left: info.count,
            longest: info.length,
            begun: RecordState::new(alloc, fixed, info.length)?,
            altered: false,
        })
    }

    /// Reads the next record, and says whether there was one: none after the last. `Device` leaves the same records to read.
    /// `Altered` where the file's bytes aren't its records any more, which is never in a world that tells its journal and has left
    /// the file as it was; it comes again at each later call. No block is read sooner than a record needs it. It takes no memory.
    pub fn next<W: World>(&mut self, world: &mut W) -> Result<bool, DiskFault>
        requires blocks { ForSome (W.told world.old)
            (λ j. HasBlocks j.units self.old.unit self.old.total self.old.bsize) }
        ensures records { OfImage (W.told world.old) self.old.unit
            (λ image. (records : List (List ℕ)) → HasLeft image self.old records
            → HandsOut image self.new records result) }
        ensures some { IfOk result (λ more. IsTrue more ↔ (1 ≤ self.old.left)) }
        ensures whole { IfOk result (λ more. IsTrue more → self.new.begun.whole ≡ true) }
        ensures text { IfOk result (λ more. IsTrue more → TextFits self.new) }
        ensures left { IfOk result (λ more. IsTrue more → self.old.left ≡ self.new.left + 1) }
        ensures last { IfOk result (λ more. more ≡ false → self.new ≡ self.old) }
        ensures ended { self.old.left ≡ 0 → result ≡ Ok false }
        ensures needed { IfOk result (λ more. IsNeeded self.old self.new) }
        ensures waits { IfErr result (λ e. e ≡ Device → WaitsFor self.old self.new) }
        ensures fault { IfErr result (λ e. (e ≡ Device) ⊎ (e ≡ Altered)) }
        ensures marked { IfErr result (λ e. e ≡ Altered → self.new.altered ≡ true) }
        ensures again { self.old.altered ≡ true → 1 ≤ self.old.left → result ≡ Err Altered }
        ensures held { HoldsLittle self.new }
        ensures file { SameFile self.old self.new }
        ensures reads { OnlyReads (seen W.World world.old) (seen W.World world.new) Device result }
    {
        if self.left == 0 {
            return Ok(false);
        }
        while !self.take()? {
            self.read(world)?;
        }
        self.left -= 1;
        Ok(true)
    }

    /// Passes over so many records, at most those that are left, of a file of which nothing was read yet and whose records all have one
    /// length. No block is read: the next read begins with the block that has the first byte of the record behind them.
    pub fn skip(&mut self, count: u32)
        requires unread { IsUnread self.old }
        requires few { count ≤ self.old.left }
        ensures records { (image : Image) (records : List (List ℕ)) → HasLeft image self.old records
            → HasLeft image self.new (drop count records) }
        ensures left { self.new.left + count ≡ self.old.left }
        ensures block { self.new.done
            ≡ block_behind count self.old.begun.longest self.old.bsize (length self.old.leaves) }
        ensures held { HoldsLittle self.new }
        ensures file { SameFile self.old self.new }
    {
        let size = self.bsize.bytes() as usize;
        let place = count as usize * self.longest as usize;
        self.done = self.leaves.len().min(place / size);
        self.over = place % size;
        self.left -= count;
    }

    /// The record that `next` read, where it answered true.
    pub fn text(&self) -> &[u8]
        requires { self.now.begun.whole ≡ true }
        ensures { result.now ≡ text_of self.now }
    {
        self.begun.text()
    }

    /// How many records are left to hand out.
    pub fn left(&self) -> u32
        ensures { result ≡ self.now.left }
    {
        self.left
    }

    /// How many of the records that come next lie whole in the block that was read last, at most so many: none where not all have this
    /// length, or one of them is begun. Nothing is read.
    pub fn ahead(&self, size: u32, most: u32) -> u32
        ensures few { result ≤ most }
        ensures ahead { 1 ≤ result → AreAhead self.now size result }
        ensures all { (count : ℕ) → count ≤ most → AreAhead self.now size count
            → count ≤ result }
    {
        if !self.begun.is_between(size) {
            return 0;
        }
        let room = self.bsize.bytes() - self.from as u32;
        (room / size).min(self.left).min(most)
    }

    /// The bytes of so many records that `ahead` told of, in a row.
    pub fn run(&self, size: u32, count: u32) -> &[u8]
        requires { AreAhead self.now size count }
        ensures { (image : Image) (records : List (List ℕ)) → HasLeft image self.now records
            → AreRun size count records result.now }
    {
        let bytes = count as usize * size as usize;
        &self.block[self.from..self.from + bytes]
    }

    /// Passes over so many records that `ahead` told of.
    pub fn pass(&mut self, size: u32, count: u32)
        requires { AreAhead self.old size count }
        ensures records { (image : Image) (records : List (List ℕ)) → HasLeft image self.old records
            → HasLeft image self.new (drop count records) }
        ensures left { self.new.left + count ≡ self.old.left }
        ensures held { HoldsLittle self.new }
        ensures file { SameFile self.old self.new }
    {
        self.from += count as usize * size as usize;
        self.left -= count;
    }

    // Takes bytes of the block that was read last, until a record is whole or the block ends.
    fn take(&mut self) -> Result<bool, DiskFault>
        ensures gives { IfOk result (λ whole. (image : Image) (records : List (List ℕ))
            → 1 ≤ self.old.left → HasLeft image self.old records
            → Gives image self.new records whole) }
        ensures altered { OnErr result ((image : Image) (records : List (List ℕ))
            → 1 ≤ self.old.left
            → HasLeft image self.old records → ⊥) }
        ensures whole { IfOk result (λ whole. whole ≡ true → self.new.begun.whole ≡ true) }
        ensures text { IfOk result (λ whole. whole ≡ true → TextFits self.new) }
        ensures waits { IfOk result (λ whole. whole ≡ false → Waits self.new) }
        ensures some { OnOk result (IsShort self.old.begun → self.old.from < self.old.bsize
            → self.old.from < self.new.from) }
        ensures held { HoldsLittle self.new }
        ensures fault { IfErr result (λ e. e ≡ Altered) }
        ensures marked { OnErr result (self.new.altered ≡ true) }
        ensures again { self.old.altered ≡ true → result ≡ Err Altered }
        ensures sound { OnOk result (self.new.altered ≡ self.old.altered) }
        ensures same { self.new ≡ record self.old {
          begun = self.new.begun;
          from = self.new.from;
          altered = self.new.altered;
        } }
        ensures rules { (self.new.begun.fixed ≡ self.old.begun.fixed)
            × (self.new.begun.longest ≡ self.old.begun.longest) }
    {
        if self.altered {
            return Err(DiskFault::Altered);
        }
        match self.begun.feed(&self.block, self.from) {
            Ok(fed) => {
                self.from = fed.next;
                Ok(fed.whole)
            }
            Err(_) => {
                self.altered = true;
                Err(DiskFault::Altered)
            }
        }
    }

    // Reads the next block, where all bytes of the last were taken.
    fn read<W: World>(&mut self, world: &mut W) -> Result<(), DiskFault>
        requires blocks { ForSome (W.told world.old)
            (λ j. HasBlocks j.units self.old.unit self.old.total self.old.bsize) }
        requires waits { Waits self.old }
        ensures read { OnOk result (OfImage (W.told world.old) self.old.unit
            (λ image. (records : List (List ℕ))
            → HasLeft image self.old records → HasLeft image self.new records)) }
        ensures stays { IfErr result (λ e. e ≡ Device → (image : Image) (records : List (List ℕ))
            → HasLeft image self.old records
            → HasLeft image self.new records) }
        ensures altered { IfErr result (λ e. e ≡ Altered → (image : Image) (records : List (List ℕ))
            → 1 ≤ self.old.left
            → HasLeft image self.old records → ⊥) }
        ensures unread { IfErr result (λ e. e ≡ Device
            → self.new ≡ record self.old { block = self.new.block }) }
        ensures held { HoldsLittle self.new }
        ensures fault { IfErr result (λ e. (e ≡ Device) ⊎ (e ≡ Altered)) }
        ensures marked { IfErr result (λ e. e ≡ Altered → self.new.altered ≡ true) }
        ensures sound { OnOk result (self.new.altered ≡ self.old.altered) }
        ensures done { OnOk result ((self.new.done ≡ self.old.done + 1)
            × (self.old.done < length self.old.leaves)) }
        ensures from { OnOk result ((self.new.from ≡ self.old.over)
            × (self.new.from < self.new.bsize)) }
        ensures same { self.new ≡ record self.old {
          done = self.new.done;
          block = self.new.block;
          from = self.new.from;
          over = self.new.over;
          altered = self.new.altered;
        } }
        ensures reads { OnlyReads (seen W.World world.old) (seen W.World world.new) Device result }
    {
        if self.done == self.leaves.len() {
            self.altered = true;
            return Err(DiskFault::Altered);
        }
        let leaf = self.leaves[self.done];
        match world.read_block(self.unit.number, leaf, self.block.as_mut_slice()) {
            Ok(()) => {
                self.done += 1;
                self.from = self.over;
                self.over = 0;
                Ok(())
            }
            Err(_) => Err(DiskFault::Device),
        }
    }
}
