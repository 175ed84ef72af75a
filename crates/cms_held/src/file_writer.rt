// A file of which records are put one after another.
ghost use Rattle.std.specs.Prelude.{◌≡◌, ℕ, List, ◌+◌, ◌<◌, ◌≤◌, ◌++◌, ◌∷◌, [], length, IfOk, OnOk};
ghost use Rattle.std.specs.List.{concat};
ghost use Rattle.std.specs.Option.{ForSome};
ghost use Rattle.cms_world.specs.Seen.{OnUnits, seen};
ghost use Rattle.cms_fields.specs.Entries.{fan_of, pointer_size};
ghost use Rattle.cms_fields.specs.Limits.{most_bytes, most_records};
ghost use Rattle.cms_fields.specs.Numbers.{up};
ghost use Rattle.cms_names.specs.declared.name.Format.TheVariants.{F};
ghost use Rattle.cms_model.specs.Records.{Fits, stored};
ghost use Rattle.cms_model.specs.Sizes.{pointer_count};
ghost use Rattle.cms_held.specs.Drafts.{Front, stored_on};
ghost use Rattle.cms_held.specs.BegunFiles.{IsBegun, IsContinued, bytes_before};
ghost use Rattle.cms_held.specs.BlockWriters.{AddsOwnBlocks, CanWrite, Finishes, IsSame, came};
ghost use Rattle.cms_held.specs.FileWriters.{Drafts, IsDrafting, IsFresh, Puts, PutsRun, marks_in, start_in};

use crate::begun::Begun;
use crate::block_writer::{BlockWriter, NOWHERE};
use crate::shape::DraftShape;
use crate::tree::HeldTree;
use byteorder::{BigEndian, ByteOrder};
use cms_fields::pointer_size;
use cms_journal::BlockSize;
use cms_names::Format;
use cms_world::{Failed, World};
use std::alloc::{AllocError, Global};
use std::marker::Model;

/// A file of which records are put one after another, each data block written as soon as it is whole. It holds the numbers of its blocks,
/// one data block, and a pointer block for each level.
#[derive(Drop)]
pub struct FileWriter {
    shape: DraftShape,
    // the records that were put
    put: u32,
    writer: BlockWriter,
}

impl Model for FileWriter {
    ghost use Rattle.cms_held.specs.FileWriters as writers;
    ghost use Rattle.cms_held.specs.FileWriters.{IsDrafting};

    ghost Value = { writers.FileWriter };

    ghost view = { λ d. record { shape = d.shape; put = d.put; writer = d.writer } };

    ghost invariant = { λ d. IsDrafting (record { shape = d.shape; put = d.put; writer = d.writer }) };
}

impl FileWriter {
    /// A file of which no record is put yet, on a unit with blocks of `bsize` bytes, in these blocks: the data
    /// blocks for its bytes, and the pointer blocks over them. It takes all the memory that writing the file needs.
    pub fn new(
        alloc: Global,
        unit: u8,
        bsize: BlockSize,
        shape: &DraftShape,
        tree: HeldTree,
    ) -> Result<FileWriter, AllocError>
        requires some { 1 ≤ shape.now.bytes }
        requires bytes { shape.now.bytes ≤ most_bytes }
        requires records { shape.now.count ≤ most_records }
        requires leaves { length tree.leaves ≡ up shape.now.bytes bsize }
        requires pointers { length tree.pointers
            ≡ pointer_count (fan_of bsize shape.now.format) (length tree.leaves) }
        ensures { IfOk result (IsFresh unit bsize shape.now tree) }
    {
        let writer = BlockWriter::new(
            alloc,
            unit,
            bsize,
            pointer_size(shape.format),
            shape.bytes as u32,
            tree,
        )?;
        Ok(FileWriter {
            shape: *shape,
            put: 0,
            writer,
        })
    }

    /// A file of which the first `put` records stand already, on a unit with blocks of `bsize` bytes: the first data blocks of its tree are
    /// those that stand. It takes no memory.
    pub fn resume(
        unit: u8,
        bsize: BlockSize,
        shape: &DraftShape,
        put: u32,
        tree: HeldTree,
        begun: Begun,
    ) -> FileWriter
        requires some { 1 ≤ shape.now.bytes }
        requires bytes { shape.now.bytes ≤ most_bytes }
        requires records { shape.now.count ≤ most_records }
        requires put { put ≤ shape.now.count }
        requires leaves { length tree.leaves ≡ up shape.now.bytes bsize }
        requires pointers { length tree.pointers
            ≡ pointer_count (fan_of bsize shape.now.format) (length tree.leaves) }
        requires begun { IsBegun bsize (pointer_size shape.now.format) tree begun }
        requires within { bytes_before bsize begun ≤ shape.now.bytes }
        requires mark { begun.mark.last ≤ put }
        ensures continued { IsContinued unit bsize put shape.now tree begun result }
        ensures kept { IsDrafting result }
    {
        let Begun {
            climb,
            kept,
            block,
            filled,
            mark,
        } = begun;
        let writer = BlockWriter {
            unit,
            bsize,
            psize: pointer_size(shape.format),
            tree,
            size: shape.bytes as u32,
            climb,
            kept,
            block,
            filled,
            whole: kept,
            mark,
        };
        FileWriter {
            shape: *shape,
            put,
            writer,
        }
    }

    /// What the file is to be.
    pub fn shape(&self) -> &DraftShape
        ensures shape { result.now ≡ self.now.shape }
        ensures kept { IsDrafting self.now }
    {
        &self.shape
    }

    /// How many records are still to be put.
    pub fn records_left(&self) -> u32
        ensures { self.now.put + result ≡ self.now.shape.count }
    {
        self.shape.count - self.put
    }

    /// How many bytes are still to be stored: at V with the two of each record's length.
    pub fn bytes_left(&self) -> u32
        ensures { came self.now.writer + result ≡ self.now.writer.size }
    {
        self.writer.size - self.writer.came()
    }

    /// Where the first record begins in the data block that the records so far fill in part: 4,294,967,295 where none does, where they fill
    /// whole blocks, and at F.
    pub fn start(&self) -> u32
        ensures { result ≡ start_in self.now }
    {
        match self.shape.format {
            Format::F => NOWHERE,
            Format::V => self.writer.mark.place,
        }
    }

    /// Puts the next record: writes each data block that is whole with it, and the pointer blocks that are complete with that.
    ///
    /// It takes no memory. `Failed` where the device did; the file is of no more use then.
    pub fn put<W: World>(&mut self, world: &mut W, text: &[u8]) -> Result<(), Failed>
        requires fewer { self.old.put < self.old.shape.count }
        requires fits { Fits self.old.shape.format self.old.shape.length text.now }
        requires room { came self.old.writer + length (stored self.old.shape.format (text.now ∷ []))
            ≤ self.old.writer.size }
        requires ready { ForSome (W.told world.old) (λ j. CanWrite j.units self.old.writer) }
        ensures puts { (front : Front) (records more : List (List ℕ))
            → Drafts self.old front records (text.now ∷ more)
            → Puts (W.told world.old)
            (W.told world.new) self.old self.new front records text.now more result }
        ensures all { OnOk result (came self.new.writer
            ≡ came self.old.writer + length (stored self.old.shape.format (text.now ∷ []))) }
        ensures same { IsSame self.old.writer self.new.writer }
        ensures shape { self.new ≡ record self.old {
          put = self.old.put + 1;
          writer = self.new.writer;
        } }
        ensures own { AddsOwnBlocks (W.told world.old) (W.told world.new) self.old.writer }
        ensures kept { IsDrafting self.old }
        ensures is { IsDrafting self.new }
        ensures still { ForSome (W.told world.new) (λ j. CanWrite j.units self.new.writer) }
        ensures counts { OnUnits (seen W.World world.old) (seen W.World world.new) result }
    {
        self.put += 1;
        match self.shape.format {
            Format::F => self.writer.append(world, text),
            Format::V => {
                self.writer.begin();
                let mut size = [0; 2];
                BigEndian::write_u16(&mut size, text.len() as u16);
                match self.writer.append(world, &size) {
                    Ok(()) => self.writer.append(world, text),
                    Err(Failed) => Err(Failed),
                }
            }
        }
    }

    /// Puts records that come next, at F, where all have one length: their bytes in a row. It writes each data block that is whole with
    /// them, and the pointer blocks that are complete with that.
    ///
    /// It takes no memory. `Failed` where the device did; the file is of no more use then.
    pub fn put_run<W: World>(
        &mut self,
        world: &mut W,
        bytes: &[u8],
        count: u32,
    ) -> Result<(), Failed>
        requires fixed { self.old.shape.format ≡ F }
        requires fewer { self.old.put + count ≤ self.old.shape.count }
        requires room { came self.old.writer + length bytes.now ≤ self.old.writer.size }
        requires ready { ForSome (W.told world.old) (λ j. CanWrite j.units self.old.writer) }
        ensures puts { (front : Front) (records run more : List (List ℕ)) → length run ≡ count
            → bytes.now ≡ concat run → Drafts self.old front records (run ++ more)
            → PutsRun (W.told world.old)
            (W.told world.new) self.old self.new front records run more result }
        ensures all { OnOk result (came self.new.writer
            ≡ came self.old.writer + length bytes.now) }
        ensures same { IsSame self.old.writer self.new.writer }
        ensures shape { self.new ≡ record self.old {
          put = self.old.put + count;
          writer = self.new.writer;
        } }
        ensures own { AddsOwnBlocks (W.told world.old) (W.told world.new) self.old.writer }
        ensures kept { IsDrafting self.old }
        ensures is { IsDrafting self.new }
        ensures still { ForSome (W.told world.new) (λ j. CanWrite j.units self.new.writer) }
        ensures counts { OnUnits (seen W.World world.old) (seen W.World world.new) result }
    {
        self.put += count;
        self.writer.append(world, bytes)
    }

    /// Writes what is left behind the last record: the last data block, with zeros behind its bytes, and the pointer blocks that are
    /// complete with it.
    ///
    /// It takes no memory. `Failed` where the device did.
    pub fn finish<W: World>(self, world: &mut W) -> Result<HeldTree, Failed>
        requires records { self.put ≡ self.shape.count }
        requires bytes { came self.writer ≡ self.writer.size }
        requires ready { ForSome (W.told world.old) (λ j. CanWrite j.units self.writer) }
        ensures finishes { (front : Front) (records : List (List ℕ)) → Drafts self front records []
            → Finishes (W.told world.old) (W.told world.new) self.writer front.nodes
            (stored_on self.shape.format front records) (marks_in self front records) result }
        ensures tree { IfOk result (λ tree. tree ≡ self.writer.tree) }
        ensures kept { IsDrafting self }
        ensures own { AddsOwnBlocks (W.told world.old) (W.told world.new) self.writer }
        ensures counts { OnUnits (seen W.World world.old) (seen W.World world.new) result }
    {
        let mut writer = self.writer;
        match writer.finish(world) {
            Ok(()) => Ok(writer.tree),
            Err(Failed) => Err(Failed),
        }
    }
}
