// Records of varying lengths, checked as their bytes come.
ghost use Rattle.std.specs.Prelude.{◌≡◌, ◌⊎◌, ℕ, List, Option, ◌+◌, ◌*◌, ◌≤◌, ◌<◌, ◌++◌, [], None, Some, true, false, length, drop, slice_index, IfOk, IfErr, IfNone, IfSome, OnOk, Ok, Err};
ghost use Rattle.cms_text.specs.Bytes.{half};
ghost use Rattle.cms_records.specs.Scans.{sizes_in, Holds, Passes, IsCut, IsFed};
ghost use Rattle.cms_fields.specs.Limits.{longest_record, most_bytes};
ghost use Rattle.cms_model.specs.Records.{varying};
ghost use Rattle.cms_records.specs.Scans.{filled_by};
ghost use Rattle.cms_records.specs.Starts.{begins, last_start, start_in, with_place};

use crate::VarFault;
use crate::sizes::VarSizes;
use cms_journal::BlockSize;
use std::marker::Model;

/// The place of a record in a data block in which none begins.
const NOWHERE: u32 = u32::MAX;

/// A check of records that each stand behind their length, whose bytes are given a piece at a time. It holds none of them but
/// the first byte of a length that a piece cut off.
#[derive(Drop)]
pub struct VarScan {
    bsize: BlockSize,
    left: u32,
    place: u32,
    size: Option<u32>,
    high: u8,
    fed: u32,
    longest: u32,
    first: Option<u32>,
}

impl Model for VarScan {
    ghost use Rattle.std.specs.Prelude.{◌≤◌, ◌<◌, ◌^◌, IfSome};
    ghost use Rattle.cms_fields.specs.Limits.{longest_record, most_bytes};
    ghost use Rattle.cms_records.specs.Scans as scans;

    ghost Value = { scans.VarScan };

    ghost view = { λ s. record {
      bsize = s.bsize;
      left = s.left;
      place = s.place;
      size = s.size;
      high = s.high;
      fed = s.fed;
      longest = s.longest;
      first = s.first;
    } };

    ghost invariant = { λ s. (s.place ≤ s.fed) × (s.fed ≤ most_bytes) × (s.longest ≤ longest_record)
        × IfSome s.size (λ n. n ≤ longest_record) };
}

impl VarScan {
    /// Before the first byte of `count` records in whole blocks of this size.
    pub fn new(count: u32, bsize: BlockSize) -> VarScan
        ensures fed { IsFed count [] result }
        ensures bsize { result.bsize ≡ bsize }
        ensures none { result.fed ≡ 0 }
    {
        VarScan {
            bsize,
            left: count,
            place: 0,
            size: None,
            high: 0,
            fed: 0,
            longest: 0,
            first: None,
        }
    }

    /// Takes the bytes that come next: at most 67,108,864 in all. A length of 0 is refused with its place, counted from the
    /// first byte of all, and the check isn't used again then.
    pub fn feed(&mut self, piece: &[u8]) -> Result<(), VarFault>
        requires { self.old.fed + length piece.now ≤ most_bytes }
        ensures fed { OnOk result ((count : ℕ) (bytes : List ℕ) → IsFed count bytes self.old
            → IsFed count (bytes ++ piece.now) self.new) }
        ensures fault { IfErr result (λ why. (count : ℕ) (bytes rest : List ℕ)
            → IsFed count bytes self.old
            → sizes_in self.old.bsize count ((bytes ++ piece.now) ++ rest) ≡ Err why) }
        ensures bsize { self.new.bsize ≡ self.old.bsize }
        ensures count { self.new.fed ≡ self.old.fed + length piece.now }
    {
        let start = self.fed;
        self.fed += piece.len() as u32;
        for _done in 0..self.left {
            if !self.pass(piece, start)? {
                break;
            }
        }
        self.keep(piece, start);
        Ok(())
    }

    /// What is told of the records, once all bytes came. `PastEnd` with the place of a record that passes the end, and `Left`
    /// with that behind the last record where a whole block or more remains.
    pub fn end(&self) -> Result<VarSizes, VarFault>
        ensures told { (count : ℕ) (bytes : List ℕ) → IsFed count bytes self.now
            → result ≡ sizes_in self.now.bsize count bytes }
        ensures longest { IfOk result (λ sizes. sizes.longest ≤ longest_record) }
        ensures stored { IfOk result (λ sizes. sizes.stored ≤ most_bytes) }
        ensures high { IfOk result (λ sizes. sizes.stored ≤ self.now.fed) }
        ensures low { IfOk result (λ sizes. self.now.fed < sizes.stored + self.now.bsize) }
    {
        if self.left > 0 {
            return Err(VarFault::PastEnd(self.place));
        }
        if self.fed - self.place >= self.bsize.bytes() {
            return Err(VarFault::Left(self.place));
        }
        Ok(VarSizes {
            longest: self.longest,
            stored: self.place,
        })
    }

    /// Once all bytes came of records that `end` tells of: the place within the last data block that they fill at which the first
    /// record in it begins, 4,294,967,295 where none does.
    pub fn last_start(&self) -> u32
        ensures { (count : ℕ) (bytes : List ℕ) (records : List (List ℕ))
            → IsFed count bytes self.now → varying self.now.bsize count 0 bytes ≡ Ok records
            → result ≡ last_start self.now.bsize (filled_by records) (begins 0 records) }
    {
        let bsize = self.bsize.bytes();
        start_in(bsize, self.place, self.first)
    }

    // The byte at a place: in this piece, which begins at `start`, or the one that was kept.
    fn byte_at(&self, piece: &[u8], start: u32, at: u32) -> u8
        requires { at < start + length piece.now }
        ensures kept { at < start → result ≡ self.now.high }
        ensures here { (d : ℕ) → at ≡ start + d → result ≡ slice_index piece.now d }
    {
        if at < start {
            self.high
        } else {
            piece[(at - start) as usize]
        }
    }

    // The length of the next record, where both bytes of it came.
    fn next_size(&self, piece: &[u8], start: u32) -> Option<u32>
        requires fed { start + length piece.now ≡ self.now.fed }
        ensures size { IfSome result
            (λ n. (count : ℕ) (bytes : List ℕ) → length bytes ≡ start
            → Holds count (bytes ++ piece.now) self.now
            → Passes bytes self.now
            → (self.now.place + 2 ≤ self.now.fed)
            × (half (drop self.now.place (bytes ++ piece.now)) 0 ≡ n)) }
        ensures small { IfSome result (λ n. n ≤ longest_record) }
        ensures known { IfSome result (λ n. (self.now.size ≡ None) ⊎ (self.now.size ≡ Some n)) }
        ensures none { result ≡ None → (self.now.size ≡ None)
            × (self.now.fed < self.now.place + 2) }
    {
        if let Some(size) = self.size {
            return Some(size);
        }
        if self.fed < self.place + 2 {
            return None;
        }
        let high = self.byte_at(piece, start, self.place);
        let low = self.byte_at(piece, start, self.place + 1);
        Some(u32::from(high) * 256 + u32::from(low))
    }

    // Passes the next record, where all of it came.
    fn pass(&mut self, piece: &[u8], start: u32) -> Result<bool, VarFault>
        requires some { 1 ≤ self.old.left }
        requires fed { start + length piece.now ≡ self.old.fed }
        ensures passed { IfOk result (λ more. more ≡ true → (count : ℕ) (bytes : List ℕ)
            → length bytes ≡ start
            → Holds count (bytes ++ piece.now) self.old → Passes bytes self.old
            → Holds count (bytes ++ piece.now) self.new × Passes bytes self.new) }
        ensures stays { IfOk result (λ more. more ≡ false → (count : ℕ) (bytes : List ℕ)
            → length bytes ≡ start
            → Holds count (bytes ++ piece.now) self.old → Passes bytes self.old
            → Holds count (bytes ++ piece.now) self.new × Passes bytes self.new
            × IsCut self.new.fed self.new.place self.new.size) }
        ensures fault { IfErr result (λ why. (count : ℕ) (bytes rest : List ℕ)
            → length bytes ≡ start
            → Holds count (bytes ++ piece.now) self.old → Passes bytes self.old
            → sizes_in self.old.bsize count ((bytes ++ piece.now) ++ rest) ≡ Err why) }
        ensures left { IfOk result (λ more. more ≡ true → self.new.left + 1 ≡ self.old.left) }
        ensures bsize { self.new.bsize ≡ self.old.bsize }
        ensures count { self.new.fed ≡ self.old.fed }
    {
        let Some(size) = self.next_size(piece, start) else {
            return Ok(false);
        };
        if size == 0 {
            return Err(VarFault::Zero(self.place));
        }
        if self.fed < self.place + 2 + size {
            self.size = Some(size);
            return Ok(false);
        }
        let bsize = self.bsize.bytes();
        let first = first_with(bsize, self.first, self.place);
        self.first = Some(first);
        self.place += 2 + size;
        self.longest = self.longest.max(size);
        self.left -= 1;
        self.size = None;
        Ok(true)
    }

    // Keeps the first byte of a length that this piece cuts off.
    fn keep(&mut self, piece: &[u8], start: u32)
        requires fed { start + length piece.now ≡ self.old.fed }
        ensures kept { (count : ℕ) (bytes : List ℕ) → length bytes ≡ start
            → Holds count (bytes ++ piece.now) self.old
            → (self.old.left ≡ 0)
            ⊎ (Passes bytes self.old × IsCut self.old.fed self.old.place self.old.size)
            → IsFed count (bytes ++ piece.now) self.new }
        ensures bsize { self.new.bsize ≡ self.old.bsize }
        ensures count { self.new.fed ≡ self.old.fed }
    {
        if self.place >= start && self.place + 1 == self.fed {
            self.high = piece[(self.place - start) as usize];
        }
    }
}

// Where the first record begins in the data block in which that at this place begins, by that of the record before.
fn first_with(bsize: u32, first: Option<u32>, place: u32) -> u32
    requires { 0 < bsize }
    ensures { result ≡ with_place bsize first place }
{
    match first {
        Some(first) if first / bsize == place / bsize => first,
        _ => place,
    }
}

// The place of that record within its data block, if this is the last of those that so many bytes fill.
fn start_in(bsize: u32, stored: u32, first: Option<u32>) -> u32
    requires { 0 < bsize }
    ensures { result ≡ start_in bsize stored first }
{
    match first {
        Some(first) if first / bsize == stored.saturating_sub(1) / bsize => first % bsize,
        _ => NOWHERE,
    }
}
