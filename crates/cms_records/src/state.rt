// One record after another, of bytes that come in pieces.
ghost use Rattle.std.specs.Prelude.{◌≡◌, ◌↔◌, ℕ, ◌+◌, ◌-◌, ◌≤◌, ◌++◌, [], Some, true, false, max, length, vec_capacity, take, drop, IfOk, IfErr, IfSome, IsTrue, OnErr, OnOk, Ok, Err};
ghost use Rattle.cms_text.specs.Bytes.{half};
ghost use Rattle.cms_fields.specs.Limits.{longest_record, most_bytes};
ghost use Rattle.cms_records.specs.Pieces.{Takes, record_size, bytes_so_far, next_place, text_in};

use crate::VarFault;
use cms_text::bytes::{after, half_at};
use std::alloc::{AllocError, Global};
use std::marker::Model;

// How many bytes tell the length of a record.
const HEAD: usize = 2;

/// What a piece gave.
#[derive(Clone, Copy, Debug)]
pub struct Fed {
    /// the place in the piece behind the bytes that were taken
    pub next: usize,
    /// the record is whole
    pub whole: bool,
}

/// A record that is read from pieces of a file's bytes. It has room for the longest record and two bytes more, for its length.
#[derive(Drop)]
pub struct RecordState {
    fixed: Option<u32>,
    longest: u32,
    place: u32,
    bytes: Vec<u8>,
    whole: bool,
}

impl Model for RecordState {
    ghost use Rattle.cms_records.specs.Pieces as spec;

    ghost Value = { spec.RecordState };

    ghost use Rattle.cms_records.specs.States.{AreSound};

    ghost view = { λ s. record { fixed = s.fixed; longest = s.longest; place = s.place; bytes = s.bytes.items; whole = s.whole } };

    ghost invariant = { AreSound };
}

impl RecordState {
    /// Before the first byte of records of at most `longest` bytes: all of `fixed` bytes, or each behind its own length. `longest` is
    /// at most 65,535, the greatest length that two bytes tell, which no file's record passes.
    pub fn new(alloc: Global, fixed: Option<u32>, longest: u32) -> Result<RecordState, AllocError>
        requires fixed { IfSome fixed (λ n. (1 ≤ n) × (n ≤ longest)) }
        requires longest { longest ≤ longest_record }
        ensures { IfOk result (λ s. s
            ≡ record { fixed = fixed; longest = longest; place = 0; bytes = []; whole = false }) }
    {
        let bytes = Vec::with_capacity(alloc, longest as usize + 2)?;
        Ok(RecordState {
            fixed,
            longest,
            place: 0,
            bytes,
            whole: false,
        })
    }

    /// Takes bytes of a piece from the place `from` on, until a record is whole or the piece ends: at most 67,108,864 in all. A
    /// record that is whole is followed by a new one. `Zero` where a length is 0, `PastEnd` where it is above the longest, with the
    /// place of the length's first byte among all bytes; nothing is taken then. It takes no memory.
    pub fn feed(&mut self, piece: &[u8], from: usize) -> Result<Fed, VarFault>
        requires from { from ≤ length piece.now }
        requires few { self.old.place + length self.old.bytes + length piece.now
            ≤ most_bytes + from }
        ensures taken { IfOk result (λ fed.
            Takes self.old self.new (drop from piece.now) (fed.next - from) fed.whole) }
        ensures next { IfOk result (λ fed. (from ≤ fed.next) × (fed.next ≤ length piece.now)) }
        ensures held { length self.new.bytes ≤ self.new.longest + 2 }
        ensures rules { (self.new.fixed ≡ self.old.fixed) × (self.new.longest ≡ self.old.longest) }
        ensures fault { IfErr result (λ why.
            record_size self.old.fixed self.old.longest (next_place self.old)
            (bytes_so_far self.old ++ drop from piece.now) ≡ Err why) }
        ensures refused { OnErr result (self.new ≡ self.old) }
    {
        let Some(size) = self.size_with(&piece[from..])? else {
            self.begin();
            let next = take(&mut self.bytes, piece, from, HEAD);
            return Ok(Fed { next, whole: false });
        };
        self.begin();
        let next = take(&mut self.bytes, piece, from, size as usize);
        self.whole = self.bytes.len() == size as usize;
        Ok(Fed {
            next,
            whole: self.whole,
        })
    }

    /// The record that the last `feed` made whole, without its length.
    pub fn text(&self) -> &[u8]
        requires { self.now.whole ≡ true }
        ensures { result.now ≡ text_in self.now.fixed self.now.bytes }
    {
        match self.fixed {
            Some(_) => &self.bytes,
            None => after(&self.bytes, 2),
        }
    }

    /// Whether all records have this length, and none of them is begun.
    pub fn is_between(&self, size: u32) -> bool
        ensures { IsTrue result ↔ ((self.now.fixed ≡ Some size) × (bytes_so_far self.now ≡ [])) }
    {
        match self.fixed {
            Some(fixed) => fixed == size && (self.whole || self.bytes.is_empty()),
            None => false,
        }
    }

    // How many bytes the record has that is read next, where more bytes come.
    fn size_with(&self, more: &[u8]) -> Result<Option<u32>, VarFault>
        ensures size { result ≡ record_size self.now.fixed self.now.longest (next_place self.now)
            (bytes_so_far self.now ++ more.now) }
        ensures held { length self.now.bytes ≤ self.now.longest + 2 }
    {
        if self.whole {
            let place = self.place + self.bytes.len() as u32;
            return size_of(self.fixed, self.longest, place, more);
        }
        joined_size(self.fixed, self.longest, self.place, &self.bytes, more)
    }

    // Behind a whole record a new one begins.
    fn begin(&mut self)
        ensures { self.new ≡ record {
          fixed = self.old.fixed;
          longest = self.old.longest;
          place = next_place self.old;
          bytes = bytes_so_far self.old;
          whole = false;
        } }
    {
        if self.whole {
            self.place += self.bytes.len() as u32;
            self.bytes.clear();
            self.whole = false;
        }
    }
}

// How many bytes a record has that begins these, with those of its length, where that is there.
fn size_of(
    fixed: Option<u32>,
    longest: u32,
    place: u32,
    bytes: &[u8],
) -> Result<Option<u32>, VarFault>
    requires { longest ≤ longest_record }
    ensures { result ≡ record_size fixed longest place bytes.now }
{
    if let Some(size) = fixed {
        return Ok(Some(size));
    }
    if bytes.len() < 2 {
        return Ok(None);
    }
    let size = u32::from(half_at(bytes, 0));
    if size < 1 {
        return Err(VarFault::Zero(place));
    }
    if size > longest {
        return Err(VarFault::PastEnd(place));
    }
    Ok(Some(2 + size))
}

// The same of bytes that came, with more behind them.
fn joined_size(
    fixed: Option<u32>,
    longest: u32,
    place: u32,
    came: &[u8],
    more: &[u8],
) -> Result<Option<u32>, VarFault>
    requires { longest ≤ longest_record }
    ensures { result ≡ record_size fixed longest place (came.now ++ more.now) }
{
    if came.is_empty() {
        return size_of(fixed, longest, place, more);
    }
    if came.len() == 1 && !more.is_empty() {
        return size_of(fixed, longest, place, &[came[0], more[0]]);
    }
    size_of(fixed, longest, place, came)
}

// Takes bytes of a piece until there are so many, or the piece ends; the place behind them. There is room for them.
fn take(bytes: &mut Vec<u8>, piece: &[u8], from: usize, until: usize) -> usize
    requires from { from ≤ length piece.now }
    requires room { until ≤ vec_capacity bytes.old }
    ensures bytes { bytes.new.items
        ≡ take (max until (length bytes.old.items)) (bytes.old.items ++ drop from piece.now) }
    ensures next { length bytes.old.items + (result - from) ≡ length bytes.new.items }
    ensures within { (from ≤ result) × (result ≤ length piece.now) }
    ensures capacity { vec_capacity bytes.old ≤ vec_capacity bytes.new }
{
    let end = piece.len().min(from + until.saturating_sub(bytes.len()));
    bytes.extend_from_slice(&piece[from..end]).unwrap();
    end
}
