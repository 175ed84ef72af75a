// A map of so many blocks, one bit a block, with the count of those that are free.
ghost use Rattle.std.specs.Prelude.{◌≡◌, ◌==◌, ◌&&◌, ℕ, ◌+◌, ◌-◌, ◌*◌, ◌^◌, ◌≤◌, ◌<◌, ◌++◌, ◌∷◌, true, false, length, take, drop, nat_le, if◌then◌else◌, IfOk, ◌/◌, ◌%◌, slice_index_or, slice_set, vec_len, vec_capacity};
ghost use Rattle.cms_model.specs.Maps.{is_marked};
ghost use Rattle.cms_map.specs.Bits.{HasFixed, bits_in, free_from, free_blocks, with_marked, number_of, byte_at, bytes_from};
ghost use Rattle.std.specs.Prelude.{All, map, min};
ghost use Rattle.std.specs.Option.{option_map_or};
ghost use Rattle.std.specs.Int.{div_ceil};
ghost use Rattle.cms_map.specs.Touched.{data_block, AppendsTouched, IsLowest};

use std::alloc::{AllocError, Global};
use std::marker::Model;

/// The blocks of a volume that are in use, seen as a list of bits: that of block 1 first, true where it is in use. It takes a bit of
/// memory a block. Up to the block `low` none is free, so the search for free blocks begins behind it.
#[derive(Clone, Drop)]
pub struct Map {
    bytes: Vec<u8>,
    blocks: u32,
    free: u32,
    low: u32,
}

impl Model for Map {
    ghost use Rattle.std.specs.Prelude.{List, Bool};
    ghost use Rattle.cms_map.specs.Bits.{bits_in, IsHeld, NoneIsFree};

    ghost Value = { List Bool };

    ghost view = { λ m. bits_in m.blocks m.bytes.items };

    ghost invariant = { λ m. IsHeld m.blocks m.free m.bytes.items
        × NoneIsFree m.low (bits_in m.blocks m.bytes.items) };
}

impl Map {
    /// The map of blocks 1 to `n` in these bytes: one bit a block, the high bit of a byte first, 1 where the block is in
    /// use. The bits of blocks 1 to 5 count as 1 whatever they are, and those behind block `n` are ignored.
    pub fn of_bytes(alloc: Global, bytes: &[u8], n: u32) -> Result<Map, AllocError>
        requires { n ≤ 8 * length bytes.now }
        ensures bits { IfOk result (λ m. m ≡ bits_in n bytes.now) }
        ensures count { IfOk result (λ m. length m ≡ n) }
    {
        let count = (n as usize).div_ceil(8);
        let mut held = Vec::with_capacity(alloc, count)?;
        let mut used = 0;
        for at in 0..count {
            let byte = byte_in(bytes, n, at);
            used += byte.count_ones();
            held.push(byte)?;
        }
        Ok(Map {
            bytes: held,
            blocks: n,
            free: n - used,
            low: 0,
        })
    }

    /// Whether the block, from 1 to the last, is in use.
    pub fn is_used(&self, block: u32) -> bool
        requires first { 1 ≤ block }
        requires last { block ≤ length self.now }
        ensures { result ≡ slice_index_or self.now (block - 1) false }
    {
        is_marked(&self.bytes, block)
    }

    /// How many blocks are free, of which blocks 1 to 5 never are.
    pub fn free_count(&self) -> u32
        ensures count { result ≡ length (free_blocks self.now) }
        ensures fixed { HasFixed self.now }
    {
        self.free
    }

    /// Appends the `n` lowest free blocks, in ascending order, and marks them. False, with nothing changed, where fewer
    /// are free. Takes no memory: the vector must have room for `n` more.
    pub fn take_lowest(&mut self, n: u32, into: &mut Vec<u32>) -> bool
        requires room { vec_len into.old + n ≤ vec_capacity into.old }
        ensures taken { result ≡ nat_le n (length (free_blocks self.old)) }
        ensures appended { into.new.items
            ≡ (if result then into.old.items ++ take n (free_blocks self.old) else into.old.items) }
        ensures marked { self.new ≡ (if result then with_marked
            (take n (free_blocks self.old)) self.old else self.old) }
        ensures count { length self.new ≡ length self.old }
        ensures len { vec_len into.new
            ≡ (if result then vec_len into.old + n else vec_len into.old) }
        ensures capacity { vec_capacity into.old ≤ vec_capacity into.new }
    {
        if n > self.free_count() {
            return false;
        }
        let mut block = self.low;
        for _taken in 0..n {
            block = self.next_free(block);
            self.mark(block);
            into.push(block).unwrap();
        }
        self.low = block;
        true
    }

    /// Makes the block, from 6 to the last, free. One that is free stays so.
    pub fn release(&mut self, block: u32)
        requires first { 6 ≤ block }
        requires last { block ≤ length self.old }
        ensures released { self.new ≡ slice_set self.old (block - 1) false }
        ensures count { length self.new ≡ length self.old }
    {
        if self.is_used(block) {
            self.bytes[place_of(block)] &= !bit_of(block);
            self.free += 1;
            self.low = self.low.min(block - 1);
        }
    }

    /// The map's bytes from that at the place `from` on, counted from 0; bits and bytes past the last block are zero.
    pub fn put_bytes(&self, from: u32, into: &mut [u8])
        ensures { into.new ≡ bytes_from from (length into.old) self.now }
    {
        for (place, byte) in into.iter_mut().enumerate() {
            *byte = self.byte(from as usize + place);
        }
    }

    /// Appends the numbers of the map's data blocks of `bsize` bytes in which the bits of these blocks stand, from 0: ascending and
    /// each once. Takes no memory: the vector must have room for as many as the map has data blocks.
    pub fn touched(&self, blocks: &[u32], bsize: u32, into: &mut Vec<u32>)
        requires size { 0 < bsize }
        requires blocks { All (λ n. (1 ≤ n) × (n ≤ length self.now)) blocks.now }
        requires room { vec_len into.old + div_ceil (length self.now) (8 * bsize)
            ≤ vec_capacity into.old }
        ensures touched { AppendsTouched bsize blocks.now into.old.items into.new.items }
        ensures capacity { vec_capacity into.old ≤ vec_capacity into.new }
    {
        let mut from = 0;
        while let Some(place) = next_touched(blocks, bsize, from) {
            into.push(place).unwrap();
            from = place + 1;
        }
    }

    // The lowest free block past this one. Bytes without a free block are passed whole.
    fn next_free(&self, block: u32) -> u32
        requires some { 0 < length (free_from (block + 1) (drop block self.now)) }
        ensures next { free_from (block + 1) (drop block self.now)
            ≡ result ∷ free_from (result + 1) (drop result self.now) }
        ensures later { block < result }
        ensures last { result ≤ length self.now }
        ensures free { slice_index_or self.now (result - 1) true ≡ false }
    {
        prove!(block < self.blocks);
        let mut next = block + 1;
        while self.is_used(next) {
            next += if self.fills_byte(next) { 8 } else { 1 };
        }
        next
    }

    // Marks the block, which is free.
    fn mark(&mut self, block: u32)
        requires first { 1 ≤ block }
        requires last { block ≤ length self.old }
        requires free { slice_index_or self.old (block - 1) true ≡ false }
        ensures { self.new ≡ slice_set self.old (block - 1) true }
    {
        self.bytes[place_of(block)] |= bit_of(block);
        self.free -= 1;
    }

    // Whether the block is the first of a byte in which all are in use.
    fn fills_byte(&self, block: u32) -> bool
        requires { 1 ≤ block }
        ensures { result ≡ ((block % 8 == 1) && (number_of 8 (drop (block - 1) self.now) == 255)) }
    {
        block % 8 == 1 && self.byte(place_of(block)) == u8::MAX
    }

    // The byte at a place, counted from 0.
    fn byte(&self, at: usize) -> u8
        ensures { result ≡ byte_at self.now at }
    {
        self.bytes.get(at).copied().unwrap_or(0)
    }
}

/// Whether the block's bit is 1 in the map of these bytes: one bit a block, block 1 first, the high bit of a byte first. A bit that
/// isn't there counts as 0.
#[tactic(auto, unfolding(cms_model::specs::Maps::is_marked))]
pub fn is_marked(bytes: &[u8], block: u32) -> bool
    ensures { result ≡ is_marked bytes.now block }
{
    let place = block.saturating_sub(1);
    let byte = bytes.get((place / 8) as usize).copied().unwrap_or(0);
    (byte >> (7 - place % 8)) % 2 == 1
}

// The byte at a place, counted from 0, of the map of blocks 1 to `n` in these bytes: blocks 1 to 5 are in use, and bits past the last
// block are 0.
fn byte_in(bytes: &[u8], n: u32, at: usize) -> u8
    requires within { 8 * at < n }
    requires room { n ≤ 8 * length bytes.now }
    ensures { result ≡ byte_at (bits_in n bytes.now) at }
{
    let byte = if at == 0 {
        0xF8 | bytes[at] % 8
    } else {
        bytes[at]
    };
    let past = 8usize.saturating_sub(n as usize - 8 * at);
    byte >> past << past
}

// The place of a block's byte, counted from 0.
fn place_of(block: u32) -> usize
    requires { 1 ≤ block }
    ensures { result ≡ (block - 1) / 8 }
{
    (block as usize - 1) / 8
}

// The block's bit in its byte.
fn bit_of(block: u32) -> u8
    requires { 1 ≤ block }
    ensures { result ≡ 2 ^ (7 - (block - 1) % 8) }
{
    1 << (7 - (block - 1) % 8)
}

// The lowest of the data blocks, from this one on, in which a bit of these blocks stands.
fn next_touched(blocks: &[u32], bsize: u32, from: u32) -> Option<u32>
    requires size { 0 < bsize }
    requires first { All (λ n. 1 ≤ n) blocks.now }
    ensures lowest { IsLowest from (map (data_block bsize) blocks.now) result }
{
    let mut lowest = None;
    for block in blocks {
        let place = (*block - 1) / 8 / bsize;
        if place >= from {
            lowest = Some(lower_of(lowest, place));
        }
    }
    lowest
}

// The lower of two places, of which the first may be lacking.
fn lower_of(lowest: Option<u32>, place: u32) -> u32
    ensures { result ≡ option_map_or (min place) lowest place }
{
    match lowest {
        Some(low) => place.min(low),
        None => place,
    }
}
