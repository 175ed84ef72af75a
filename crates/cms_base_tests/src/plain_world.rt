// A world for tests of lines and of trees.
ghost use Rattle.std.specs.Prelude.{None};

use cms_world::{Access, Failed, Unit, World};
use std::alloc::Global;

/// A world that tells nothing. Its script comes in pieces of one size, and no more of a line is taken at once; one of these calls may fail.
/// It keeps the numbers and the bytes of the blocks that are written, up to so many.
#[derive(Drop)]
pub struct PlainWorld<'a> {
    script: &'a [u8],
    size: usize,
    failing: usize,
    pub typed: Vec<u8>,
    pub calls: usize,
    pub reads_past_end: usize,
    edges: u64,
    most: usize,
    pub blocks: Vec<u32>,
    pub bytes: Vec<u8>,
    pub reads: usize,
    pub failures: u64,
}

impl World for PlainWorld<'_> {
    ghost faults = { λ w. w.failures };

    ghost edges = { λ w. w.edges };

    ghost told = { λ w. None };

    fn attach(&mut self, _name: &str, _bsize: u32, _access: Access) -> Result<Unit, Failed> {
        Ok(Unit {
            number: 0,
            blocks: 0,
        })
    }

    fn read_block(&mut self, _unit: u8, block: u32, into: &mut [u8]) -> Result<(), Failed> {
        self.reads = self.reads.saturating_add(1);
        match written_once(self, block) {
            Some(bytes) if bytes.len() == into.len() => into.copy_from_slice(bytes),
            _ => {}
        }
        Ok(())
    }

    fn write_block(&mut self, _unit: u8, block: u32, from: &[u8]) -> Result<(), Failed> {
        let fails = self.blocks.len() == self.most;
        if fails
            || self.blocks.push(block).is_err()
            || self.bytes.extend_from_slice(from).is_err()
        {
            self.failures = self.failures.saturating_add(1);
            return Err(Failed);
        }
        Ok(())
    }

    fn sync(&mut self, _unit: u8) -> Result<(), Failed> {
        Ok(())
    }

    fn read(&mut self, into: &mut [u8]) -> Result<usize, Failed> {
        self.calls = self.calls.wrapping_add(1);
        if self.calls == self.failing {
            self.edges = self.edges.saturating_add(1);
            return Err(Failed);
        }
        let count = self.script.len().min(self.size).min(into.len());
        if count == 0 {
            self.reads_past_end = self.reads_past_end.wrapping_add(1);
        }
        let (front, rest) = self.script.split_at(count);
        into[..count].copy_from_slice(front);
        self.script = rest;
        Ok(count)
    }

    fn type_out(&mut self, from: &[u8]) -> Result<usize, Failed> {
        self.calls = self.calls.wrapping_add(1);
        let count = from.len().min(self.size.max(1));
        if self.calls == self.failing || self.typed.extend_from_slice(&from[..count]).is_err() {
            self.edges = self.edges.saturating_add(1);
            return Err(Failed);
        }
        Ok(count)
    }

    fn now(&mut self) -> Result<i64, Failed> {
        Ok(0)
    }
}

// The place of a number that stands there once.
fn place_of(numbers: &[u32], number: u32) -> Option<usize> {
    let mut found = None;
    for place in 0..numbers.len() {
        if numbers[place] == number {
            if found.is_some() {
                return None;
            }
            found = Some(place);
        }
    }
    found
}

/// The bytes of a block, where it was written once.
pub fn written_once<'a>(world: &'a PlainWorld<'_>, number: u32) -> Option<&'a [u8]> {
    let place = place_of(&world.blocks, number)?;
    let start = place.saturating_mul(512);
    world.bytes.get(start..start.saturating_add(512))
}

// A world with this script in pieces, of whose calls the one with this number fails, from 1. It takes so many blocks.
fn world_of(
    alloc: Global,
    script: &[u8],
    size: usize,
    failing: usize,
    most: usize,
) -> PlainWorld<'_> {
    PlainWorld {
        script,
        size,
        failing,
        typed: Vec::new(alloc),
        calls: 0,
        reads_past_end: 0,
        edges: 0,
        most,
        blocks: Vec::new(alloc),
        bytes: Vec::new(alloc),
        reads: 0,
        failures: 0,
    }
}

/// A world of pieces, of whose calls the one with this number fails, from 1.
pub fn in_pieces(alloc: Global, script: &[u8], size: usize, failing: usize) -> PlainWorld<'_> {
    world_of(alloc, script, size, failing, usize::MAX)
}

/// A world without a script, where the write behind so many fails.
pub fn blank(alloc: Global, most: usize) -> PlainWorld<'static> {
    world_of(alloc, &[], 0, 0, most)
}
