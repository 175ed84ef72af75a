// A world of one unit.
ghost use Rattle.std.specs.Prelude.{None};
ghost use Rattle.cms_journal.specs.Causes.{HasCause};

use crate::known::put;
use cms_world::{Access, Failed, Unit, World};
use std::alloc::{AllocError, Global};

/// What changed the unit or made its changes lasting.
#[derive(Drop)]
pub enum Event {
    Wrote { block: u32, bytes: Vec<u8> },
    Synced,
}

// What was asked of a unit, from this image on.
#[derive(Drop)]
struct Log {
    alloc: Global,
    before: Vec<u8>,
    events: Vec<Event>,
}

/// A world of one unit with blocks of 512 bytes. It tells no journal. What is written stands in its image. One of its reads and syncs may
/// fail, and one give other bytes than the block's.
#[derive(Drop)]
pub struct Disk {
    pub image: Vec<u8>,
    /// how many reads and syncs were asked
    pub calls: usize,
    /// the one of them that fails, from 1 on
    pub failing: usize,
    /// the read that gives other bytes, from 1 on
    pub altering: usize,
    pub failures: u64,
    /// how many blocks were written
    pub writes: usize,
    log: Option<Log>,
}

fn with_log(image: Vec<u8>, log: Option<Log>) -> Disk {
    Disk {
        image,
        calls: 0,
        failing: 0,
        altering: 0,
        failures: 0,
        writes: 0,
        log,
    }
}

/// A world of a unit with this image.
pub fn world_of(image: Vec<u8>) -> Disk {
    with_log(image, None)
}

impl Disk {
    /// A world of a unit with this image, in which what is asked is kept.
    pub fn logged(alloc: Global, image: &[u8]) -> Result<Disk, AllocError> {
        let before = image.to_vec(alloc)?;
        let image = image.to_vec(alloc)?;
        let log = Log {
            alloc,
            before,
            events: Vec::new(alloc),
        };
        Ok(with_log(image, Some(log)))
    }

    /// What was asked of it, in order.
    pub fn events(&self) -> &[Event] {
        match &self.log {
            Some(log) => &log.events,
            None => &[],
        }
    }

    /// What a crash after so many events may leave: all that was written, or no more than what was synced.
    pub fn crash(&self, alloc: Global, at: usize, all: bool) -> Result<Vec<u8>, AllocError> {
        let events = first_of(self.events(), at);
        let kept = if all { events.len() } else { synced(events) };
        let mut image = self.before().to_vec(alloc)?;
        put_events(image.as_mut_slice(), first_of(events, kept));
        Ok(image)
    }

    // The image before what was asked, where that was kept, and else as it is.
    fn before(&self) -> &[u8] {
        match &self.log {
            Some(log) => &log.before,
            None => &self.image,
        }
    }

    // Copies what there is of a block, or zeros where this read gives other bytes.
    fn copy_block(&self, block: u32, into: &mut [u8]) {
        let start = (block as usize).saturating_sub(1).saturating_mul(512);
        let rest = self.image.get(start..).unwrap_or(&[]);
        let count = rest.len().min(into.len());
        into[..count].copy_from_slice(&rest[..count]);
        if self.calls == self.altering {
            into.fill(0);
        }
    }

    // Counts a read or a sync, which may be the one that fails.
    fn call(&mut self) -> Result<(), Failed>
        ensures { HasCause self.old.failures self.new.failures result }
    {
        self.calls = self.calls.saturating_add(1);
        if self.calls == self.failing {
            self.failures = self.failures.saturating_add(1);
            return Err(Failed);
        }
        Ok(())
    }

    // Keeps what was asked, or counts that there was no memory for it.
    fn keep(&mut self, block: Option<u32>, bytes: &[u8]) -> Result<(), Failed>
        ensures { HasCause self.old.failures self.new.failures result }
    {
        let Some(log) = &mut self.log else {
            return Ok(());
        };
        match log.keep(block, bytes) {
            Ok(()) => Ok(()),
            Err(_) => {
                self.failures = self.failures.saturating_add(1);
                Err(Failed)
            }
        }
    }
}

impl Log {
    // Keeps that these bytes were written into a block, or a sync.
    fn keep(&mut self, block: Option<u32>, bytes: &[u8]) -> Result<(), AllocError> {
        let event = match block {
            Some(block) => Event::Wrote {
                block,
                bytes: bytes.to_vec(self.alloc)?,
            },
            None => Event::Synced,
        };
        self.events.push(event)?;
        Ok(())
    }
}

// The first so many of these events, or all.
fn first_of(events: &[Event], count: usize) -> &[Event] {
    events.get(..count).unwrap_or(events)
}

// How many of these events stand before the last sync among them.
fn synced(events: &[Event]) -> usize {
    let mut kept = 0;
    for (nth, event) in events.iter().enumerate() {
        if let Event::Synced = event {
            kept = nth;
        }
    }
    kept
}

// Puts what these events wrote.
fn put_events(image: &mut [u8], events: &[Event]) {
    for event in events {
        if let Event::Wrote { block, bytes } = event {
            put(image, *block as usize, 0, bytes);
        }
    }
}

impl World for Disk {
    ghost faults = { λ w. w.failures };

    ghost edges = { λ w. 0 };

    ghost told = { λ w. None };

    fn attach(&mut self, _name: &str, _bsize: u32, _access: Access) -> Result<Unit, Failed> {
        Ok(Unit {
            number: 0,
            blocks: 0,
        })
    }

    fn read_block(&mut self, _unit: u8, block: u32, into: &mut [u8]) -> Result<(), Failed> {
        let called = self.call();
        if called.is_ok() {
            self.copy_block(block, into);
        }
        called
    }

    fn write_block(&mut self, _unit: u8, block: u32, from: &[u8]) -> Result<(), Failed> {
        self.writes = self.writes.saturating_add(1);
        put(self.image.as_mut_slice(), block as usize, 0, from);
        self.keep(Some(block), from)
    }

    fn sync(&mut self, _unit: u8) -> Result<(), Failed> {
        match self.call() {
            Ok(()) => self.keep(None, &[]),
            Err(Failed) => Err(Failed),
        }
    }

    fn read(&mut self, _into: &mut [u8]) -> Result<usize, Failed> {
        Ok(0)
    }

    fn type_out(&mut self, from: &[u8]) -> Result<usize, Failed> {
        Ok(from.len())
    }

    fn now(&mut self) -> Result<i64, Failed> {
        Ok(0)
    }
}
