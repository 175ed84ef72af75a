// A journal as it grows.
ghost use Rattle.std.specs.Prelude.{◌≡◌, ◌↔◌, ◌-◌, ◌<◌, ◌≤◌, ℕ, [], ◌∷◌, ◌++◌, length, reverse, OnOk, OnErr, IfOk, IsTrue, IsSomeAnd, All};
ghost use Rattle.std.specs.List.{concat};
ghost use Rattle.cms_journal.specs.Journal.{Journal, HasUnit, HasBlock, IsWritable, block_of, first_events, start_of, IsUntouched, typed_of};
ghost use Rattle.cms_journal.specs.declared.event.Event.TheVariants.{Typed, Read, Wrote, Missed};
ghost use Rattle.cms_world.specs.Crash.{chosen_image, HoldsCrashImage};
ghost use Rattle.cms_world.specs.Images.{is_named, with_unit, written_over};
ghost use Rattle.cms_world.specs.Recorder.{MayHappen, IsRecord};

use crate::Access;
use crate::crash::image_at;
use crate::images::overlaid;
use cms_journal::{Attached, Blocks, Bytes, Event};
use std::alloc::{AllocError, Global};
use std::marker::Model;

/// The journal, with the blocks of each unit as they are by now, so that a read looks through no events. Contracts see the
/// journal.
#[derive(Drop)]
pub struct Recorder {
    units: Vec<Attached>,
    // of each unit
    current: Vec<Blocks>,
    // the oldest first
    events: Vec<Event>,
    // all that was typed
    typed: Vec<u8>,
}

impl Model for Recorder {
    ghost Value = { Journal };

    ghost view = { λ r. record { units = r.units.items; events = reverse r.events.items } };

    ghost invariant = { λ r. IsRecord r.units.items r.current.items (reverse r.events.items) r.typed.items };
}

impl Recorder {
    /// A journal with no unit and no event.
    pub fn new(alloc: Global) -> Self
        ensures { result ≡ record { units = []; events = [] } }
    {
        Recorder {
            units: Vec::new(alloc),
            current: Vec::new(alloc),
            events: Vec::new(alloc),
            typed: Vec::new(alloc),
        }
    }

    /// Adds an event that is no write and isn't typed.
    pub fn add(&mut self, event: Event) -> Result<(), AllocError>
        requires { MayHappen self.old.units event }
        ensures ok { OnOk result (self.new
            ≡ record { units = self.old.units; events = event ∷ self.old.events }) }
        ensures err { OnErr result (self.new ≡ self.old) }
    {
        self.events.push(event)?;
        Ok(())
    }

    /// Adds bytes that were typed.
    pub fn add_typed(&mut self, alloc: Global, bytes: &[u8]) -> Result<(), AllocError>
        ensures ok { OnOk result (self.new
            ≡ record { units = self.old.units; events = Typed bytes.now ∷ self.old.events }) }
        ensures err { OnErr result (self.new ≡ self.old) }
    {
        let copy = Bytes::of(alloc, bytes)?;
        let before = self.typed.len();
        self.typed.extend_from_slice(bytes)?;
        match self.events.push(Event::Typed(copy)) {
            Ok(()) => Ok(()),
            Err(_) => {
                self.typed.truncate(before);
                Err(AllocError)
            }
        }
    }

    /// Adds a write of a block, which then has these bytes.
    pub fn add_write(
        &mut self,
        alloc: Global,
        unit: u8,
        block: u32,
        bytes: &[u8],
    ) -> Result<(), AllocError>
        requires { HasBlock self.old.units unit block (length bytes.now) }
        ensures ok { OnOk result (self.new
            ≡ record {
              units = self.old.units;
              events = Wrote unit block bytes.now ∷ self.old.events;
            }) }
        ensures err { OnErr result (self.new ≡ self.old) }
    {
        let written = Bytes::of(alloc, bytes)?;
        self.events
            .push(Event::Wrote(unit, block, Bytes::of(alloc, bytes)?))?;
        self.current[unit as usize].set(block as usize - 1, written);
        Ok(())
    }

    /// Adds bytes that were read from the console.
    pub fn add_read(&mut self, alloc: Global, bytes: &[u8]) -> Result<(), AllocError>
        ensures ok { OnOk result (self.new
            ≡ record { units = self.old.units; events = Read bytes.now ∷ self.old.events }) }
        ensures err { OnErr result (self.new ≡ self.old) }
    {
        self.add(Event::Read(Bytes::of(alloc, bytes)?))
    }

    /// Adds an attach that failed.
    pub fn add_missed(
        &mut self,
        alloc: Global,
        name: &str,
        bsize: u32,
        access: Access,
    ) -> Result<(), AllocError>
        ensures ok { OnOk result (self.new
            ≡ record {
              units = self.old.units;
              events = Missed name.now bsize access ∷ self.old.events;
            }) }
        ensures err { OnErr result (self.new ≡ self.old) }
    {
        self.add(Event::Missed(Bytes::of(alloc, name.as_bytes())?, bsize, access))
    }

    /// Attaches a unit with its starting blocks.
    pub fn attach(&mut self, alloc: Global, unit: Attached) -> Result<(), AllocError>
        requires { All (λ block. length block ≡ unit.bsize) unit.start }
        ensures ok { OnOk result (self.new
            ≡ record { units = self.old.units ++ unit ∷ []; events = self.old.events }) }
        ensures untouched { OnOk result (IsUntouched self.old.events (length self.old.units)) }
        ensures err { OnErr result (self.new ≡ self.old) }
    {
        let current = unit.start.copy(alloc)?;
        self.current.push(current)?;
        if self.units.push(unit).is_err() {
            self.current.truncate(self.units.len());
            return Err(AllocError);
        }
        Ok(())
    }

    /// All that was typed.
    pub fn typed(&self) -> &[u8]
        ensures { result.now ≡ typed_of self.now.events }
    {
        &self.typed
    }

    /// Whether a unit has this name.
    pub fn is_named(&self, name: &str) -> bool
        ensures { result ≡ is_named self.now.units name.now }
    {
        self.units
            .iter()
            .any(|unit| unit.name.bytes() == name.as_bytes())
    }

    /// These bytes with the contents of the units of this name, from one unit on, over them.
    pub fn written_over(
        &self,
        alloc: Global,
        name: &str,
        since: usize,
        bytes: &[u8],
    ) -> Result<Vec<u8>, AllocError>
        ensures { IfOk result (λ written. written.items
            ≡ written_over self.now since (length self.now.units - since) name.now bytes.now) }
    {
        let mut written = bytes.to_vec(alloc)?;
        for number in since..self.units() {
            written = self.with_unit(alloc, name, number, written)?;
        }
        Ok(written)
    }

    // These bytes with the contents of a unit over them, if it has this name.
    fn with_unit(
        &self,
        alloc: Global,
        name: &str,
        number: usize,
        bytes: Vec<u8>,
    ) -> Result<Vec<u8>, AllocError>
        requires { number < length self.now.units }
        ensures { IfOk result (λ written. written.items
            ≡ with_unit self.now number name.now bytes.items) }
    {
        if self.units[number].name.bytes() == name.as_bytes() {
            overlaid(alloc, &self.current[number], &bytes)
        } else {
            Ok(bytes)
        }
    }

    /// How many units are attached.
    pub fn units(&self) -> usize
        ensures { result ≡ length self.now.units }
    {
        self.units.len()
    }

    /// How many events there are.
    pub fn len(&self) -> usize
        ensures { result ≡ length self.now.events }
    {
        self.events.len()
    }

    /// Whether the unit is attached.
    pub fn has_unit(&self, unit: u8) -> bool
        ensures { IsTrue result ↔ HasUnit self.now.units unit }
    {
        self.units.get(unit as usize).is_some()
    }

    /// Whether the unit is attached with this block size and has this block.
    pub fn has_block(&self, unit: u8, block: u32, size: usize) -> bool
        ensures { IsTrue result ↔ HasBlock self.now.units unit block size }
    {
        match self.units.get(unit as usize) {
            None => false,
            Some(attached) => {
                attached.bsize as usize == size
                    && block >= 1
                    && block as usize <= attached.start.len()
            }
        }
    }

    /// Whether the unit is attached so that it may be written.
    pub fn is_writable(&self, unit: u8) -> bool
        ensures { IsTrue result ↔ IsWritable self.now.units unit }
    {
        match self.units.get(unit as usize) {
            None => false,
            Some(attached) => attached.writable,
        }
    }

    /// A block of a unit as it is by now.
    pub fn block(&self, unit: u8, block: u32, size: usize) -> &[u8]
        requires { HasBlock self.now.units unit block size }
        ensures bytes { result.now ≡ block_of self.now unit block }
        ensures size { length result.now ≡ size }
    {
        self.current[unit as usize].get(block as usize - 1)
    }

    /// What a crash right after the first events leaves of a unit, as the bits of the choice say.
    pub fn crash(
        &self,
        alloc: Global,
        unit: u8,
        at: usize,
        choice: u64,
    ) -> Result<Vec<u8>, AllocError>
        requires unit { HasUnit self.now.units unit }
        requires at { at ≤ length self.now.events }
        ensures chosen { IfOk result (λ image. image.items
            ≡ concat (chosen_image (first_events at self.now.events) unit choice
            (start_of self.now.units unit))) }
        ensures crash { IfOk result (λ image. HoldsCrashImage (first_events at self.now.events) unit
            (start_of self.now.units unit) image.items) }
    {
        image_at(alloc, &self.events, at, unit, self.start(unit), choice)
    }

    fn start(&self, unit: u8) -> &Blocks
        requires { HasUnit self.now.units unit }
        ensures { result.now ≡ start_of self.now.units unit }
    {
        &self.units[unit as usize].start
    }
}
