// The bytes of a file that are read before they are asked for.
ghost use Rattle.std.specs.Prelude.{◌≡◌, ◌≤◌, ◌⊎◌, length, take, vec_len, IsTrue};
ghost use Rattle.cms_host.specs.FileBytes.{HasBytes};

use crate::system::System;
use std::alloc::Global;

/// How many bytes are read at once at most.
const ROOM: u64 = 65_536;

/// A place in a file.
#[derive(Clone, Copy)]
pub struct Place {
    /// the number of the file
    pub file: usize,
    /// which byte of it
    pub byte: u64,
}

/// Bytes of a file that were read before they were asked for. They are what the file has there: a write of any of them
/// lets all of them go.
///
/// Where a read begins at the place at which the last one ended, twice as many bytes are read as then, up to 65,536; else none
/// but those that are asked for. Where more can't be read, or there is no memory for them, it is these alone too.
#[derive(Drop)]
pub struct ReadAhead {
    bytes: Vec<u8>,
    held: usize,
    from: Place,
    next: Place,
    step: usize,
    ghost inside: { held ≤ vec_len bytes },
}

// Reads so many bytes from a place on into the front of a slice, and says whether it could.
fn read_front<S: System>(system: &mut S, place: Place, bytes: &mut [u8], count: usize) -> bool
    requires { count ≤ length bytes.old }
    ensures told { S.told system.new ≡ S.told system.old }
    ensures files { S.files system.new ≡ S.files system.old }
    ensures bytes { IsTrue result
        → HasBytes (S.files system.old place.file) place.byte (take count bytes.new) }
{
    system.read_at(place.file, &mut bytes[..count], place.byte)
}

impl ReadAhead {
    ghost use Rattle.cms_host.specs.HeldBytes.{HoldsAt, HoldsNone, HoldsTrue};

    /// Nothing is held.
    pub fn new(alloc: Global) -> ReadAhead
        ensures { result.held ≡ 0 }
    {
        let place = Place { file: 0, byte: 0 };
        ReadAhead {
            bytes: Vec::new(alloc),
            held: 0,
            from: place,
            next: place,
            step: 0,
        }
    }

    /// Holds nothing any more.
    pub fn clear(&mut self)
        ensures { self.new.held ≡ 0 }
    {
        self.held = 0;
    }

    /// Holds nothing any more, where any of so many bytes from a place on is held.
    pub fn let_go(&mut self, place: Place, count: usize)
        ensures gone { HoldsNone self.new place count }
        ensures kept { (self.new ≡ self.old) ⊎ (self.new.held ≡ 0) }
    {
        let apart = if place.byte < self.from.byte {
            self.from.byte - place.byte >= count as u64
        } else {
            place.byte - self.from.byte >= self.held as u64
        };
        if place.file == self.from.file && !apart {
            self.held = 0;
        }
    }

    // Takes the bytes of a place, where all of them are held, and says whether they are.
    fn take(&self, place: Place, into: &mut [u8]) -> bool
        ensures { IsTrue result → HoldsAt self.now place into.new }
    {
        if place.file != self.from.file || place.byte < self.from.byte {
            return false;
        }
        let begin = (place.byte - self.from.byte) as usize;
        if begin > self.held || into.len() > self.held - begin {
            return false;
        }
        into.copy_from_slice(&self.bytes[begin..begin + into.len()]);
        true
    }

    // How many bytes are to be read from a place on, of so many that may be: none where the last read didn't end there.
    fn count(&self, place: Place, most: u64) -> usize {
        if place.file != self.next.file || place.byte != self.next.byte {
            return 0;
        }
        (self.step as u64).saturating_mul(2).min(ROOM).min(most) as usize
    }

    // Reads so many bytes from a place on, and says whether it could.
    fn fill<S: System>(&mut self, system: &mut S, place: Place, count: usize) -> bool
        requires { HoldsTrue (S.files system.old) self.old }
        ensures told { S.told system.new ≡ S.told system.old }
        ensures files { S.files system.new ≡ S.files system.old }
        ensures held { HoldsTrue (S.files system.old) self.new }
    {
        if self.bytes.len() < count && self.bytes.resize(count, 0).is_err() {
            return false;
        }
        let read = read_front(system, place, &mut self.bytes, count);
        self.held = if read { count } else { 0 };
        self.from = place;
        self.step = count;
        read
    }

    // Reads the bytes of a place with more behind them, and says whether it did.
    #[tactic(auto, using(crate::proofs::HeldBytes::read_lemmas))]
    fn read_more<S: System>(
        &mut self,
        system: &mut S,
        place: Place,
        most: u64,
        into: &mut [u8],
    ) -> bool
        requires { HoldsTrue (S.files system.old) self.old }
        ensures told { S.told system.new ≡ S.told system.old }
        ensures files { S.files system.new ≡ S.files system.old }
        ensures bytes { IsTrue result
            → HasBytes (S.files system.old place.file) place.byte into.new }
        ensures held { HoldsTrue (S.files system.old) self.new }
    {
        let count = self.count(place, most);
        count > into.len() && self.fill(system, place, count) && self.take(place, into)
    }

    // Reads the bytes of a place alone, and says whether it could.
    fn read_alone<S: System>(&mut self, system: &mut S, place: Place, into: &mut [u8]) -> bool
        requires { HoldsTrue (S.files system.old) self.old }
        ensures told { S.told system.new ≡ S.told system.old }
        ensures files { S.files system.new ≡ S.files system.old }
        ensures bytes { IsTrue result
            → HasBytes (S.files system.old place.file) place.byte into.new }
        ensures held { HoldsTrue (S.files system.old) self.new }
    {
        self.step = into.len();
        system.read_at(place.file, into, place.byte)
    }

    /// Reads the bytes of a place, of which so many may be read, and says whether it could.
    #[tactic(auto, using(crate::proofs::HeldBytes::read_lemmas))]
    pub fn read<S: System>(
        &mut self,
        system: &mut S,
        place: Place,
        most: u64,
        into: &mut [u8],
    ) -> bool
        requires { HoldsTrue (S.files system.old) self.old }
        ensures told { S.told system.new ≡ S.told system.old }
        ensures files { S.files system.new ≡ S.files system.old }
        ensures bytes { IsTrue result
            → HasBytes (S.files system.old place.file) place.byte into.new }
        ensures held { HoldsTrue (S.files system.old) self.new }
    {
        let read = self.take(place, into)
            || self.read_more(system, place, most, into)
            || self.read_alone(system, place, into);
        self.next = Place {
            file: place.file,
            byte: place.byte.saturating_add(into.len() as u64),
        };
        read
    }
}
