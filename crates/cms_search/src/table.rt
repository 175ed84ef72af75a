// The access table.
ghost use Rattle.std.specs.Prelude.{Bool, not, is_some, ◌||◌, ◌==◌, ◌≡◌, ◌⊎◌, ◌<◌, ◌≤◌, ◌↔◌, true, false, length, position, slice_get, Some, None, Ok, unwrap_or, IfSome, IfOk, IfErr, OnOk, OnErr, IsSome, IsTrue};
ghost use Rattle.std.specs.Option.{ForSome, option_copied, option_map, option_and_then};
ghost use Rattle.cms_world.specs.Seen.{ChangesUnits, seen};
ghost use Rattle.cms_journal.specs.Journal.{HasBlocks};
ghost use Rattle.cms_model.specs.declared.fault.OpenFault.TheVariants as failed;
ghost use Rattle.cms_disk.specs.Disks.{IsDevices};
ghost use Rattle.cms_disk.specs.declared.unit.UnitInfo.{UnitInfo};
ghost use Rattle.cms_search.specs.Units.{letter_with};
ghost use Rattle.cms_search.specs.Format.{vacated};
ghost use Rattle.cms_search.specs.Searches.{has, item_at};
ghost use Rattle.cms_fields.specs.Stamps.{is_stamp};
ghost use Rattle.cms_edf.specs.ChangePlans.{change_of};
ghost use Rattle.cms_search.specs.Seats.{ChangesSeat, ChangesTo, HasDevice, MayChange};
ghost use Rattle.cms_search.specs.Tables.{EndsAccess, HaveDistinctDevices, IsTable, LooksAt, answer_for, table_after, letter_for, letters_of, marked, missing_parent, new_table, parent_of, place_of_device, released, seated, unit_of_device, wanted_unit, writing};
ghost use Rattle.cms_search.specs.declared.fault.SearchFault.TheVariants.{NotAccessed, Volume};

use crate::fault::SearchFault;
use crate::seated::{Seated, clear, put_on, seat_at, vacate};
use cms_disk::{AccessFault, DiskFault, Minidisk, OpenFault, UnitInfo};
use cms_edf::Change;
use cms_fields::Stamp;
use cms_text::Series;
use cms_world::World;
use std::alloc::{AllocError, Global};
use std::marker::Model;

/// How many letters there are: A is 0, Z is 25.
pub const LETTERS: usize = 26;

/// A list of units.
pub type UnitList = Series<UnitInfo>;

/// What is told of a letter's disk.
#[derive(Clone, Copy)]
pub struct Seat {
    /// its device, 1 to 4,095
    pub vdev: u16,
    /// the letter whose extension it is, A is 0
    pub parent: Option<u8>,
    /// it may only be read
    pub read_only: bool,
}

/// The units of a session, and the letters as which their disks are accessed. A unit stands on one letter at most, and on none while it
/// is in doubt. Letters are numbers, A is 0.
#[derive(Drop)]
pub struct AccessTable {
    units: UnitList,
    doubts: Vec<bool>,
    pub(crate) seats: Vec<Option<Seated>>,
}

impl Model for AccessTable {
    ghost use Rattle.cms_search.specs.Tables as tables;
    ghost use Rattle.cms_search.specs.Tables.{IsTable};

    ghost Value = { tables.AccessTable };

    ghost view = { λ t. record { units = t.units; doubts = t.doubts.items; seats = t.seats.items } };

    ghost invariant = { λ t. IsTable (record { units = t.units; doubts = t.doubts.items; seats = t.seats.items }) };
}

// The parent that a letter gets.
fn parent_of(letter: u8, parent: Option<u8>) -> Option<u8>
    ensures { result ≡ parent_of letter parent }
{
    match parent {
        Some(parent) if parent != letter => Some(parent),
        _ => None,
    }
}

// Whether a unit's disk may only be read.
fn is_read_only(parent: Option<u8>, writable: bool) -> bool
    ensures { result ≡ (is_some parent || not writable) }
{
    match parent {
        Some(_) => true,
        None => !writable,
    }
}

// Whether a seat is taken by the disk of a unit.
fn is_of(seat: &Option<Seated>, unit: usize) -> bool
    ensures { result ≡ has (λ s. s.letter.unit == unit) seat.now }
{
    match seat {
        Some(seat) => seat.unit == unit,
        None => false,
    }
}

// Changes a minidisk.
fn change_minidisk<W: World>(
    alloc: Global,
    world: &mut W,
    disk: &mut Minidisk,
    change: &Change,
    stamp: &Stamp,
) -> Result<(), DiskFault>
    requires may { MayChange (W.told world.old) disk.old change.now }
    requires stamp { is_stamp stamp.now ≡ true }
    ensures { ChangesTo (seen W.World world.old) (seen W.World world.new) disk.old disk.new
        (change_of change.now) stamp.now result }
{
    match *change {
        Change::Drop { name } => disk.erase(alloc, world, name, stamp),
        Change::Rename { from, to, number } => disk.rename(alloc, world, from, to, number, stamp),
        Change::Relabel { volid } => disk.relabel(alloc, world, volid, stamp),
        Change::Century { pivot } => disk.century(alloc, world, pivot, stamp),
    }
}

impl AccessTable {
    /// A table of units with distinct devices. Nothing is accessed, and no unit is in doubt.
    pub fn new(alloc: Global, units: UnitList) -> Result<AccessTable, AllocError>
        requires { HaveDistinctDevices units }
        ensures { IfOk result (λ t. t ≡ new_table units) }
    {
        let mut seats = Vec::new(alloc);
        for _ in 0..LETTERS {
            seats.push(None)?;
        }
        Ok(AccessTable {
            doubts: vec![in alloc; false; units.len()]?,
            units,
            seats,
        })
    }

    /// The unit of a device; none exactly where no unit has it.
    pub fn unit(&self, vdev: u16) -> Option<&UnitInfo>
        ensures unit { option_copied result ≡ unit_of_device vdev self.now.units }
        ensures table { IsTable self.now }
    {
        self.units.get(self.place(vdev)?)
    }

    /// Whether the unit of a device is in doubt; false where no unit has it.
    pub fn in_doubt(&self, vdev: u16) -> bool
        ensures { result ≡ unwrap_or
            (option_and_then
            (λ u. slice_get self.now.doubts u) (place_of_device vdev self.now.units)) false }
    {
        match self.place(vdev) {
            Some(place) => self.doubts[place],
            None => false,
        }
    }

    /// What is told of the disk of a letter; none exactly where the letter isn't accessed.
    pub fn seat(&self, letter: u8) -> Option<Seat>
        ensures none { (result ≡ None) ↔ (item_at self.now.seats letter ≡ None) }
        ensures some { IfSome result
            (λ told. ForSome (item_at self.now.seats letter) (λ s. (told.parent ≡ s.letter.parent)
            × (told.read_only ≡ s.letter.read_only)
            × (option_map (λ unit. unit.vdev) (slice_get self.now.units s.letter.unit)
            ≡ Some told.vdev))) }
    {
        let seat = self.seated(letter)?;
        let unit = self.units.get(seat.unit)?;
        Some(Seat {
            vdev: unit.vdev,
            parent: seat.parent,
            read_only: seat.read_only,
        })
    }

    /// The disk of a letter; none exactly where the letter isn't accessed.
    pub fn disk(&self, letter: u8) -> Option<&Minidisk>
        ensures { option_copied result ≡ option_map (λ s. s.disk) (item_at self.now.seats letter) }
    {
        Some(&self.seated(letter)?.disk)
    }

    /// The device of a letter's disk; 0 where the letter isn't accessed.
    pub fn vdev(&self, letter: u8) -> u16
        ensures accessed { HasDevice self.now letter result }
        ensures none { item_at self.now.seats letter ≡ None → result ≡ 0 }
    {
        match self.seat(letter) {
            Some(seat) => seat.vdev,
            None => 0,
        }
    }

    // The disk of a letter with its marks.
    pub(crate) fn seated(&self, letter: u8) -> Option<&Seated>
        ensures seat { option_copied result ≡ item_at self.now.seats letter }
        ensures table { IsTable self.now }
    {
        seat_at(self.seats.as_slice(), letter as usize)
    }

    // How many letters there are.
    pub(crate) fn letters(&self) -> u8
        ensures letters { result ≡ 26 }
        ensures table { IsTable self.now }
    {
        self.seats.len() as u8
    }

    // The place of the unit of a device.
    pub(crate) fn place(&self, vdev: u16) -> Option<usize>
        ensures place { result ≡ place_of_device vdev self.now.units }
        ensures within { IfSome result (λ u. u < length self.now.units) }
    {
        self.units
            .as_slice()
            .iter()
            .position(|unit| unit.vdev == vdev)
    }

    // The letter on which the unit in a place stands.
    fn letter_of(&self, place: usize) -> Option<u8>
        ensures letter { result ≡ position (has (λ s. s.letter.unit == place)) self.now.seats }
        ensures within { IfSome result (λ n. n < 26) }
    {
        let letter = self
            .seats
            .as_slice()
            .iter()
            .position(|seat| is_of(seat, place));
        match letter {
            Some(letter) => Some(letter as u8),
            None => None,
        }
    }

    /// The letter as which the volume of a device is accessed; none exactly where it isn't.
    pub fn letter_on(&self, vdev: u16) -> Option<u8>
        ensures letter { result ≡ option_and_then
            (λ u. letter_with u (letters_of self.now)) (place_of_device vdev self.now.units) }
        ensures within { IfSome result (λ n. n < 26) }
    {
        match self.place(vdev) {
            Some(place) => self.letter_of(place),
            None => None,
        }
    }

    // The letter of /ext that is missing.
    fn missing_parent(&self, letter: u8, parent: Option<u8>) -> Option<u8>
        ensures { result ≡ missing_parent self.now.seats letter parent }
    {
        let parent = parent?;
        if parent == letter || self.seated(parent).is_some() {
            None
        } else {
            Some(parent)
        }
    }

    // The unit that is accessed, or why none is looked at.
    fn wanted(&self, vdev: u16, letter: u8, parent: Option<u8>) -> Result<usize, SearchFault>
        ensures wanted { result ≡ wanted_unit vdev (place_of_device vdev self.now.units)
            (missing_parent self.now.seats letter parent) }
        ensures within { IfOk result (λ u. u < length self.now.units) }
    {
        let Some(place) = self.place(vdev) else {
            return Err(SearchFault::NoUnit(vdev));
        };
        match self.missing_parent(letter, parent) {
            Some(missing) => Err(SearchFault::NotAccessed(missing)),
            None => Ok(place),
        }
    }

    // Whether the unit in a place is in doubt.
    fn is_marked(&self, place: usize) -> bool
        requires { place < length self.now.units }
        ensures { slice_get self.now.doubts place ≡ Some result }
    {
        self.doubts[place]
    }

    // Opens the volume of the unit in a place.
    fn open<W: World>(
        &self,
        alloc: Global,
        world: &mut W,
        place: usize,
    ) -> Result<Minidisk, AccessFault>
        requires within { place < length self.now.units }
        requires blocks { ForSome (W.told world.old) (λ j. IfSome (slice_get self.now.units place)
            (λ unit. HasBlocks j.units unit.unit.number unit.unit.blocks unit.bsize)) }
        ensures opens { (unit : UnitInfo) (doubt : Bool)
            → slice_get self.now.units place ≡ Some unit
            → slice_get self.now.doubts place ≡ Some doubt
            → LooksAt (W.told world.old) (W.told world.new) unit doubt result }
        ensures table { IsTable self.now }
        ensures changes { ChangesUnits (seen W.World world.old)
            (seen W.World world.new) IsDevices result }
    {
        let unit = self.units.as_slice()[place];
        let doubt = self.is_marked(place);
        Minidisk::access(alloc, world, &unit, doubt)
    }

    // The unit in a place.
    pub(crate) fn unit_in(&self, place: usize) -> UnitInfo
        requires { place < length self.now.units }
        ensures { slice_get self.now.units place ≡ Some result }
    {
        self.units.as_slice()[place]
    }

    // Seats a disk of the unit in a place on a letter; the unit isn't in doubt any more.
    pub(crate) fn seat_on(&mut self, place: usize, letter: u8, parent: Option<u8>, disk: Minidisk)
        requires within { place < length self.old.units }
        requires letter { letter < 26 }
        ensures { (unit : UnitInfo) → slice_get self.old.units place ≡ Some unit
            → self.new ≡ table_after self.old place
            (letter_for place unit.writable letter parent) letter (Ok disk) }
    {
        let writable = self.units.as_slice()[place].writable;
        self.doubts[place] = false;
        let seat = Seated {
            disk,
            unit: place,
            parent: parent_of(letter, parent),
            read_only: is_read_only(parent, writable),
            reading: None,
        };
        put_on(&mut self.seats, letter as usize, seat);
    }

    // Releases the unit in a place, and a letter; the unit is in doubt then or isn't.
    pub(crate) fn vacate(&mut self, place: usize, letter: u8, doubt: bool)
        requires within { place < length self.old.units }
        requires letter { letter < 26 }
        ensures { self.new ≡ vacated place letter (marked place doubt self.old) }
    {
        clear(&mut self.seats, letter as usize);
        vacate(&mut self.seats, place);
        self.doubts[place] = doubt;
    }

    // The unit in a place isn't in doubt any more.
    fn end_doubt(&mut self, place: usize)
        requires { place < length self.old.units }
        ensures { self.new ≡ marked place false self.old }
    {
        self.doubts[place] = false;
    }

    // Seats the disk of the unit in a place. A good sync has ended a doubt, but where there was no memory.
    fn settle(
        &mut self,
        place: usize,
        letter: u8,
        parent: Option<u8>,
        found: Result<Minidisk, AccessFault>,
    ) -> Result<(), SearchFault>
        requires within { place < length self.old.units }
        requires letter { letter < 26 }
        ensures answer { result ≡ answer_for found }
        ensures table { (unit : UnitInfo) → slice_get self.old.units place ≡ Some unit
            → self.new ≡ table_after self.old place
            (letter_for place unit.writable letter parent) letter found }
    {
        match found {
            Ok(disk) => {
                self.seat_on(place, letter, parent, disk);
                Ok(())
            }
            Err(AccessFault::Sync) => Err(SearchFault::Volume(OpenFault::Device)),
            Err(AccessFault::Open(OpenFault::Memory)) => Err(SearchFault::Memory),
            Err(AccessFault::Open(fault)) => {
                self.end_doubt(place);
                Err(SearchFault::Volume(fault))
            }
        }
    }

    /// Accesses the volume of a device as a letter, read-only with `parent`. Refused are, in this order, a device that no unit has; a
    /// parent that isn't accessed and isn't the letter itself; a volume that doesn't open. A unit in doubt is synced first. A refusal
    /// leaves every letter as it was, and a good sync ends the doubt.
    pub fn access<W: World>(
        &mut self,
        alloc: Global,
        world: &mut W,
        vdev: u16,
        letter: u8,
        parent: Option<u8>,
    ) -> Result<(), SearchFault>
        requires letter { letter < 26 }
        requires blocks { ForSome (W.told world.old)
            (λ j. IfSome (unit_of_device vdev self.old.units)
            (λ unit. HasBlocks j.units unit.unit.number unit.unit.blocks unit.bsize)) }
        ensures access { EndsAccess (W.told world.old)
            (W.told world.new) self.old self.new letter parent result
            (wanted_unit vdev (place_of_device vdev self.old.units)
            (missing_parent self.old.seats letter parent)) }
        ensures changes { ChangesUnits (seen W.World world.old) (seen W.World world.new)
            (λ e. e ≡ Volume failed.Device) result }
        ensures unlooked { OnErr (wanted_unit vdev (place_of_device vdev self.old.units)
            (missing_parent self.old.seats letter parent))
            (seen W.World world.new ≡ seen W.World world.old) }
    {
        let place = self.wanted(vdev, letter, parent)?;
        let found = self.open(alloc, world, place);
        self.settle(place, letter, parent, found)
    }

    /// Changes the disk of an accessed letter in place, as `Minidisk`'s call does; the directory has this stamp then.
    pub fn change<W: World>(
        &mut self,
        alloc: Global,
        world: &mut W,
        letter: u8,
        change: &Change,
        stamp: &Stamp,
    ) -> Result<(), DiskFault>
        requires accessed { IsSome (item_at self.old.seats letter) }
        requires may { ForSome (item_at self.old.seats letter)
            (λ s. MayChange (W.told world.old) s.disk change.now) }
        requires stamp { is_stamp stamp.now ≡ true }
        ensures { IfSome (item_at self.old.seats letter)
            (λ s. ChangesSeat (seen W.World world.old) (seen W.World world.new)
            self.old self.new letter s (change_of change.now) stamp.now result) }
    {
        match &mut self.seats[letter as usize] {
            Some(seat) => {
                drop(seat.reading.take());
                change_minidisk(alloc, world, &mut seat.disk, change, stamp)
            }
            None => unreachable!(),
        }
    }

    /// A letter isn't accessed any more; `NotAccessed` exactly where it wasn't.
    pub fn release(&mut self, letter: u8) -> Result<(), SearchFault>
        ensures released { OnOk result (IsSome (item_at self.old.seats letter)
            × (self.new ≡ released letter self.old)) }
        ensures refused { IfErr result (λ e. (e ≡ NotAccessed letter)
            × (item_at self.old.seats letter ≡ None) × (self.new ≡ self.old)) }
    {
        if self.seated(letter).is_none() {
            return Err(SearchFault::NotAccessed(letter));
        }
        drop(self.seats[letter as usize].take());
        Ok(())
    }

    /// Releases an accessed letter, and marks its unit as in doubt.
    pub fn doubt(&mut self, letter: u8)
        requires { IsSome (item_at self.old.seats letter) }
        ensures { IfSome (item_at self.old.seats letter)
            (λ s. self.new ≡ released letter (marked s.letter.unit true self.old)) }
    {
        if let Some(seat) = self.seated(letter) {
            let unit = seat.unit;
            drop(self.seats[letter as usize].take());
            self.doubts[unit] = true;
        }
    }

    /// Whether a letter may be written: `NotAccessed` exactly where it isn't accessed, else `ReadOnly` exactly where its disk may only
    /// be read.
    pub fn find_write(&self, letter: u8) -> Result<(), SearchFault>
        ensures { result ≡ writing (item_at (letters_of self.now) letter) letter }
    {
        match self.seated(letter) {
            None => Err(SearchFault::NotAccessed(letter)),
            Some(seat) if seat.read_only => Err(SearchFault::ReadOnly(letter)),
            Some(_) => Ok(()),
        }
    }
}
