// Readings of files that the disks of letters keep.
ghost use Rattle.std.specs.Prelude.{◌≡◌, ◌<◌, ◌↔◌, None, Some, IfSome, IsSome, IsTrue, length, map, option_map, slice_set};
ghost use Rattle.std.specs.Option.{ForSome};
ghost use Rattle.cms_search.specs.Searches.{item_at};
ghost use Rattle.cms_search.specs.Tables.{IsReadingOf, Stood, reading_on, unread_seat, with_reading, without_readings};

use crate::seated::Seated;
use crate::table::AccessTable;
use cms_disk::Cursor;
use cms_names::Name;

/// A file that was read in part, behind the last record that it handed out.
#[derive(Drop)]
pub struct KeptReading {
    /// the file's name
    pub name: Name,
    /// how many of its records are behind it
    pub count: u32,
    /// the others are left to it
    pub cursor: Cursor,
}

// Whether a reading is of the file of a name and stands behind so many records.
fn stands(reading: &KeptReading, name: &Name, count: u32) -> bool
    ensures { IsTrue result ↔ Stood name.now count reading.now }
{
    reading.name == *name && reading.count == count
}

// The cursor of a reading, where that is of the file of a name and stands behind so many records.
fn standing(kept: Option<KeptReading>, name: &Name, count: u32) -> Option<Cursor>
    ensures some { IfSome result
        (λ c. kept ≡ Some (record { name = name.now; count = count; cursor = c })) }
    ensures none { result ≡ None → IfSome kept (λ r. Stood name.now count r → ⊥) }
{
    let reading = kept?;
    if !stands(&reading, name, count) {
        drop(reading);
        return None;
    }
    Some(reading.cursor)
}

// The disk of a letter keeps no reading.
fn drop_reading(seats: &mut Vec<Option<Seated>>, letter: usize)
    requires { letter < length seats.old.items }
    ensures { seats.new.items ≡ slice_set seats.old.items letter
        (option_map unread_seat (item_at seats.old.items letter)) }
{
    match &mut seats[letter] {
        Some(seat) => drop(seat.reading.take()),
        None => {}
    }
}

// The disks of these letters keep no readings.
fn drop_all(seats: &mut Vec<Option<Seated>>)
    ensures { seats.new.items ≡ map (λ x. option_map unread_seat x) seats.old.items }
{
    for letter in 0..seats.len() {
        drop_reading(seats, letter);
    }
}

impl AccessTable {
    /// No disk keeps a reading.
    pub fn drop_readings(&mut self)
        ensures { self.new ≡ without_readings self.old }
    {
        drop_all(&mut self.seats);
    }

    /// Takes the reading that the disk of an accessed letter keeps, so that it keeps none; the cursor is given where the reading is of the
    /// file of a name and stands behind so many records, and else it is dropped.
    pub fn take_reading(&mut self, letter: u8, name: &Name, count: u32) -> Option<Cursor>
        requires { IsSome (item_at self.old.seats letter) }
        ensures taken { self.new ≡ with_reading letter None self.old }
        ensures some { IfSome result (λ c. reading_on self.old letter
            ≡ Some (record { name = name.now; count = count; cursor = c })) }
        ensures none { result ≡ None
            → IfSome (reading_on self.old letter) (λ r. Stood name.now count r → ⊥) }
        ensures sound { IfSome result (λ c. ForSome (item_at self.old.seats letter)
            (λ s. IsReadingOf s.disk (record { name = name.now; count = count; cursor = c }))) }
    {
        match &mut self.seats[letter as usize] {
            Some(seat) => standing(seat.reading.take(), name, count),
            None => unreachable!(),
        }
    }

    /// The disk of an accessed letter keeps a reading of one of its files, instead of the one that it kept.
    pub fn keep_reading(&mut self, letter: u8, reading: KeptReading)
        requires accessed { IsSome (item_at self.old.seats letter) }
        requires sound { ForSome (item_at self.old.seats letter)
            (λ s. IsReadingOf s.disk reading) }
        ensures { self.new ≡ with_reading letter (Some reading) self.old }
    {
        match &mut self.seats[letter as usize] {
            Some(seat) => drop(seat.reading.replace(reading)),
            None => unreachable!(),
        }
    }
}
