// The disks of letters.
ghost use Rattle.std.specs.Prelude.{◌≡◌, ◌<◌, ◌==◌, Bool, Some, None, length, slice_set, option_map};
ghost use Rattle.std.specs.Option.{option_copied};
ghost use Rattle.cms_search.specs.Searches.{has, item_at, may_find};
ghost use Rattle.cms_search.specs.Tables.{cleared, put_on, without};

use crate::readings::KeptReading;
use cms_disk::Minidisk;
use cms_operands::ReadMode;
use std::marker::Model;

/// The disk of a letter.
#[derive(Drop)]
pub struct Seated {
    pub(crate) disk: Minidisk,
    /// the place of its unit
    pub(crate) unit: usize,
    /// the letter whose extension it is
    pub(crate) parent: Option<u8>,
    /// it may only be read
    pub(crate) read_only: bool,
    /// one of its files that was read in part, of which nothing was written since
    pub(crate) reading: Option<KeptReading>,
}

impl Model for Seated {
    ghost use Rattle.cms_search.specs.Tables as tables;

    ghost Value = { tables.Seated };

    ghost view = { λ s. record {
      letter = record { unit = s.unit; parent = s.parent; read_only = s.read_only };
      disk = s.disk;
      reading = s.reading;
    } };
}

impl Seated {
    /// Whether a search of this mode finds a file of this mode number on it.
    pub fn may_find(&self, mode: &ReadMode, number: u8) -> bool
        ensures { result ≡ may_find mode.now self.now.letter number }
    {
        !(self.read_only && number == 0) && mode.admits(number)
    }
}

/// The disk of a letter.
pub fn seat_at(seats: &[Option<Seated>], letter: usize) -> Option<&Seated>
    ensures { option_copied result ≡ item_at seats.now letter }
{
    match seats.get(letter) {
        Some(Some(seat)) => Some(seat),
        _ => None,
    }
}

// Whether the disk of a letter is of this unit.
fn is_of_unit(seats: &[Option<Seated>], letter: usize, unit: usize) -> bool
    ensures { result ≡ has (λ s. s.letter.unit == unit) (item_at seats.now letter) }
{
    match seat_at(seats, letter) {
        Some(seat) => seat.unit == unit,
        None => false,
    }
}

/// A letter has no disk any more.
pub fn clear(seats: &mut Vec<Option<Seated>>, letter: usize)
    requires { letter < length seats.old.items }
    ensures { seats.new.items ≡ cleared letter seats.old.items }
{
    drop(seats[letter].take());
}

/// A unit leaves its letter.
pub fn vacate(seats: &mut Vec<Option<Seated>>, unit: usize)
    ensures { seats.new.items ≡ without (λ s. s.letter.unit == unit) seats.old.items }
{
    for letter in 0..seats.len() {
        if is_of_unit(seats, letter, unit) {
            clear(seats, letter);
        }
    }
}

/// Seats a disk on a letter: its unit leaves its old letter, and the letter its old unit.
pub fn put_on(seats: &mut Vec<Option<Seated>>, letter: usize, seat: Seated)
    requires { letter < length seats.old.items }
    ensures { seats.new.items ≡ put_on (λ s. s.letter.unit) seat letter seats.old.items }
{
    vacate(seats, seat.unit);
    drop(seats[letter].replace(seat));
}
