// A place in a host file, and the sizes of the records there.
ghost use Rattle.std.specs.Prelude.{◌≡◌, ◌≤◌};
ghost use Rattle.cms_fields.specs.Limits.{longest_record};
ghost use Rattle.mini_forms.specs.RecordReads.{is_length, most_of, size_in, start_of, stored_size};

use crate::form::Layout;
use crate::step::Begun;
use cms_fields::LONGEST_RECORD;

/// What is begun of a record behind its length.
#[derive(Clone, Copy)]
pub enum Head {
    /// nothing
    Start,
    /// the first byte of its length
    High(u8),
    /// its length; so many of its bytes are to come
    Left(u32),
}

/// A place in a host file, with the size of all records where they have one.
#[derive(Clone, Copy)]
pub enum Place {
    /// within a line, behind what is begun
    Line(Option<u32>, Begun),
    /// within a record of this size
    Block(u32),
    /// within a record behind its length
    Stored(Option<u32>, Head),
}

pub fn start_of(layout: Layout) -> Place
    ensures { result ≡ start_of layout }
{
    match layout {
        Layout::Text(size) => Place::Line(size, Begun::Fresh),
        Layout::Binary(size) => Place::Block(size),
        Layout::Records(size) => Place::Stored(size, Head::Start),
    }
}

pub fn size_in(place: Place) -> Option<u32>
    ensures { result ≡ size_in place }
{
    match place {
        Place::Line(size, _) | Place::Stored(size, _) => size,
        Place::Block(size) => Some(size),
    }
}

// The most bytes of a record.
pub fn longest_at(place: Place) -> u32
    ensures { result ≡ most_of (size_in place) }
{
    size_in(place).unwrap_or(LONGEST_RECORD)
}

pub fn is_length(size: Option<u32>, length: u32) -> bool
    ensures { result ≡ is_length size length }
{
    match size {
        Some(size) => length == size,
        None => length >= 1,
    }
}

// How many bytes a record of this length fills as it is stored.
pub fn stored_size(place: Place, length: u32) -> u32
    requires { length ≤ longest_record }
    ensures { result ≡ stored_size (size_in place) length }
{
    match size_in(place) {
        Some(_) => length,
        None => 2 + length,
    }
}
