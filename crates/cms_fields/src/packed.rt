// Stamps in bytes: a date with two decimal digits in each byte, and a flag for its century.
ghost use Rattle.std.specs.Prelude.{◌≡◌, true, ◌+◌, ◌≤◌, length, IfSome, Some};
ghost use Rattle.cms_fields.specs.Stamps.{is_stamp, is_packed, unpacked, packed, century, stamp_at, are_packed, has_stamp, stamp_in, stamp_bytes, stamp_flags};

use crate::time::Stamp;

/// The bit of the flags that is set for the years 2000 to 2099.
const THIS_CENTURY: u8 = 0x08;

fn is_packed(byte: u8) -> bool
    ensures { result ≡ is_packed byte }
{
    byte / 16 < 10 && byte % 16 < 10
}

fn unpacked(byte: u8) -> u8
    ensures { result ≡ unpacked byte }
{
    byte / 16 * 10 + byte % 16
}

fn packed(number: u8) -> u8
    requires { number ≤ 99 }
    ensures { result ≡ packed number }
{
    number / 10 * 16 + number % 10
}

#[tactic(auto, unfolding(crate::specs::Stamps::are_packed))]
fn are_packed(bytes: &[u8], at: usize) -> bool
    requires { at + 6 ≤ length bytes.now }
    ensures { result ≡ are_packed bytes.now at }
{
    is_packed(bytes[at])
        && is_packed(bytes[at + 1])
        && is_packed(bytes[at + 2])
        && is_packed(bytes[at + 3])
        && is_packed(bytes[at + 4])
        && is_packed(bytes[at + 5])
}

// The first year of the century that the flags tell.
fn century(flags: u8) -> u16
    ensures { result ≡ century flags }
{
    if flags & THIS_CENTURY == 0 {
        1900
    } else {
        2000
    }
}

// The stamp in the six bytes at a place, which say the year of the century, month, day, hour, minute
// and second in two decimal digits each; the flags tell the century.
#[tactic(auto, unfolding(crate::specs::Stamps::stamp_at))]
pub(crate) fn stamp_at(bytes: &[u8], at: usize, flags: u8) -> Stamp
    requires { at + 6 ≤ length bytes.now }
    ensures { result ≡ stamp_at bytes.now at flags }
{
    Stamp {
        year: century(flags) + u16::from(unpacked(bytes[at])),
        month: unpacked(bytes[at + 1]),
        day: unpacked(bytes[at + 2]),
        hour: unpacked(bytes[at + 3]),
        minute: unpacked(bytes[at + 4]),
        second: unpacked(bytes[at + 5]),
    }
}

// Whether the six bytes at a place, with these flags, spell a stamp.
#[tactic(auto, unfolding(crate::specs::Stamps::has_stamp))]
pub(crate) fn has_stamp(bytes: &[u8], at: usize, flags: u8) -> bool
    requires { at + 6 ≤ length bytes.now }
    ensures { result ≡ has_stamp bytes.now at flags }
{
    are_packed(bytes, at) && stamp_at(bytes, at, flags).is_valid()
}

/// The stamp that a date and its flags spell. The date has year, month, day, hour, minute and second
/// in two decimal digits each, and of the flags the bit 08 is set for the years 2000 to 2099 and clear
/// for 1900 to 1999; the others are ignored. None where there is no such date and time. The bytes
/// of the date are the ones that are written for the stamp.
#[tactic(auto, unfolding(crate::specs::Stamps::stamp_in))]
pub fn read_stamp(date: &[u8], flags: u8) -> Option<Stamp>
    requires { length date.now ≡ 6 }
    ensures read { result ≡ stamp_in date.now flags }
    ensures spelled { IfSome result (λ s. stamp_bytes s ≡ date.now) }
    ensures century { IfSome result (λ s. century (stamp_flags s) ≡ century flags) }
{
    if has_stamp(date, 0, flags) {
        Some(stamp_at(date, 0, flags))
    } else {
        None
    }
}

/// Writes the date of a stamp, and gives the flags that tell its century, with all other bits clear.
/// Both spell this stamp.
pub fn write_stamp(stamp: &Stamp, date: &mut [u8]) -> u8
    requires room { length date.old ≡ 6 }
    requires valid { is_stamp stamp.now ≡ true }
    ensures written { date.new ≡ stamp_bytes stamp.now }
    ensures flags { result ≡ stamp_flags stamp.now }
    ensures spells { stamp_in date.new result ≡ Some stamp.now }
{
    date.copy_from_slice(&packed_stamp(stamp));
    stamp_flags(stamp)
}

// The flags that tell a stamp's century.
#[tactic(auto, unfolding(crate::specs::Stamps::stamp_flags))]
pub(crate) fn stamp_flags(stamp: &Stamp) -> u8
    ensures { result ≡ stamp_flags stamp.now }
{
    if stamp.year >= 2000 { THIS_CENTURY } else { 0 }
}

// The six bytes of the date that spell a stamp.
#[tactic(auto, unfolding(crate::specs::Stamps::stamp_bytes))]
pub(crate) fn packed_stamp(stamp: &Stamp) -> [u8; 6]
    requires { is_stamp stamp.now ≡ true }
    ensures { result ≡ stamp_bytes stamp.now }
{
    [
        packed((stamp.year % 100) as u8),
        packed(stamp.month),
        packed(stamp.day),
        packed(stamp.hour),
        packed(stamp.minute),
        packed(stamp.second),
    ]
}
