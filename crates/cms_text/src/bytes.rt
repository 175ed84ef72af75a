//! Bytes from a place on, numbers in bytes, the highest byte first, and bytes that are written over others.
ghost use Rattle.std.specs.Prelude.{◌≡◌, ◌+◌, ◌≤◌, drop, length};
ghost use Rattle.byteorder.specs.Endian.{big_bytes};
ghost use Rattle.cms_text.specs.Bytes.{word, half, overwritten};

use byteorder::{BigEndian, ByteOrder};

/// The number in the four bytes at a place.
#[tactic(auto, unfolding(crate::specs::Bytes::word))]
pub fn word_at(bytes: &[u8], at: usize) -> u32
    requires { at + 4 ≤ length bytes.now }
    ensures { result ≡ word bytes.now at }
{
    BigEndian::read_u32(&bytes[at..])
}

/// The number in the two bytes at a place.
#[tactic(auto, unfolding(crate::specs::Bytes::half))]
pub fn half_at(bytes: &[u8], at: usize) -> u16
    requires { at + 2 ≤ length bytes.now }
    ensures { result ≡ half bytes.now at }
{
    BigEndian::read_u16(&bytes[at..])
}

/// The bytes from a place on.
pub fn after(bytes: &[u8], at: usize) -> &[u8]
    requires { at ≤ length bytes.now }
    ensures bytes { result.now ≡ drop at bytes.now }
    ensures size { length result.now + at ≡ length bytes.now }
{
    &bytes[at..]
}

/// Writes a field over the bytes at a place.
pub fn put(into: &mut [u8], at: usize, field: &[u8])
    requires { at + length field.now ≤ length into.old }
    ensures { into.new ≡ overwritten at field.now into.old }
{
    into[at..at + field.len()].copy_from_slice(field);
}

/// Writes a number over the four bytes at a place.
pub fn put_word(into: &mut [u8], at: usize, number: u32)
    requires { at + 4 ≤ length into.old }
    ensures { into.new ≡ overwritten at (big_bytes 4 number) into.old }
{
    let mut field = [0; 4];
    BigEndian::write_u32(&mut field, number);
    put(into, at, &field);
}
