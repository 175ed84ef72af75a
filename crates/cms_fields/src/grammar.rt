// The single tests of an entry, and the fields that they read.
ghost use Rattle.std.specs.Prelude.{◌≡◌, ◌≤◌, ◌==◌, true, length, is_some, IfSome, ◌-◌};
ghost use Rattle.std.specs.List.{list_all};
ghost use Rattle.cms_text.specs.Bytes.{byte};
ghost use Rattle.cms_fields.specs.Entries.{part_in, is_part_field, has_name, name_at, has_mode, has_format, format_at, format_byte, fan_of, pointer_size, length_fits, counts_fit, levels_fit, has_pointer_size};

use crate::entry::Entry;
use crate::levels::is_shape;
use crate::limits::{LONGEST_RECORD, MOST_BYTES, MOST_RECORDS};
use cms_journal::BlockSize;
use cms_names::{Format, Name, Part, is_name_character};
use cms_text::BLANK;

// The part in a field of 8 bytes: 1 to 8 name characters and then blanks.
#[tactic(auto, unfolding(crate::specs::Entries::is_part_field))]
fn part_in(field: &[u8]) -> Option<Part>
    requires { length field.now ≡ 8 }
    ensures variant { is_some result ≡ is_part_field field.now }
    ensures value { IfSome result (λ part. part ≡ part_in field.now) }
{
    let end = name_length(field);
    if !is_blank(&field[end..]) {
        return None;
    }
    Part::read(&field[..end]).ok()
}

// How many name characters a field begins with.
fn name_length(field: &[u8]) -> usize
    ensures { result ≡ length (part_in field.now) }
{
    field.iter().take_while(|c| is_name_character(**c)).count()
}

fn is_blank(field: &[u8]) -> bool
    ensures { result ≡ list_all (λ x. x == 0x40) field.now }
{
    field.iter().all(|c| *c == BLANK)
}

// The name in an entry.
#[tactic(auto, unfolding(crate::specs::Entries::has_name, crate::specs::Entries::name_at))]
pub(crate) fn name_in(bytes: &[u8]) -> Option<Name>
    requires { 64 ≤ length bytes.now }
    ensures variant { is_some result ≡ has_name bytes.now }
    ensures value { IfSome result (λ name. name ≡ name_at bytes.now) }
{
    let file = part_in(&bytes[..8])?;
    let kind = part_in(&bytes[8..16])?;
    Some(Name { file, kind })
}

// The mode number in an entry, 0 to 6.
#[tactic(auto, unfolding(crate::specs::Entries::has_mode))]
pub(crate) fn mode_number_in(bytes: &[u8]) -> Option<u8>
    requires { 64 ≤ length bytes.now }
    ensures variant { is_some result ≡ has_mode bytes.now }
    ensures value { IfSome result (λ number. number ≡ byte bytes.now 25 - 0xF0) }
{
    match bytes[25] {
        0xF0..=0xF6 => Some(bytes[25] - 0xF0),
        _ => None,
    }
}

// The format in an entry.
#[tactic(auto, unfolding(crate::specs::Entries::has_format, crate::specs::Entries::format_at))]
pub(crate) fn format_in(bytes: &[u8]) -> Option<Format>
    requires { 64 ≤ length bytes.now }
    ensures variant { is_some result ≡ has_format bytes.now }
    ensures value { IfSome result (λ format. format ≡ format_at bytes.now) }
{
    match bytes[30] {
        0xC6 => Some(Format::F),
        0xE5 => Some(Format::V),
        _ => None,
    }
}

// The byte of a format.
pub(crate) fn format_byte(format: Format) -> u8
    ensures { result ≡ format_byte format }
{
    match format {
        Format::F => 0xC6,
        Format::V => 0xE5,
    }
}

/// The bytes of a pointer to a block of a file of this format.
pub fn pointer_size(format: Format) -> u8
    ensures { result ≡ pointer_size format }
{
    match format {
        Format::F => 4,
        Format::V => 12,
    }
}

// The pointers in a block.
fn fan_of(bsize: BlockSize, format: Format) -> u32
    ensures is { result ≡ fan_of bsize format }
    ensures wide { 2 ≤ result }
{
    match format {
        Format::F => bsize.bytes() / 4,
        Format::V => bsize.bytes() / 12,
    }
}

#[tactic(auto, unfolding(crate::specs::Entries::length_fits))]
pub(crate) fn length_fits(entry: &Entry) -> bool
    ensures { result ≡ length_fits entry.now }
{
    match entry.format {
        Format::F => matches!(entry.length, 1..=LONGEST_RECORD),
        Format::V => true,
    }
}

#[tactic(auto, unfolding(crate::specs::Entries::counts_fit))]
pub(crate) fn counts_fit(bsize: BlockSize, entry: &Entry) -> bool
    ensures { result ≡ counts_fit bsize entry.now }
{
    if entry.count < 1 || entry.count > MOST_RECORDS {
        return false;
    }
    match entry.format {
        Format::F => {
            let stored = u64::from(entry.count) * u64::from(entry.length);
            stored <= u64::from(MOST_BYTES)
                && u64::from(entry.blocks) == stored.div_ceil(u64::from(bsize.bytes()))
        }
        Format::V => entry.blocks >= 1 && entry.blocks <= MOST_BYTES / bsize.bytes(),
    }
}

#[tactic(auto, unfolding(crate::specs::Entries::levels_fit))]
pub(crate) fn levels_fit(bsize: BlockSize, entry: &Entry) -> bool
    ensures { result ≡ levels_fit bsize entry.now }
{
    is_shape(fan_of(bsize, entry.format), entry.blocks, entry.levels)
}

#[tactic(auto, unfolding(crate::specs::Entries::has_pointer_size))]
pub(crate) fn has_pointer_size(bytes: &[u8], format: Format) -> bool
    requires { 64 ≤ length bytes.now }
    ensures { format ≡ format_at bytes.now → result ≡ has_pointer_size bytes.now }
{
    bytes[52] == 0 || bytes[53] == pointer_size(format)
}
