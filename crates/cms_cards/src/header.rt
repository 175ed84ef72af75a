// What a dump says of a file in front of its stored bytes.
ghost use Rattle.std.specs.Prelude.{◌≡◌, ◌≤◌, ◌==◌, true, length};
ghost use Rattle.std.specs.List.{list_all};
ghost use Rattle.cms_names.specs.Modes.{mode_number_of};
ghost use Rattle.cms_fields.specs.Entries.{format_byte, part_in};
ghost use Rattle.cms_fields.specs.Stamps.{is_stamp};
ghost use Rattle.cms_cards.specs.Headers as spec;

use cms_fields::{LONGEST_RECORD, Stamp, read_stamp, write_stamp};
use cms_names::{Format, Name, Part, is_name_character};
use cms_text::bytes::{put, put_word, word_at};
use cms_text::{BLANK, ZERO};

/// The bytes of a header.
pub(crate) const HEADER: usize = 37;

/// The name, mode number, format and sizes of a file, and its stamp.
#[derive(Clone, Copy)]
pub struct Header {
    pub name: Name,
    /// the mode number, 0 to 6
    pub number: u8,
    pub format: Format,
    /// the length of each record at F, of the longest at V, 1 to 65,535
    pub length: u32,
    /// the number of records
    pub count: u32,
    /// the bytes in which they are stored
    pub stored: u32,
    pub stamp: Stamp,
}

// The byte of a format.
fn format_byte(format: Format) -> u8
    ensures { result ≡ format_byte format }
{
    match format {
        Format::F => 0xC6,
        Format::V => 0xE5,
    }
}

// The format of a byte.
#[tactic(auto, unfolding(crate::specs::Headers::format_of))]
fn format_of(byte: u8) -> Option<Format>
    ensures { result ≡ spec.format_of byte }
{
    match byte {
        0xC6 => Some(Format::F),
        0xE5 => Some(Format::V),
        _ => None,
    }
}

// The mode number of a digit.
#[tactic(auto, unfolding(cms_names::specs::Modes::mode_number_of))]
fn mode_number_of(digit: u8) -> Option<u8>
    ensures { result ≡ mode_number_of digit }
{
    match digit {
        0xF0..=0xF6 => Some(digit - 0xF0),
        _ => None,
    }
}

// How many name characters a field begins with.
fn name_length(field: &[u8]) -> usize
    ensures { result ≡ length (part_in field.now) }
{
    field.iter().take_while(|c| is_name_character(**c)).count()
}

fn is_blank(field: &[u8]) -> bool
    ensures { result ≡ list_all (λ x. x == 0x40) field.now }
{
    field.iter().all(|c| *c == BLANK)
}

// The part of a name in a field of 8 bytes: 1 to 8 name characters and then blanks.
fn field_part(field: &[u8]) -> Option<Part>
    requires { length field.now ≡ 8 }
    ensures { result ≡ spec.field_part field.now }
{
    let end = name_length(field);
    if !is_blank(&field[end..]) {
        return None;
    }
    Part::read(&field[..end]).ok()
}

// The name with which a text begins.
#[tactic(auto, unfolding(crate::specs::Headers::name_in))]
fn name_in(text: &[u8]) -> Option<Name>
    requires { 16 ≤ length text.now }
    ensures { result ≡ spec.name_in text.now }
{
    let file = field_part(&text[..8])?;
    let kind = field_part(&text[8..16])?;
    Some(Name { file, kind })
}

// The stamp of a header.
fn stamp_in(text: &[u8]) -> Option<Stamp>
    requires { 37 ≤ length text.now }
    ensures { result ≡ spec.header_stamp text.now }
{
    read_stamp(&text[30..36], text[36])
}

impl Header {
    /// Its bytes.
    pub(crate) fn bytes(&self) -> [u8; HEADER]
        requires number { self.now.number ≤ 6 }
        requires stamp { is_stamp self.now.stamp ≡ true }
        ensures { result ≡ spec.header_bytes self.now }
    {
        let mut bytes = [0; HEADER];
        let mut date = [0; 6];
        let flags = write_stamp(&self.stamp, &mut date);
        put(&mut bytes, 0, self.name.file.padded());
        put(&mut bytes, 8, self.name.kind.padded());
        put(&mut bytes, 16, &[ZERO + self.number]);
        put(&mut bytes, 17, &[format_byte(self.format)]);
        put_word(&mut bytes, 18, self.length);
        put_word(&mut bytes, 22, self.count);
        put_word(&mut bytes, 26, self.stored);
        put(&mut bytes, 30, &date);
        put(&mut bytes, 36, &[flags]);
        bytes
    }

    // Whether its sizes are those of a file.
    fn sizes_fit(&self) -> bool
        ensures { result ≡ spec.sizes_fit self.now }
    {
        matches!(self.length, 1..=LONGEST_RECORD) && self.count >= 1
    }

    // The header with which a text of 37 bytes or more begins.
    #[tactic(auto, unfolding(crate::specs::Headers::fields_in))]
    fn fields_in(text: &[u8]) -> Option<Header>
        requires { 37 ≤ length text.now }
        ensures { result ≡ spec.fields_in text.now }
    {
        let header = Header {
            name: name_in(text)?,
            number: mode_number_of(text[16])?,
            format: format_of(text[17])?,
            length: word_at(text, 18),
            count: word_at(text, 22),
            stored: word_at(text, 26),
            stamp: stamp_in(text)?,
        };
        if !header.sizes_fit() {
            return None;
        }
        Some(header)
    }

    /// The header with which a text begins; none where it is none of a file.
    pub(crate) fn read(text: &[u8]) -> Option<Header>
        ensures { result ≡ spec.header_in text.now }
    {
        if text.len() < HEADER {
            return None;
        }
        Header::fields_in(text)
    }
}
