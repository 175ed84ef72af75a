// Records as they are written into a host file.
ghost use Rattle.std.specs.Prelude.{◌≡◌, ◌≤◌, ◌+◌, ◌++◌, length, vec_len, vec_capacity, OnOk, OnErr};
ghost use Rattle.cms_fields.specs.Limits.{longest_record};
ghost use Rattle.mini_forms.specs.Lines.{text_of, utf8};
ghost use Rattle.mini_forms.specs.Output.{is_line, is_plain, line_of, one_written, shown};

use crate::form::Form;
use crate::page::character_of;
use cms_names::Format;
use cms_records::put_var;
use cms_text::{BLANK, without_trailing_blanks};
use std::alloc::AllocError;

/// The codes of line feed and carriage return.
const LINE_FEED: u8 = 0x25;

const CARRIAGE_RETURN: u8 = 0x0D;

/// Whether a record can be a line: it has no line feed and no carriage return.
pub fn is_line(bytes: &[u8]) -> bool
    ensures { result ≡ is_line bytes.now }
{
    bytes.iter().all(|code| is_plain(*code))
}

fn is_plain(code: u8) -> bool
    ensures { result ≡ is_plain code }
{
    code != LINE_FEED && code != CARRIAGE_RETURN
}

/// Appends what a form writes of a record of at least one byte and at most 65,535, in a file of this format. Without memory
/// nothing is appended.
pub fn write_record(
    into: &mut Vec<u8>,
    form: Form,
    format: Format,
    bytes: &[u8],
) -> Result<(), AllocError>
    requires some { 1 ≤ length bytes.now }
    requires short { length bytes.now ≤ longest_record }
    ensures ok { OnOk result (into.new.items
        ≡ into.old.items ++ one_written form format bytes.now) }
    ensures err { OnErr result (into.new.items ≡ into.old.items) }
{
    match form {
        Form::Text => write_line(into, format, bytes),
        Form::Binary => into.extend_from_slice(bytes),
        Form::Records => put_var(into, bytes),
    }
}

#[tactic(auto, unfolding(crate::specs::Output::line_of))]
fn write_line(into: &mut Vec<u8>, format: Format, bytes: &[u8]) -> Result<(), AllocError>
    requires { length bytes.now ≤ longest_record }
    ensures ok { OnOk result (into.new.items ≡ into.old.items ++ line_of format bytes.now) }
    ensures err { OnErr result (into.new.items ≡ into.old.items) }
{
    let line = shown(format, bytes);
    into.reserve(2 * line.len() + 1)?;
    put_text(into, line);
    into.push_reserved(b'\n');
    Ok(())
}

// What a line shows of a record.
#[tactic(auto, unfolding(crate::specs::Output::shown))]
fn shown(format: Format, bytes: &[u8]) -> &[u8]
    ensures shown { result.now ≡ shown format bytes.now }
    ensures short { length result.now ≤ length bytes.now }
{
    match (format, bytes) {
        (Format::F, _) => without_trailing_blanks(bytes),
        (Format::V, [BLANK]) => &[],
        (Format::V, _) => bytes,
    }
}

// Appends the characters of codes; there is room for two bytes each, and one more.
fn put_text(into: &mut Vec<u8>, codes: &[u8])
    requires { vec_len into.old + (length codes.now + length codes.now) + 1
        ≤ vec_capacity into.old }
    ensures text { into.new.items ≡ into.old.items ++ text_of codes.now }
    ensures room { vec_len into.new + 1 ≤ vec_capacity into.new }
{
    for code in codes {
        put_character(into, character_of(*code));
    }
}

// Appends a character; there is room for two bytes.
#[tactic(auto, unfolding(crate::specs::Lines::utf8))]
fn put_character(into: &mut Vec<u8>, character: u8)
    requires { vec_len into.old + 2 ≤ vec_capacity into.old }
    ensures text { into.new.items ≡ into.old.items ++ utf8 character }
    ensures few { vec_len into.new ≤ vec_len into.old + 2 }
    ensures capacity { vec_capacity into.new ≡ vec_capacity into.old }
{
    if character < 0x80 {
        into.push_reserved(character);
    } else if character < 0xC0 {
        into.push_reserved(0xC2);
        into.push_reserved(character);
    } else {
        into.push_reserved(0xC3);
        into.push_reserved(character - 0x40);
    }
}
