// Records that are stacked as lines, and lines that are written as records.
ghost use Rattle.std.specs.Prelude.{◌≡◌, ◌≤◌, IfOk, length, take};
ghost use Rattle.cms_text.specs.Limits.{longest_text};
ghost use Rattle.cms_files.specs.Gathered.{IsGathered};
ghost use Rattle.cms_execio.specs.Records as spec;

use cms_files::Gathered;
use cms_line::Line;
use cms_names::Format;
use cms_text::{BLANK, LONGEST_TEXT, without_trailing_blanks};
use std::alloc::{AllocError, Global};

// The part of a record that a line has room for.
fn front_of(text: &[u8]) -> &[u8]
    ensures text { result.now ≡ take longest_text text.now }
    ensures short { length result.now ≤ longest_text }
{
    &text[..LONGEST_TEXT.min(text.len())]
}

// What of a record is stacked.
fn kept_of(text: &[u8], strips: bool) -> &[u8]
    ensures text { result.now ≡ spec.stacked_line strips text.now }
    ensures short { length result.now ≤ longest_text }
{
    let front = front_of(text);
    if strips {
        without_trailing_blanks(front)
    } else {
        front
    }
}

/// The line as which a record is stacked: cut to a line's length, and where that is wanted without the blanks at its end then.
pub fn stacked_line(alloc: Global, text: &[u8], strips: bool) -> Result<Line, AllocError>
    ensures { IfOk result (λ line. line ≡ spec.stacked_line strips text.now) }
{
    Line::of(alloc, kept_of(text, strips))
}

/// The text of a line's record: no record is empty, so an empty line is one blank.
pub fn or_blank(line: &[u8]) -> &[u8]
    ensures text { result.now ≡ spec.or_blank line.now }
    ensures some { 1 ≤ length result.now }
    ensures short { length line.now ≤ longest_text → length result.now ≤ longest_text }
{
    if line.is_empty() { &[BLANK] } else { line }
}

/// The records that lines are in a file of a format, and of a length at F.
pub fn gather_lines(
    alloc: Global,
    format: Format,
    size: u32,
    lines: &[Line],
) -> Result<Gathered, AllocError>
    ensures { IfOk result (IsGathered format size (spec.records_of format size lines.now)) }
{
    let mut gathered = Gathered::new(alloc, format, size);
    for line in lines {
        gathered.push(or_blank(line.bytes()))?;
    }
    Ok(gathered)
}
