// What a subcommand does.
ghost use Rattle.std.specs.Prelude.{◌≡◌, ◌≢◌, ◌≤◌, ℤ, length, Some, IfOk, OnErr};
ghost use Rattle.std.specs.Option.{option_map};
ghost use Rattle.cms_text.specs.Limits.{longest_text};
ghost use Rattle.cms_edit.specs.Buffers as buffers;
ghost use Rattle.cms_edit.specs.Edits as spec;
ghost use Rattle.cms_edit.specs.Edits.{Stays, StaysAt, came};
ghost use Rattle.cms_edit.specs.Subcommands.{HasLines, IsLine, shown};

use crate::buffer::Buffer;
use crate::line::FileLine;
use crate::place::{place_in, with_text};
use crate::subcommand::{Subcommand, subcommand_of};
use cms_text::{LONGEST_TEXT, Lines};
use std::alloc::{AllocError, Global};

/// The most lines of a buffer.
pub const MOST_LINES: usize = 10_000;

/// The code of what can't be done.
pub const UNABLE: i32 = 24;

/// The code where a text isn't found.
pub const NOT_FOUND: i32 = 28;

/// The code where there is no room for a line.
pub const NO_ROOM: i32 = 40;

/// What comes of a subcommand.
#[derive(Drop)]
pub enum Outcome {
    /// it is done, or with a code above 0 it isn't and the buffer stays
    Code(i32),
    /// lines are said, and the buffer stays
    Said(Lines),
    /// the buffer, which stays, is put to its file: the reply tells the code
    Put,
}

// A line is added behind the current one.
fn input(alloc: Global, buffer: &mut Buffer, text: &[u8]) -> Result<i32, AllocError>
    requires { IsLine text.now }
    ensures ok { IfOk result (λ code.
        spec.input buffer.old text.now ≡ spec.ended buffer.new code) }
    ensures stays { IfOk result (λ code. StaysAt buffer.old buffer.new code) }
    ensures err { OnErr result (buffer.new ≡ buffer.old) }
{
    if buffer.len() >= MOST_LINES {
        return Ok(NO_ROOM);
    }
    buffer.insert(FileLine::of(alloc, text)?)?;
    Ok(0)
}

// The current line becomes this one.
fn replace(alloc: Global, buffer: &mut Buffer, text: &[u8]) -> Result<i32, AllocError>
    requires { IsLine text.now }
    ensures ok { IfOk result (λ code. spec.on_line buffer.old
        (spec.goes_on (buffers.replaced text.now buffer.old)) ≡ spec.ended buffer.new code) }
    ensures stays { IfOk result (λ code. StaysAt buffer.old buffer.new code) }
    ensures err { OnErr result (buffer.new ≡ buffer.old) }
{
    if buffer.is_at_top() {
        return Ok(UNABLE);
    }
    buffer.replace(FileLine::of(alloc, text)?);
    Ok(0)
}

// So many lines are taken out, from the current one on.
fn delete(buffer: &mut Buffer, count: u32) -> i32
    ensures ok { spec.on_line buffer.old (spec.goes_on (buffers.removed count buffer.old))
        ≡ spec.ended buffer.new result }
    ensures stays { StaysAt buffer.old buffer.new result }
{
    if buffer.is_at_top() {
        return UNABLE;
    }
    buffer.remove(count as usize);
    0
}

// The next line that contains a text is current.
fn locate(buffer: &mut Buffer, text: &[u8]) -> Result<i32, AllocError>
    ensures ok { IfOk result (λ code.
        spec.locate buffer.old text.now ≡ spec.ended buffer.new code) }
    ensures stays { IfOk result (λ code. StaysAt buffer.old buffer.new code) }
    ensures err { OnErr result (buffer.new ≡ buffer.old) }
{
    match buffer.find_below(text) {
        Some(between) => {
            buffer.move_down(between + 1)?;
            Ok(0)
        }
        None => Ok(NOT_FOUND),
    }
}

// The buffer is put, if it has a line.
fn save(buffer: &Buffer) -> Outcome
    ensures ok { (told : ℤ) → spec.save buffer.now told ≡ came buffer.now told result }
    ensures stays { Stays buffer.now buffer.now result }
{
    if buffer.len() == 0 {
        Outcome::Code(UNABLE)
    } else {
        Outcome::Put
    }
}

// The current line becomes the changed one, if it may be a line.
fn put_changed(buffer: &mut Buffer, changed: Vec<u8>) -> i32
    requires { buffer.old.current ≢ 0 }
    ensures ok { spec.with_changed buffer.old (Some changed.items)
        ≡ spec.ended buffer.new result }
    ensures stays { StaysAt buffer.old buffer.new result }
{
    if !(1..=LONGEST_TEXT).contains(&changed.len()) {
        return UNABLE;
    }
    buffer.replace(FileLine::take(changed));
    0
}

// In the current line one text becomes another.
fn change(alloc: Global, buffer: &mut Buffer, from: &[u8], to: &[u8]) -> Result<i32, AllocError>
    ensures ok { IfOk result (λ code. spec.on_line buffer.old
        (spec.change buffer.old from.now to.now) ≡ spec.ended buffer.new code) }
    ensures stays { IfOk result (λ code. StaysAt buffer.old buffer.new code) }
    ensures err { OnErr result (buffer.new ≡ buffer.old) }
{
    if buffer.is_at_top() || from.is_empty() {
        return Ok(UNABLE);
    }
    match changed_line(alloc, buffer, from, to)? {
        Some(changed) => Ok(put_changed(buffer, changed)),
        None => Ok(NOT_FOUND),
    }
}

// The current line with one text in place of another, where that stands in it.
fn changed_line(
    alloc: Global,
    buffer: &Buffer,
    from: &[u8],
    to: &[u8],
) -> Result<Option<Vec<u8>>, AllocError>
    requires { buffer.now.current ≢ 0 }
    ensures { IfOk result (λ changed. spec.changed_current buffer.now from.now to.now
        ≡ option_map (λ bytes. bytes.items) changed) }
{
    let Some(line) = buffer.line() else {
        return Ok(None);
    };
    match place_in(from, line) {
        Some(place) => Ok(Some(with_text(alloc, from, to, line, place)?)),
        None => Ok(None),
    }
}

// What a subcommand does.
#[tactic(auto, unfolding(crate::specs::Edits::done_by))]
fn done_by(
    alloc: Global,
    buffer: &mut Buffer,
    subcommand: Subcommand<'_>,
) -> Result<Outcome, AllocError>
    requires { HasLines subcommand }
    ensures ok { (told : ℤ) → IfOk result (λ outcome.
        spec.done_by buffer.old (shown subcommand.entry) told ≡ came buffer.new told outcome) }
    ensures stays { IfOk result (λ outcome. Stays buffer.old buffer.new outcome) }
    ensures err { OnErr result (buffer.new ≡ buffer.old) }
{
    match subcommand {
        Subcommand::Top => buffer.move_to_top()?,
        Subcommand::Bottom => buffer.move_to_bottom()?,
        Subcommand::Next(count) => buffer.move_down(count as usize)?,
        Subcommand::Up(count) => buffer.move_up(count as usize)?,
        Subcommand::TypeLines(count) => {
            return Ok(Outcome::Said(buffer.lines_from(alloc, count as usize)?));
        }
        Subcommand::Input(text) => return Ok(Outcome::Code(input(alloc, buffer, text)?)),
        Subcommand::Replace(text) => return Ok(Outcome::Code(replace(alloc, buffer, text)?)),
        Subcommand::Delete(count) => return Ok(Outcome::Code(delete(buffer, count))),
        Subcommand::Locate(text) => return Ok(Outcome::Code(locate(buffer, text)?)),
        Subcommand::Change(from, to) => {
            return Ok(Outcome::Code(change(alloc, buffer, from, to)?));
        }
        Subcommand::Save => return Ok(save(buffer)),
        Subcommand::End => {}
    }
    Ok(Outcome::Code(0))
}

/// What a line of at most 255 bytes does to a buffer, which may be no subcommand. Without memory the buffer stays.
pub fn edit(alloc: Global, buffer: &mut Buffer, line: &[u8]) -> Result<Outcome, AllocError>
    requires { length line.now ≤ longest_text }
    ensures ok { (told : ℤ) → IfOk result (λ outcome.
        spec.edit_told buffer.old line.now told ≡ came buffer.new told outcome) }
    ensures stays { IfOk result (λ outcome. Stays buffer.old buffer.new outcome) }
    ensures err { OnErr result (buffer.new ≡ buffer.old) }
{
    match subcommand_of(line) {
        Some(subcommand) => done_by(alloc, buffer, subcommand),
        None => Ok(Outcome::Code(UNABLE)),
    }
}
