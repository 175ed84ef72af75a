// The lines of a file that is edited, with a current one.
ghost use Rattle.std.specs.Prelude.{◌≡◌, ◌≢◌, ◌==◌, ◌+◌, ◌^◌, ◌<◌, ◌≤◌, ◌++◌, nat_le, true, [], length, reverse, take, drop, position, IfOk, IfSome, OnOk, OnErr, vec_len};
ghost use Rattle.std.specs.List.{list_all};
ghost use Rattle.std.specs.Option.{option_copied};
ghost use Rattle.cms_text.specs.Limits.{longest_text};
ghost use Rattle.cms_edit.specs.Buffers as spec;
ghost use Rattle.cms_edit.specs.Edits.{contains};

use crate::line::FileLine;
use crate::place;
use cms_ext::{Record, Records};
use cms_text::{Line, Lines};
use std::alloc::{AllocError, Global};
use std::marker::Model;

/// The lines of a file that is edited, with a current one among them or the place before the first. Two lists meet behind the current
/// line, so that what is done there takes no more work in a long file.
#[derive(Drop)]
pub struct Buffer {
    /// the lines up to the current one
    above: Vec<FileLine>,
    /// those behind it, the last first
    below: Vec<FileLine>,
}

impl Model for Buffer {
    ghost use Rattle.std.specs.Prelude.{◌++◌, length, reverse};
    ghost use Rattle.cms_edit.specs.Buffers as buffers;

    ghost Value = { buffers.Buffer };

    ghost view = { λ b. record {
      lines = b.above.items ++ reverse b.below.items;
      current = length b.above.items;
    } };
}

// Moves so many lines from the end of one list to the end of another, the last first.
fn move_lines(
    from: &mut Vec<FileLine>,
    to: &mut Vec<FileLine>,
    count: usize,
) -> Result<(), AllocError>
    requires { count ≤ vec_len from.old }
    ensures lines { to.new.items ++ reverse from.new.items
        ≡ to.old.items ++ reverse from.old.items }
    ensures moved { OnOk result (length to.new.items ≡ length to.old.items + count) }
    ensures kept { OnErr result (to.new.items ≡ to.old.items) }
{
    to.reserve(count)?;
    for _ in 0..count {
        if let Some(line) = from.pop() {
            match to.push(line) {
                Ok(()) => {}
                Err(_) => unreachable!(),
            }
        }
    }
    Ok(())
}

// Adds so many lines from the end of a list, the last first.
fn push_last(
    alloc: Global,
    lines: &mut Lines,
    from: &[FileLine],
    most: usize,
) -> Result<(), AllocError>
    ensures { OnOk result (lines.new ≡ lines.old ++ take most (reverse from.now)) }
{
    for nth in 0..most.min(from.len()) {
        let line = &from[from.len() - 1 - nth];
        lines.push(Line::of(alloc, line.bytes())?)?;
    }
    Ok(())
}

// Adds the lines of a list to records.
fn push_records(alloc: Global, records: &mut Records, from: &[FileLine]) -> Result<(), AllocError>
    ensures { OnOk result (records.new ≡ records.old ++ from.now) }
{
    for line in from {
        records.push(Record::of(alloc, line.bytes())?)?;
    }
    Ok(())
}

// Adds the lines of a list to records, the last first.
fn push_records_back(
    alloc: Global,
    records: &mut Records,
    from: &[FileLine],
) -> Result<(), AllocError>
    ensures { OnOk result (records.new ≡ records.old ++ reverse from.now) }
{
    for nth in 0..from.len() {
        let line = &from[from.len() - 1 - nth];
        records.push(Record::of(alloc, line.bytes())?)?;
    }
    Ok(())
}

// How many lines stand behind the last one that contains a text.
fn last_with(text: &[u8], from: &[FileLine]) -> Option<usize>
    ensures place { result ≡ position (contains text.now) (reverse from.now) }
    ensures within { IfSome result (λ behind. behind < length from.now) }
{
    from.iter()
        .rev()
        .position(|line| place::contains(text, line.bytes()))
}

impl Buffer {
    /// No lines.
    pub fn new(alloc: Global) -> Buffer
        ensures { result ≡ record { lines = []; current = 0 } }
    {
        Buffer {
            above: Vec::new(alloc),
            below: Vec::new(alloc),
        }
    }

    /// The number of lines.
    pub fn len(&self) -> usize
        ensures { result ≡ length self.now.lines }
    {
        self.above.len() + self.below.len()
    }

    /// Whether no line is current: the place is before the first.
    pub fn is_at_top(&self) -> bool
        ensures { result ≡ (self.now.current == 0) }
    {
        self.above.is_empty()
    }

    /// The bytes of the current line, where there is one.
    pub fn line(&self) -> Option<&[u8]>
        ensures { self.now.current ≢ 0 → option_copied result ≡ spec.current_line self.now }
    {
        Some(self.above.last()?.bytes())
    }

    /// So many lines further down, at most the last. Without memory it stays as it was.
    pub fn move_down(&mut self, count: usize) -> Result<(), AllocError>
        ensures ok { OnOk result (self.new ≡ spec.moved_down count self.old) }
        ensures err { OnErr result (self.new ≡ self.old) }
    {
        let count = count.min(self.below.len());
        move_lines(&mut self.below, &mut self.above, count)
    }

    /// So many lines further up, at most to the place before the first. Without memory it stays as it was.
    pub fn move_up(&mut self, count: usize) -> Result<(), AllocError>
        ensures ok { OnOk result (self.new ≡ spec.moved_up count self.old) }
        ensures err { OnErr result (self.new ≡ self.old) }
    {
        let count = count.min(self.above.len());
        move_lines(&mut self.above, &mut self.below, count)
    }

    /// To the place before the first line. Without memory it stays as it was.
    pub fn move_to_top(&mut self) -> Result<(), AllocError>
        ensures ok { OnOk result (self.new ≡ spec.at 0 self.old) }
        ensures err { OnErr result (self.new ≡ self.old) }
    {
        let count = self.above.len();
        move_lines(&mut self.above, &mut self.below, count)
    }

    /// To the last line. Without memory it stays as it was.
    pub fn move_to_bottom(&mut self) -> Result<(), AllocError>
        ensures ok { OnOk result (self.new ≡ spec.at (length self.old.lines) self.old) }
        ensures err { OnErr result (self.new ≡ self.old) }
    {
        let count = self.below.len();
        move_lines(&mut self.below, &mut self.above, count)
    }

    /// So many lines from the current one on, as far as they are there.
    pub fn lines_from(&self, alloc: Global, count: usize) -> Result<Lines, AllocError>
        ensures { IfOk result (λ lines. lines ≡ spec.lines_from count self.now) }
    {
        let mut lines = Lines::new(alloc);
        if count == 0 {
            return Ok(lines);
        }
        push_last(alloc, &mut lines, &self.above, 1)?;
        push_last(alloc, &mut lines, &self.below, count - 1)?;
        Ok(lines)
    }

    /// How many lines stand between the current one and the next that contains a text.
    pub fn find_below(&self, text: &[u8]) -> Option<usize>
        ensures place { result
            ≡ position (contains text.now) (drop self.now.current self.now.lines) }
        ensures small { IfSome result (λ between. between + 1 < 2 ^ 64) }
    {
        last_with(text, &self.below)
    }

    /// Adds a line behind the current one, which is current then. Without memory it stays as it was.
    pub fn insert(&mut self, line: FileLine) -> Result<(), AllocError>
        ensures ok { OnOk result (self.new ≡ spec.inserted line self.old) }
        ensures err { OnErr result (self.new ≡ self.old) }
    {
        self.above.push(line)?;
        Ok(())
    }

    /// The current line becomes this one.
    pub fn replace(&mut self, line: FileLine)
        requires { self.old.current ≢ 0 }
        ensures { self.new ≡ spec.replaced line self.old }
    {
        let last = self.above.len() - 1;
        self.above[last] = line;
    }

    /// Takes out so many lines from the current one on, as far as they are there. The one behind them is current then, or the last.
    pub fn remove(&mut self, count: usize)
        requires { self.old.current ≢ 0 }
        ensures { self.new ≡ spec.removed count self.old }
    {
        let behind = self.below.len();
        if count == 0 {
            return;
        }
        self.below.truncate(behind.saturating_sub(count - 1));
        match self.below.pop() {
            Some(line) => self.replace(line),
            None => self.above.truncate(self.above.len() - 1),
        }
    }

    /// The lines as the records of a file.
    pub fn records(&self, alloc: Global) -> Result<Records, AllocError>
        ensures { IfOk result (λ records. records ≡ self.now.lines) }
    {
        let mut records = Records::new(alloc);
        push_records(alloc, &mut records, &self.above)?;
        push_records_back(alloc, &mut records, &self.below)?;
        Ok(records)
    }

    /// The records of a file as lines, at the place before the first.
    pub fn of_records(alloc: Global, records: &[Record]) -> Result<Buffer, AllocError>
        requires { list_all (λ line. nat_le (length line) longest_text) records.now ≡ true }
        ensures { IfOk result (λ b. b ≡ record { lines = records.now; current = 0 }) }
    {
        let mut below = Vec::with_capacity(alloc, records.len())?;
        for nth in 0..records.len() {
            let record = &records[records.len() - 1 - nth];
            below.push(FileLine::of(alloc, record.bytes())?)?;
        }
        Ok(Buffer {
            above: Vec::new(alloc),
            below,
        })
    }
}
