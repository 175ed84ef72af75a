// The lines of a console.
ghost use Rattle.std.specs.Prelude.{◌≡◌, ◌==◌, ◌+◌, ◌<◌, ◌≤◌, ℕ, Some, true, false, length, drop, [], IfOk, IfErr, OnOk, OnErr, MatchBool};
ghost use Rattle.std.specs.List.{position};
ghost use Rattle.cms_journal.specs.Causes.{HasCause};
ghost use Rattle.cms_model.specs.Items.{short_line, without_return, console_code, items};
ghost use Rattle.cms_line.specs.ConsoleState.{fresh, state};
ghost use Rattle.cms_line.specs.Consoles.{item_of, Took, Stayed, LineCause};
ghost use Rattle.cms_line.specs.ConsoleSteps.{begins_in_line, goes_past, room_of, LineEnds, LineIsLast, IsFront, Gives, GivesLine, IsStep, Filled};
ghost use Rattle.cms_text.specs.Limits.{longest_text};

use crate::Line;
use cms_ebcdic::from_host;
use cms_text::LONGEST_TEXT;
use cms_world::World;
use std::alloc::{AllocError, Global};
use std::marker::Model;

// What is read at once.
const READ: usize = 4096;

/// What a console gives: a line of the script, or its end.
#[derive(Drop)]
pub enum ConsoleLine {
    /// a line in EBCDIC
    Text(Line),
    /// a line with a byte that isn't printable ASCII
    Bad,
    /// the first 255 bytes of a longer line
    Long,
    /// a further piece of that line, of up to 255 bytes
    Rest,
    /// no line is left
    End,
}

/// Why no line was taken.
#[derive(Clone, Copy)]
pub enum LineFault {
    /// the world failed to read
    World,
    /// no memory was left for the line
    Memory,
}

/// The console of a session, which reads its script as it needs it. A line ends at a line feed or at the script's end, a
/// carriage return right before the line feed is dropped, and a tab is a blank.
#[derive(Drop)]
pub struct Console {
    alloc: Global,
    // what was read and not taken stands from start up to below end
    buffer: Vec<u8>,
    start: usize,
    end: usize,
    // how many bytes of a long line's current piece were taken, 0 at a line's beginning
    within: u8,
    ended: bool,
}

impl Model for Console {
    ghost use Rattle.std.specs.Prelude.{◌≡◌, ◌≤◌, ◌-◌, take, drop, length, false};
    ghost use Rattle.cms_line.specs.ConsoleState as states;

    ghost Value = { states.Console };

    ghost view = { λ c. record {
      unread = record { within = c.within; bytes = take (c.end - c.start) (drop c.start c.buffer.items) };
      ended = c.ended;
    } };

    ghost invariant = { λ c. record {
      ordered : c.start ≤ c.end;
      inside : c.end ≤ length c.buffer.items;
      room : c.ended ≡ false → 4096 ≤ length c.buffer.items;
    } };
}

// What begins in the unread bytes.
#[derive(Clone, Copy)]
enum Front {
    Piece,
    Line(usize),
    Tail(usize),
    Last,
    End,
    More,
}

// What was made of them.
#[derive(Drop)]
enum Step {
    Taken(ConsoleLine),
    Passed,
    Ended,
    More,
}

// The first byte belongs to the line.
fn begins_in_line(bytes: &[u8], ended: bool) -> bool
    ensures { result ≡ begins_in_line bytes.now ended }
{
    match bytes {
        [] => false,
        [b'\r'] => ended,
        [b'\r', next, ..] => *next != b'\n',
        [first, ..] => *first != b'\n',
    }
}

// The line goes on past its next bytes.
fn goes_past(bytes: &[u8], count: usize, ended: bool) -> bool
    ensures { result ≡ goes_past count bytes.now ended }
{
    if count >= bytes.len() {
        return false;
    }
    match line_feed(&bytes[..count]) {
        Some(_) => false,
        None => begins_in_line(&bytes[count..], ended),
    }
}

// The place of the first line feed.
fn line_feed(bytes: &[u8]) -> Option<usize>
    ensures { result ≡ position (λ b. b == 10) bytes.now }
{
    bytes.iter().position(|byte| *byte == b'\n')
}

// A line without the carriage return at its end.
fn without_return(line: &[u8]) -> &[u8]
    ensures { result.now ≡ without_return line.now }
{
    let Some(last) = line.last() else { return line };
    if *last == b'\r' {
        &line[..line.len() - 1]
    } else {
        line
    }
}

// The code of a byte of the console.
fn console_code(byte: u8) -> Option<u8>
    ensures { result ≡ console_code byte }
{
    from_host(if byte == b'\t' { b' ' } else { byte })
}

// A line of up to 255 bytes.
fn line_of(alloc: Global, bytes: &[u8]) -> Result<ConsoleLine, AllocError>
    requires { length bytes.now ≤ longest_text }
    ensures { IfOk result (λ line. item_of line ≡ Some (short_line bytes.now)) }
{
    let mut codes = Vec::with_capacity(alloc, bytes.len())?;
    for byte in bytes {
        match console_code(*byte) {
            Some(code) => codes.push(code)?,
            None => return Ok(ConsoleLine::Bad),
        }
    }
    Ok(ConsoleLine::Text(Line::take(codes)))
}

impl Console {
    /// A console that reads the world's script, or has a given one in its place.
    pub fn new(alloc: Global, given: Option<Vec<u8>>) -> Result<Self, AllocError>
        ensures { IfOk result (λ console. console ≡ fresh given) }
    {
        match given {
            Some(script) => Ok(Console {
                alloc,
                start: 0,
                end: script.len(),
                buffer: script,
                within: 0,
                ended: true,
            }),
            None => Ok(Console {
                alloc,
                start: 0,
                end: 0,
                buffer: vec![in alloc; 0; READ]?,
                within: 0,
                ended: false,
            }),
        }
    }

    // What was read and not taken.
    fn unread(&self) -> &[u8]
        ensures { result.now ≡ self.now.unread.bytes }
    {
        &self.buffer[self.start..self.end]
    }

    // Takes bytes from the front.
    fn advance(&mut self, count: usize, within: u8)
        requires { count ≤ length self.old.unread.bytes }
        ensures { self.new ≡ state within (drop count self.old.unread.bytes) self.old.ended }
    {
        self.start += count;
        self.within = within;
    }

    // Takes bytes from the front, up to this place.
    fn advance_past(&mut self, place: usize, within: u8)
        requires { place < length self.old.unread.bytes }
        ensures { self.new ≡ state within (drop (place + 1) self.old.unread.bytes) self.old.ended }
    {
        self.start += place;
        self.start += 1;
        self.within = within;
    }

    // How many bytes the current piece of a line may still have.
    fn room(&self) -> usize
        ensures { result ≡ room_of self.now }
    {
        LONGEST_TEXT - usize::from(self.within)
    }

    fn is_at_beginning(&self) -> bool
        ensures { MatchBool result (self.now.unread.within ≡ 0) (0 < self.now.unread.within) }
    {
        self.within == 0
    }

    fn has_ended(&self) -> bool
        ensures { result ≡ self.now.ended }
    {
        self.ended
    }

    // What begins in the unread bytes.
    fn front(&self) -> Front
        ensures { IsFront self.now result }
    {
        let unread = self.unread();
        if goes_past(unread, self.room(), self.has_ended()) {
            return Front::Piece;
        }
        match line_feed(unread) {
            Some(length) if self.is_at_beginning() => Front::Line(length),
            Some(length) => Front::Tail(length),
            None if !self.has_ended() => Front::More,
            None if unread.is_empty() => Front::End,
            None if self.is_at_beginning() => Front::Last,
            None => Front::End,
        }
    }

    // Takes a piece of a long line, the first or a further one.
    fn take_piece(&mut self) -> ConsoleLine
        requires { goes_past (room_of self.old) self.old.unread.bytes self.old.ended ≡ true }
        ensures { GivesLine self.old self.new result }
    {
        let room = self.room();
        if self.is_at_beginning() {
            self.advance(room, LONGEST_TEXT as u8);
            ConsoleLine::Long
        } else {
            self.advance_past(room, 1);
            ConsoleLine::Rest
        }
    }

    // Takes a line that ends at a line feed.
    fn take_line(&mut self, length: usize) -> Result<ConsoleLine, AllocError>
        requires beginning { self.old.unread.within ≡ 0 }
        requires ends { LineEnds self.old length }
        ensures ok { IfOk result (GivesLine self.old self.new) }
        ensures err { OnErr result (self.new ≡ self.old) }
    {
        let line = line_of(self.alloc, without_return(&self.unread()[..length]))?;
        self.advance_past(length, 0);
        Ok(line)
    }

    // Passes what is left of a long line.
    fn pass_tail(&mut self, length: usize)
        requires inside { 0 < self.old.unread.within }
        requires ends { LineEnds self.old length }
        ensures { Gives self.old self.new [] }
    {
        self.advance_past(length, 0);
    }

    // Takes the last line, which has no line feed.
    fn take_last(&mut self) -> Result<ConsoleLine, AllocError>
        requires beginning { self.old.unread.within ≡ 0 }
        requires last { LineIsLast self.old }
        ensures ok { IfOk result (GivesLine self.old self.new) }
        ensures err { OnErr result (self.new ≡ self.old) }
    {
        let line = line_of(self.alloc, self.unread())?;
        let length = self.unread().len();
        self.advance(length, 0);
        Ok(line)
    }

    // Takes what begins in the unread bytes.
    fn step(&mut self) -> Result<Step, AllocError>
        ensures ok { IfOk result (IsStep self.old self.new) }
        ensures err { OnErr result (self.new ≡ self.old) }
    {
        match self.front() {
            Front::Piece => Ok(Step::Taken(self.take_piece())),
            Front::Line(length) => Ok(Step::Taken(self.take_line(length)?)),
            Front::Tail(length) => {
                self.pass_tail(length);
                Ok(Step::Passed)
            }
            Front::Last => Ok(Step::Taken(self.take_last()?)),
            Front::End => Ok(Step::Ended),
            Front::More => Ok(Step::More),
        }
    }

    // Reads once, where no line is told.
    fn fill<W: World>(&mut self, world: &mut W) -> Result<(), LineFault>
        requires yet { self.old.ended ≡ false }
        requires room { length self.old.unread.bytes ≤ 256 }
        ensures ok { OnOk result (Filled (W.told world.old) (W.told world.new) self.old self.new) }
        ensures told { OnErr result (W.told world.new ≡ W.told world.old) }
        ensures err { OnErr result (self.new ≡ self.old) }
        ensures fault { IfErr result (λ fault. fault ≡ LineFault.World) }
        ensures cause { LineCause (W.edges world.old) (W.edges world.new) result }
        ensures faults { W.faults world.new ≡ W.faults world.old }
    {
        self.buffer.copy_within(self.start..self.end, 0);
        self.end -= self.start;
        self.start = 0;
        match world.read(&mut self.buffer[self.end..]) {
            Ok(count) => {
                self.end += count;
                self.ended = count == 0;
                Ok(())
            }
            Err(_) => Err(LineFault::World),
        }
    }

    /// The next line of the script, or its end.
    ///
    /// The world is read only where no whole line is known, and no more after a read of no bytes. After a fault no line was
    /// taken, and all that was read is kept.
    pub fn next<W: World>(&mut self, world: &mut W) -> Result<ConsoleLine, LineFault>
        ensures ok { IfOk result (Took (W.told world.old) (W.told world.new) self.old self.new) }
        ensures err { OnErr result (Stayed (W.told world.old)
            (W.told world.new) self.old self.new) }
        ensures cause { LineCause (W.edges world.old) (W.edges world.new) result }
        ensures faults { W.faults world.new ≡ W.faults world.old }
    {
        for _ in 0..u64::MAX {
            match self.step() {
                Ok(Step::Taken(line)) => return Ok(line),
                Ok(Step::Passed) => continue,
                Ok(Step::Ended) => return Ok(ConsoleLine::End),
                Ok(Step::More) => {}
                Err(_) => return Err(LineFault::Memory),
            }
            self.fill(world)?;
        }
        Err(LineFault::Memory)
    }
}
