// Printers, readers and clocks that fail.
use crate::world::steps::push_bytes;
use cms_cases::{Report, word};
use cms_host::{folder_of, read_some, seconds, write_some};
use std::cell::Cell;
use std::fmt::Display;
use std::io;
use std::io::{ErrorKind, Read};
use std::time::{Clock, Duration};

/// `clock`: the seconds of a clock that stands at the start of the year 2000, of one before 1970, and of one that can't be read. `reads` and
/// `writes`: what comes of a reader that is interrupted, gives three bytes, and fails, with the bytes; and of a printer that takes three
/// bytes at a call, is interrupted at every second one, and has room for four. `folder NAME`: the folder that holds a name.
pub const ROWS: &str = "\
clock => [Some(946684800), Some(0), None]
reads => [Some(3), None] XXX--
writes => [Some(3), Some(1), None]
folder w.img => .
folder a/w.img => a
folder /w.img => /";

// A printer that takes three bytes at a call, is interrupted at every second one, and fails where it has no room.
#[derive(Drop)]
struct Narrow {
    room: Cell<usize>,
    calls: Cell<u32>,
}

impl Print for Narrow {
    fn print<D: Display + Drop>(&self, _value: D) -> io::Result<()> {
        Err(io::Error::from(ErrorKind::Unsupported))
    }

    fn println<D: Display + Drop>(&self, _value: D) -> io::Result<()> {
        Err(io::Error::from(ErrorKind::Unsupported))
    }

    fn write_all(&self, _bytes: &[u8]) -> io::Result<()> {
        Err(io::Error::from(ErrorKind::Unsupported))
    }

    fn write_some(&self, bytes: &[u8]) -> io::Result<usize> {
        let calls = self.calls.get();
        self.calls.set(calls.wrapping_add(1));
        if calls % 2 == 0 {
            return Err(io::Error::from(ErrorKind::Interrupted));
        }
        let count = bytes.len().min(3).min(self.room.get());
        self.room.set(self.room.get().saturating_sub(count));
        Ok(count)
    }
}

// A clock that stands still, or fails so.
#[derive(Drop)]
struct Still(Result<u64, ErrorKind>);

impl Clock for Still {
    fn monotonic(&self) -> io::Result<Duration> {
        Err(io::Error::from(ErrorKind::Unsupported))
    }

    fn since_1970(&self) -> io::Result<Duration> {
        match self.0 {
            Ok(seconds) => Ok(Duration::from_secs(seconds)),
            Err(kind) => Err(io::Error::from(kind)),
        }
    }
}

// A reader that is interrupted, gives three bytes, and fails.
#[derive(Drop)]
struct Breaks(u32);

impl Read for Breaks {
    fn read(&mut self, into: &mut [u8]) -> io::Result<usize> {
        self.0 = self.0.wrapping_add(1);
        match self.0 {
            1 => Err(io::Error::from(ErrorKind::Interrupted)),
            2 => {
                let count = into.len().min(3);
                into[..count].fill(b'X');
                Ok(count)
            }
            _ => Err(io::Error::from(ErrorKind::BrokenPipe)),
        }
    }
}

fn tell_clocks(into: &mut Report) {
    into.value(&[
        seconds(&Still(Ok(946_684_800))),
        seconds(&Still(Err(ErrorKind::InvalidData))),
        seconds(&Still(Err(ErrorKind::Unsupported))),
    ])
}

fn tell_reads(into: &mut Report) {
    let mut reader = Breaks(0);
    let mut bytes = [b'-'; 5];
    into.value(&[
        read_some(&mut reader, &mut bytes),
        read_some(&mut reader, &mut bytes),
    ]);
    into.push(' ');
    push_bytes(into, &bytes)
}

fn tell_writes(into: &mut Report) {
    let printer = Narrow {
        room: Cell::new(4),
        calls: Cell::new(0),
    };
    into.value(&[
        write_some(&printer, b"ABCDE"),
        write_some(&printer, b"DE"),
        write_some(&printer, b"E"),
    ])
}

fn tell_folder(into: &mut Report, case: &str) {
    into.push_str(folder_of(case.strip_prefix("folder ").unwrap_or("")))
}

/// Tells what a case comes to.
pub fn tell(into: &mut Report, case: &str) {
    match word(case, 0) {
        "clock" => tell_clocks(into),
        "reads" => tell_reads(into),
        "writes" => tell_writes(into),
        _ => tell_folder(into, case),
    }
}
