// Where the bytes of a host file come from.
ghost use Rattle.std.specs.Prelude.{◌≡◌, ◌≤◌, ◌+◌, length, IfSome, IfOk};

use std::alloc::Global;
use std::fs::{File, Files, OpenOptions};
use std::io::{ErrorKind, Read};
use std::{fs, io};

/// How often a call that a signal interrupted is made again.
const TRIES: u32 = 1_000_000;

/// How many bytes of standard input are asked for at once.
const PIECE: usize = 65_536;

/// The most bytes that are gathered of standard input: more than any file of an image is as a text.
const MOST_INPUT: usize = 268_435_456;

// Reads once, again where a signal interrupted it: no bytes are the end.
fn read_some<I: Read>(input: &mut I, into: &mut [u8]) -> io::Result<usize>
    ensures { IfOk result (λ n. n ≤ length into.old) }
{
    for _ in 0..TRIES {
        match input.read(into) {
            Ok(count) => return Ok(count),
            Err(error) if error.kind() == ErrorKind::Interrupted => {}
            Err(error) => return Err(error),
        }
    }
    Err(io::Error::from(ErrorKind::Interrupted))
}

/// All of standard input.
pub fn gather<I: Read>(alloc: Global, input: &mut I) -> io::Result<Vec<u8>> {
    let mut all = Vec::new(alloc);
    let mut piece = [0; PIECE];
    while all.len() <= MOST_INPUT {
        let count = read_some(input, &mut piece)?;
        if count == 0 {
            return Ok(all);
        }
        all.extend_from_slice(&piece[..count])?;
    }
    Err(io::Error::other("standard input is too large"))
}

/// A plain file; none where no plain file has the name. What has it is looked at before: to open a pipe would wait for its other
/// end.
pub fn open_plain<R: Files<File = File>>(rt: &R, name: &str) -> io::Result<Option<File>> {
    match fs::metadata(rt, name) {
        Ok(metadata) if metadata.is_file() => {}
        Ok(_) => return Ok(None),
        Err(error) if is_absent(&error) => return Ok(None),
        Err(error) => return Err(error),
    }
    let file = OpenOptions::new().read(true).open(rt, name)?;
    if file.metadata()?.is_file() {
        Ok(Some(file))
    } else {
        Ok(None)
    }
}

/// Whether an error says that there is no such file.
pub fn is_absent(error: &io::Error) -> bool {
    matches!(error.kind(), ErrorKind::NotFound | ErrorKind::NotADirectory)
}

// What an open host file is read of.
#[derive(Drop)]
enum From {
    // a plain file
    File(File),
    // standard input, as it was gathered
    Input,
}

/// A host file that is open.
#[derive(Drop)]
pub struct Source {
    from: From,
    /// the bytes that are still to be read, as many as it had when it was opened
    pub left: u64,
}

impl Source {
    /// A plain file, with as many bytes as it has now.
    pub fn of_file(file: File) -> io::Result<Source> {
        let left = file.metadata()?.len();
        Ok(Source {
            from: From::File(file),
            left,
        })
    }

    /// Standard input, with as many bytes as were gathered.
    pub fn of_input(gathered: &[u8]) -> Source {
        Source {
            from: From::Input,
            left: gathered.len() as u64,
        }
    }

    /// Reads the next bytes, no more than are left, and says how many: none at the end.
    pub fn read(&mut self, gathered: &[u8], into: &mut [u8]) -> io::Result<usize>
        ensures within { IfOk result (λ n. n ≤ length into.old) }
        ensures left { IfOk result (λ n. self.new.left + n ≤ self.old.left) }
    {
        let most = into
            .len()
            .min(usize::try_from(self.left).unwrap_or(usize::MAX));
        let count = match &mut self.from {
            From::File(file) => read_some(file, &mut into[..most])?,
            From::Input => read_end(gathered, self.left, &mut into[..most]),
        };
        self.left -= count as u64;
        Ok(count)
    }
}

// Copies the first of the last bytes that are left, and says how many.
fn read_end(gathered: &[u8], left: u64, into: &mut [u8]) -> usize
    ensures { result ≤ length into.old }
{
    let place = gathered
        .len()
        .saturating_sub(usize::try_from(left).unwrap_or(usize::MAX));
    let rest = &gathered[place..];
    let count = rest.len().min(into.len());
    into[..count].copy_from_slice(&rest[..count]);
    count
}
