// The system itself: its files, its standard streams and its clock.
ghost use Rattle.std.specs.Prelude.{◌≡◌, ◌≤◌, ◌<◌, length, None, IfSome, IfOk};

use crate::system::{Lock, Sharing, System, Warning};
use cms_world::Access;
use std::alloc::{AllocError, Global};
use std::fs::{File, Files, Metadata, OpenFile, OpenOptions, TryLockError};
use std::io::{ErrorKind, Read};
use std::os::unix::fs::FileExt;
use std::path::Path;
use std::time::Clock;
use std::{fs, io};

/// How often a call that a signal interrupted is made again.
const TRIES: u32 = 1_000_000;

/// What Linux says where a file system has no room for locks, or knows none.
const NO_LOCKS: i32 = 37;

/// A folder that every system has.
pub const FOLDER: &str = "/";

/// Opens a folder three times, so that no image and no host file gets the place of a standard stream that isn't open: it would be read as
/// the script, or what is typed would be written to it. A folder gives nothing and takes nothing.
pub fn hold_streams<R: Files<File = File>>(rt: &R) -> io::Result<[File; 3]> {
    Ok([
        File::open(rt, FOLDER)?,
        File::open(rt, FOLDER)?,
        File::open(rt, FOLDER)?,
    ])
}

/// Reads once, again where a signal interrupted it: no bytes are the end.
pub fn read_some<I: Read>(input: &mut I, into: &mut [u8]) -> Option<usize>
    ensures { IfSome result (λ n. n ≤ length into.old) }
{
    for _ in 0..TRIES {
        match input.read(into) {
            Ok(count) => return Some(count),
            Err(error) if error.kind() == ErrorKind::Interrupted => {}
            Err(_) => return None,
        }
    }
    None
}

/// Writes at least one byte, from the front, again where a signal interrupted it.
pub fn write_some<P: Print>(output: &P, from: &[u8]) -> Option<usize>
    ensures { IfSome result (λ n. (0 < n) × (n ≤ length from.now)) }
{
    for _ in 0..TRIES {
        match output.write_some(from) {
            Ok(0) => return None,
            Ok(count) => return Some(count),
            Err(error) if error.kind() == ErrorKind::Interrupted => {}
            Err(_) => return None,
        }
    }
    None
}

// Refuses what isn't a plain file.
fn check_plain(metadata: &Metadata) -> io::Result<()> {
    if metadata.is_file() {
        Ok(())
    } else {
        Err(io::Error::other("it is no plain file"))
    }
}

// Opens an image that is there. What has the name is looked at before: to open a pipe would wait for its other end.
fn open_there<R: Files<File = File>>(rt: &R, name: &str, writes: bool) -> io::Result<File> {
    check_plain(&fs::metadata(rt, name)?)?;
    let file = OpenOptions::new().read(true).write(writes).open(rt, name)?;
    check_plain(&file.metadata()?)?;
    Ok(file)
}

// Opens an image, or makes one without bytes.
fn open_image<R: Files<File = File>>(rt: &R, name: &str, access: Access) -> io::Result<File> {
    match access {
        Access::ReadOnly => open_there(rt, name, false),
        Access::ReadWrite => open_there(rt, name, true),
        Access::New(_) => OpenOptions::new()
            .read(true)
            .write(true)
            .create_new(true)
            .open(rt, name),
    }
}

// Whether a file system says so that it knows no locks.
fn knows_no_locks(error: &io::Error) -> bool {
    error.kind() == ErrorKind::Unsupported || error.raw_os_error() == Some(NO_LOCKS)
}

// Asks for a lock.
fn lock_file(file: &File, sharing: Sharing) -> io::Result<Lock> {
    let asked = match sharing {
        Sharing::Shared => file.try_lock_shared(),
        Sharing::Alone => file.try_lock(),
    };
    match asked {
        Ok(()) => Ok(Lock::Taken),
        Err(TryLockError::WouldBlock) => Ok(Lock::Refused),
        Err(TryLockError::Error(error)) if knows_no_locks(&error) => Ok(Lock::Unknown),
        Err(TryLockError::Error(error)) => Err(error),
    }
}

/// The folder that holds a name.
pub fn folder_of(name: &str) -> &str {
    match Path::new(name).parent() {
        Some(folder) if !folder.as_str().is_empty() => folder.as_str(),
        _ => ".",
    }
}

// Waits until the folder that holds a name is on its device.
fn sync_folder_of<R: Files<File = File>>(rt: &R, name: &str) -> io::Result<()> {
    File::open(rt, folder_of(name))?.sync_all()
}

/// The seconds since 1970-01-01 00:00:00 UTC, 0 before that.
pub fn seconds<C: Clock>(clock: &C) -> Option<i64> {
    match clock.since_1970() {
        Ok(time) => i64::try_from(time.as_secs()).ok(),
        // the clock was read, and stands before 1970
        Err(error) if error.kind() == ErrorKind::InvalidData => Some(0),
        Err(_) => None,
    }
}

// Tells a person of the image of a name, on standard error.
fn tell<R: Eprint>(rt: &R, name: &str, warning: Warning) -> io::Result<()> {
    match warning {
        Warning::NoLocks(_) => eprintln!(rt;
            "cms: {name} can't be locked, so nothing hinders another program from writing to it"
        ),
        Warning::LostSync(_) => eprintln!(rt;
            "cms: {name} couldn't be synced, so no later sync of it is believed; a next session finds what is there"
        ),
    }
}

// A file that is open, and its name.
#[derive(Drop)]
struct Opened {
    file: File,
    name: String,
}

/// The system itself: real files, the standard streams, and the system's clock.
///
/// It tells nothing of what it did: no contract can name what a real file has.
#[derive(Drop)]
pub struct Host<R: Files<File = File> + io::Input + Print + Eprint + Clock + Drop> {
    alloc: Global,
    rt: R,
    input: R::Reader,
    files: Vec<Opened>,
}

impl<R: Files<File = File> + io::Input + Print + Eprint + Clock + Drop> Host<R> {
    /// The system, with no file open.
    pub fn new(alloc: Global, rt: R) -> Self {
        let input = rt.reader();
        Host {
            alloc,
            rt,
            input,
            files: Vec::new(alloc),
        }
    }

    // The file of a number.
    fn file(&self, file: usize) -> io::Result<&File> {
        match self.files.get(file) {
            Some(opened) => Ok(&opened.file),
            None => Err(io::Error::from(ErrorKind::NotFound)),
        }
    }

    /// Keeps a file that is open: its number.
    pub fn keep(&mut self, file: File, name: &str) -> Result<usize, AllocError> {
        let number = self.files.len();
        let name = String::from_str(self.alloc, name)?;
        self.files.push(Opened { file, name })?;
        Ok(number)
    }
}

impl<R: Files<File = File> + io::Input + Print + Eprint + Clock + Drop> System for Host<R> {
    ghost told = { λ h. None };

    fn open(&mut self, name: &str, access: Access) -> io::Result<usize> {
        let file = open_image(&self.rt, name, access)?;
        match self.keep(file, name) {
            Ok(number) => Ok(number),
            Err(_) => Err(io::Error::from(ErrorKind::OutOfMemory)),
        }
    }

    fn lock(&mut self, file: usize, sharing: Sharing) -> io::Result<Lock> {
        lock_file(self.file(file)?, sharing)
    }

    fn set_size(&mut self, file: usize, bytes: u64) -> io::Result<()> {
        self.file(file)?.set_len(bytes)
    }

    fn size(&mut self, file: usize) -> io::Result<u64> {
        let metadata = self.file(file)?.metadata()?;
        Ok(metadata.len())
    }

    fn sync_folder(&mut self, name: &str) -> io::Result<()> {
        match sync_folder_of(&self.rt, name) {
            Ok(()) => Ok(()),
            Err(_) => Err(io::Error::other("the folder that holds it can't be synced")),
        }
    }

    fn read_at(&mut self, file: usize, into: &mut [u8], place: u64) -> bool {
        match self.file(file) {
            Ok(file) => file.read_exact_at(into, place).is_ok(),
            Err(_) => false,
        }
    }

    fn write_at(&mut self, file: usize, from: &[u8], place: u64) -> bool {
        match self.file(file) {
            Ok(file) => file.write_all_at(from, place).is_ok(),
            Err(_) => false,
        }
    }

    fn sync(&mut self, file: usize) -> bool {
        match self.file(file) {
            Ok(file) => file.sync_data().is_ok(),
            Err(_) => false,
        }
    }

    fn print(&mut self, from: &[u8]) -> Option<usize> {
        write_some(&self.rt, from)
    }

    fn read(&mut self, into: &mut [u8]) -> Option<usize> {
        read_some(&mut self.input, into)
    }

    fn seconds(&mut self) -> Option<i64> {
        seconds(&self.rt)
    }

    fn warn(&mut self, warning: Warning) {
        let file = match warning {
            Warning::NoLocks(file) => file,
            Warning::LostSync(file) => file,
        };
        if let Some(opened) = self.files.get(file) {
            let _ = tell(&self.rt, opened.name.as_str(), warning);
        }
    }
}
