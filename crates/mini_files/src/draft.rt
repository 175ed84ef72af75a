// Host files that are written beside the name that they are to have.
use crate::source::is_absent;
use std::alloc::Global;
use std::fs::{File, Files, OpenOptions};
use std::io::{BufWriter, ErrorKind, Write};
use std::path::Path;
use std::{fs, io};

/// How many names are tried for a file beside another.
const TRIES: u32 = 100;

/// How many bytes are gathered before they are written.
const PIECE: usize = 65_536;

/// A host file that is written, and the name that it is to have.
#[derive(Drop)]
pub struct Written {
    file: BufWriter<File>,
    // the name that it has until it is whole
    beside: String,
    name: String,
    over: bool,
}

/// The folder that holds a name.
pub fn folder_of(name: &str) -> &str {
    match Path::new(name).parent() {
        Some(folder) if !folder.as_str().is_empty() => folder.as_str(),
        _ => ".",
    }
}

/// Makes sure that the names in the folder of this one stay.
pub fn sync_folder<R: Files<File = File>>(rt: &R, name: &str) -> io::Result<()> {
    File::open(rt, folder_of(name))?.sync_all()
}

// The last component of a name.
fn last_of(name: &str) -> &str {
    match Path::new(name).file_name() {
        Some(last) => last,
        None => name,
    }
}

// Whether a file may get this name: where one has it, only over it, and only over a plain file.
fn may_have<R: Files<File = File>>(rt: &R, name: &str, over: bool) -> io::Result<bool> {
    match fs::symlink_metadata(rt, name) {
        Ok(metadata) if !over || metadata.is_file() => Ok(over),
        Ok(_) => Err(io::Error::other("what has the name is no plain file")),
        Err(error) if is_absent(&error) => Ok(true),
        Err(error) => Err(error),
    }
}

// Makes a new file with a name that no file has, beside that which it is to have.
fn make_beside<R: Files<File = File>>(
    rt: &R,
    alloc: Global,
    name: &str,
) -> io::Result<(File, String)> {
    for number in 0..TRIES {
        let folder = folder_of(name);
        let last = last_of(name);
        let beside = format!(in alloc; "{folder}/.{last}.{number}.tmp")?;
        let made = OpenOptions::new()
            .write(true)
            .create_new(true)
            .open(rt, beside.as_str());
        match made {
            Ok(file) => return Ok((file, beside)),
            Err(error) if error.kind() == ErrorKind::AlreadyExists => {}
            Err(error) => return Err(error),
        }
    }
    Err(io::Error::from(ErrorKind::AlreadyExists))
}

// Gives a file a name that no file has, and says whether it has it.
fn give_free_name<R: Files<File = File>>(rt: &R, beside: &str, name: &str) -> io::Result<bool> {
    match fs::hard_link(rt, beside, name) {
        Ok(()) => {
            fs::remove_file(rt, beside)?;
            Ok(true)
        }
        Err(error) if error.kind() == ErrorKind::AlreadyExists => Ok(false),
        Err(_) => take_name(rt, beside, name),
    }
}

// The same where the file system knows no two names of a file: the name is taken by an empty file first.
fn take_name<R: Files<File = File>>(rt: &R, beside: &str, name: &str) -> io::Result<bool> {
    match OpenOptions::new()
        .write(true)
        .create_new(true)
        .open(rt, name)
    {
        Ok(_) => {}
        Err(error) if error.kind() == ErrorKind::AlreadyExists => return Ok(false),
        Err(error) => return Err(error),
    }
    fs::rename(rt, beside, name)?;
    Ok(true)
}

impl Written {
    /// A file with no bytes yet that is to have this name; none where it may not have it.
    pub fn begin<R: Files<File = File>>(
        rt: &R,
        alloc: Global,
        name: &str,
        over: bool,
    ) -> io::Result<Option<Written>> {
        if !may_have(rt, name, over)? {
            return Ok(None);
        }
        let own = String::from_str(alloc, name)?;
        let (file, beside) = make_beside(rt, alloc, name)?;
        match BufWriter::with_capacity(alloc, PIECE, file) {
            Ok(file) => Ok(Some(Written {
                file,
                beside,
                name: own,
                over,
            })),
            Err(error) => {
                let _ = fs::remove_file(rt, beside.as_str());
                Err(error)
            }
        }
    }

    /// The name that it is to have.
    pub fn name(&self) -> &str {
        self.name.as_str()
    }

    /// Writes bytes behind those that it has.
    pub fn write(&mut self, from: &[u8]) -> io::Result<()> {
        self.file.write_all(from)
    }

    /// Gives it its name, and tells that name; none where another program has put a file there. It stays with the name once the folder
    /// is synced.
    pub fn keep<R: Files<File = File>>(mut self, rt: &R) -> io::Result<Option<String>> {
        match self.give_name(rt) {
            Ok(true) => Ok(Some(self.name)),
            Ok(false) => {
                self.discard(rt);
                Ok(None)
            }
            Err(error) => {
                self.discard(rt);
                Err(error)
            }
        }
    }

    fn give_name<R: Files<File = File>>(&mut self, rt: &R) -> io::Result<bool> {
        self.file.flush()?;
        self.file.get_ref().sync_all()?;
        let beside = self.beside.as_str();
        let name = self.name.as_str();
        if self.over {
            fs::rename(rt, beside, name)?;
            return Ok(true);
        }
        give_free_name(rt, beside, name)
    }

    /// Throws it away, with what isn't written yet.
    pub fn discard<R: Files<File = File>>(self, rt: &R) {
        let _ = fs::remove_file(rt, self.beside.as_str());
        let (_file, _unwritten) = self.file.into_parts();
    }
}
