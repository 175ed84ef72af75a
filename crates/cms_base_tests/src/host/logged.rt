// A system that writes down what it is asked for, tells what it did, and fails where it is told to.
ghost use Rattle.std.specs.Prelude.{◌≡◌, ◌++◌, [], ◌∷◌, Some, IfOk, OnOk, OnErr};
ghost use Rattle.cms_host.specs.Deeds.{printing};

use cms_host::{Deed, Lock, Sharing, System, Warning};
use cms_journal::Bytes;
use cms_world::Access;
use std::alloc::{AllocError, Global};
use std::cell::Cell;
use std::io;
use std::io::ErrorKind;

/// What such a system has room to print, how locks are asked for, what fails from now on, and which of the first file's eight blocks can't be
/// read, each by its bit.
#[derive(Clone, Copy)]
pub struct Plan {
    pub room: usize,
    pub lock: Lock,
    pub sync_fails: bool,
    pub folder_fails: bool,
    pub write_fails: bool,
    pub bad: u8,
}

/// A system without files, which tells what it did, and writes down each call as a character: `O` opens an image and `L` asks for
/// its lock, `S` gives it its size, `Y` syncs it and `D` its folder, `G` reads a block and `W` writes one, `R` reads the script and
/// `!` warns. What is printed stands there itself, three bytes at a time at most. Files 0 and 1 have eight blocks, each of which begins
/// with a letter, that of what was written there last.
#[derive(Drop)]
pub struct Logged {
    alloc: Global,
    pub deeds: Vec<Deed>,
    pub log: Vec<u8>,
    pub plan: Cell<Plan>,
    blocks: [u8; 16],
    files: usize,
}

fn printed(alloc: Global, from: &[u8]) -> Result<Vec<Deed>, AllocError>
    ensures { IfOk result (λ deeds. deeds.items ≡ printing from.now) }
{
    from.iter().map(|byte| Deed::Printed(*byte)).collect(alloc)
}

impl Logged {
    /// A system that has no room to print, and of which nothing fails.
    pub fn new(alloc: Global) -> Logged {
        Logged {
            alloc,
            deeds: Vec::new(alloc),
            log: Vec::new(alloc),
            plan: Cell::new(Plan {
                room: 0,
                lock: Lock::Taken,
                sync_fails: false,
                folder_fails: false,
                write_fails: false,
                bad: 0,
            }),
            blocks: *b"abcdefghstuvwxyz",
            files: 0,
        }
    }

    fn asked(&mut self, call: u8)
        ensures { self.new.deeds.items ≡ self.old.deeds.items }
    {
        let _ = self.log.push(call);
    }

    // The letter of a block, counted from 0, that can be read.
    fn letter(&self, file: usize, block: usize) -> Option<u8> {
        if block > 7 || file == 0 && self.plan.get().bad >> block & 1 == 1 {
            return None;
        }
        let place = file.saturating_mul(8).saturating_add(block);
        self.blocks.get(place).copied()
    }

    // Gives a block the letter of what is written there.
    fn put(&mut self, file: usize, place: u64, from: &[u8])
        ensures { self.new.deeds.items ≡ self.old.deeds.items }
    {
        let block = file
            .saturating_mul(8)
            .saturating_add((place / 512) as usize);
        if let (Some(letter), Some(byte)) = (self.blocks.get_mut(block), from.first()) {
            *letter = *byte;
        }
    }

    fn did(&mut self, deed: Deed) -> io::Result<()>
        ensures did { OnOk result (self.new.deeds.items ≡ self.old.deeds.items ++ deed ∷ []) }
        ensures kept { OnErr result (self.new.deeds.items ≡ self.old.deeds.items) }
    {
        self.deeds.push(deed)?;
        Ok(())
    }
}

impl System for Logged {
    ghost told = { λ l. Some l.deeds.items };

    fn open(&mut self, name: &str, _access: Access) -> io::Result<usize> {
        self.asked(b'O');
        let file = self.files;
        self.files = self.files.saturating_add(1);
        let name = Bytes::of(self.alloc, name.as_bytes())?;
        self.did(Deed::Opened(file, name))?;
        Ok(file)
    }

    fn lock(&mut self, file: usize, sharing: Sharing) -> io::Result<Lock> {
        self.asked(b'L');
        match self.plan.get().lock {
            Lock::Taken => {
                self.did(Deed::Locked(file, sharing))?;
                Ok(Lock::Taken)
            }
            Lock::Refused => Ok(Lock::Refused),
            Lock::Unknown => {
                self.did(Deed::Unlockable(file))?;
                Ok(Lock::Unknown)
            }
        }
    }

    fn set_size(&mut self, file: usize, bytes: u64) -> io::Result<()> {
        self.asked(b'S');
        self.did(Deed::Sized(file, bytes))
    }

    fn size(&mut self, _file: usize) -> io::Result<u64> {
        Ok(4096)
    }

    fn sync_folder(&mut self, name: &str) -> io::Result<()> {
        self.asked(b'D');
        if self.plan.get().folder_fails {
            return Err(io::Error::from(ErrorKind::Other));
        }
        let name = Bytes::of(self.alloc, name.as_bytes())?;
        self.did(Deed::FolderSynced(name))
    }

    fn read_at(&mut self, file: usize, into: &mut [u8], place: u64) -> bool {
        self.asked(b'G');
        for block in 0..into.len() / 512 {
            let Some(letter) = self.letter(file, block.saturating_add((place / 512) as usize))
            else {
                return false;
            };
            into[block * 512] = letter;
        }
        true
    }

    fn write_at(&mut self, file: usize, from: &[u8], place: u64) -> bool {
        self.asked(b'W');
        if self.plan.get().write_fails {
            return false;
        }
        self.put(file, place, from);
        match Bytes::of(self.alloc, from) {
            Ok(bytes) => self.did(Deed::Wrote(file, place, bytes)).is_ok(),
            Err(_) => false,
        }
    }

    // The first sync fails alone, as where a system drops what it couldn't write.
    fn sync(&mut self, file: usize) -> bool {
        self.asked(b'Y');
        let plan = self.plan.get();
        if plan.sync_fails {
            self.plan.set(Plan {
                sync_fails: false,
                ..plan
            });
            return false;
        }
        self.did(Deed::Synced(file)).is_ok()
    }

    fn print(&mut self, from: &[u8]) -> Option<usize> {
        let plan = self.plan.get();
        let count = from.len().min(3).min(plan.room);
        if count == 0 {
            return None;
        }
        let from = &from[..count];
        let mut deeds = printed(self.alloc, from).ok()?;
        self.deeds.append(&mut deeds).ok()?;
        self.plan.set(Plan {
            room: plan.room.saturating_sub(count),
            ..plan
        });
        let _ = self.log.extend_from_slice(from);
        Some(count)
    }

    fn read(&mut self, _into: &mut [u8]) -> Option<usize> {
        self.asked(b'R');
        self.did(Deed::ScriptRead).ok()?;
        Some(0)
    }

    fn seconds(&mut self) -> Option<i64> {
        None
    }

    fn warn(&mut self, _warning: Warning) {
        self.asked(b'!');
    }
}
