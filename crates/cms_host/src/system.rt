// What a world of files asks of the system that it runs on.
ghost use Rattle.std.specs.Prelude.{◌≡◌, ◌≤◌, ◌<◌, ℕ, List, [], ◌∷◌, length, take, Option, None, false, IfOk, OnOk, IfSome, OnSome, IsNone, IsTrue};
ghost use Rattle.cms_host.specs.FileBytes.{HasBytes, KeepsBut};
ghost use Rattle.cms_host.specs.Deeds.{then_done, MayDo, printing, lock_deeds};
ghost use Rattle.cms_host.specs.declared.system.Deed.{Deed};
ghost use Rattle.cms_host.specs.declared.system.Deed.TheVariants.{Opened, Sized, Wrote, Synced, FolderSynced, ScriptRead};

use cms_journal::Bytes;
use cms_world::Access;
use std::io;

/// Who may have the lock on a file beside the one who takes it.
#[derive(Clone, Copy)]
pub enum Sharing {
    /// Others who only read it.
    Shared,
    /// Nobody.
    Alone,
}

/// What came of asking for the lock on a file.
#[derive(Clone, Copy)]
pub enum Lock {
    /// It is taken, and let go when the file is closed or the program ends.
    Taken,
    /// Somebody else has one that is in its way.
    Refused,
    /// The file system knows no locks.
    Unknown,
}

/// What a person is told on standard error while the session goes on.
#[derive(Clone, Copy)]
pub enum Warning {
    /// A file system knows no locks, so that nothing hinders another program from writing to the image of this file.
    NoLocks(usize),
    /// A sync of this file failed, and no later one is believed.
    LostSync(usize),
}

/// What a system did. Files are numbered from 0 in the order in which they were opened.
#[derive(Drop)]
pub enum Deed {
    /// The image of this name was opened, or made with no bytes, as the file of this number.
    Opened(usize, Bytes),
    /// The lock on this file was taken.
    Locked(usize, Sharing),
    /// The lock on this file was asked for, and its file system knows none.
    Unlockable(usize),
    /// This file got so many bytes; new ones are zeros.
    Sized(usize, u64),
    /// To this file, from this place on, these bytes were written.
    Wrote(usize, u64, Bytes),
    /// All that was written to this file is sure to stay.
    Synced(usize),
    /// That a file of this name is there is sure to stay.
    FolderSynced(Bytes),
    /// This byte was printed.
    Printed(u8),
    /// The script was read.
    ScriptRead,
}

/// What a world of files asks of the system that it runs on: images, standard output, the script and the clock.
///
/// A system may tell what it did, the oldest first. What it was asked for and didn't do adds nothing, but for a write and a
/// read of the script that fail.
pub trait System {
    /// What was done, or none where the system doesn't tell it.
    ghost told: { Self → Option (List Deed) };

    /// The bytes of each file, by its number, or none where the system doesn't tell them.
    ghost files: { Self → ℕ → Option (List ℕ) } = { λ system file. None };

    /// Opens the image of a name, or makes one without bytes where it is to be new and no file has the name. What isn't a plain
    /// file is refused.
    fn open(&mut self, name: &str, access: Access) -> io::Result<usize>
        ensures { IfOk result (λ file. told self.new
            ≡ then_done (told self.old) (Opened file name.now ∷ [])) };

    /// Asks for the lock on a file, and doesn't wait for it.
    fn lock(&mut self, file: usize, sharing: Sharing) -> io::Result<Lock>
        ensures { IfOk result (λ lock. told self.new
            ≡ then_done (told self.old) (lock_deeds file sharing lock)) };

    /// Gives a file so many bytes.
    fn set_size(&mut self, file: usize, bytes: u64) -> io::Result<()>
        ensures { OnOk result (told self.new ≡ then_done (told self.old) (Sized file bytes ∷ [])) };

    /// How many bytes a file has.
    fn size(&mut self, file: usize) -> io::Result<u64>
        ensures { told self.new ≡ told self.old };

    /// Waits until the folder that holds a name is on its device.
    fn sync_folder(&mut self, name: &str) -> io::Result<()>
        ensures { OnOk result (told self.new
            ≡ then_done (told self.old) (FolderSynced name.now ∷ [])) };

    /// Reads bytes from a place of a file on, and says whether all of them were read.
    fn read_at(&mut self, file: usize, into: &mut [u8], place: u64) -> bool
        ensures told { told self.new ≡ told self.old }
        ensures files { files self.new ≡ files self.old }
        ensures bytes { IsTrue result → HasBytes (files self.old file) place into.new };

    /// Writes bytes from a place of a file on, and says whether all of them were written.
    fn write_at(&mut self, file: usize, from: &[u8], place: u64) -> bool
        ensures wrote { IsTrue result → told self.new
            ≡ then_done (told self.old) (Wrote file place from.now ∷ []) }
        ensures failed { MayDo (Wrote file place from.now ∷ []) (told self.old) (told self.new) }
        ensures files { KeepsBut file place (length from.now) (files self.old) (files self.new) };

    /// Waits until all that was written to a file is on its device, and says whether it is.
    fn sync(&mut self, file: usize) -> bool
        ensures synced { IsTrue result → told self.new
            ≡ then_done (told self.old) (Synced file ∷ []) }
        ensures failed { result ≡ false → told self.new ≡ told self.old }
        ensures files { files self.new ≡ files self.old };

    /// Prints bytes from the front of a slice that isn't empty, one at least: how many, or none where it can't.
    fn print(&mut self, from: &[u8]) -> Option<usize>
        requires { 0 < length from.now }
        ensures within { IfSome result (λ n. (0 < n) × (n ≤ length from.now)) }
        ensures printed { IfSome result (λ n. told self.new
            ≡ then_done (told self.old) (printing (take n from.now))) }
        ensures failed { IsNone result → told self.new ≡ told self.old }
        ensures files { files self.new ≡ files self.old };

    /// Reads the next bytes of the script into the front of a slice: how many, of which none are its end, or none where it can't.
    fn read(&mut self, into: &mut [u8]) -> Option<usize>
        ensures within { IfSome result (λ n. n ≤ length into.old) }
        ensures done { OnSome result (told self.new ≡ then_done (told self.old) (ScriptRead ∷ [])) }
        ensures failed { MayDo (ScriptRead ∷ []) (told self.old) (told self.new) }
        ensures files { files self.new ≡ files self.old };

    /// The seconds since 1970-01-01 00:00:00 UTC, 0 before that; none where the clock can't be read.
    fn seconds(&mut self) -> Option<i64>
        ensures told { told self.new ≡ told self.old }
        ensures files { files self.new ≡ files self.old };

    /// Tells a person.
    fn warn(&mut self, warning: Warning)
        ensures told { told self.new ≡ told self.old }
        ensures files { files self.new ≡ files self.old };
}
