// An image file that stands as a unit.
ghost use Rattle.std.specs.Prelude.{◌≡◌, ◌≤◌, ◌<◌, ◌↔◌, ◌+◌, ◌-◌, ◌*◌, ◌/◌, [], ◌∷◌, min, length, not, true, false, IfSome, IsSome, IfOk, OnOk, IsTrue};
ghost use Rattle.cms_journal.specs.Journal.{may_write};
ghost use Rattle.cms_journal.specs.Limits.{most_blocks};
ghost use Rattle.cms_host.specs.Deeds.{then_done, MayDo, opening_deeds, making_deeds, sharing_of};
ghost use Rattle.cms_host.specs.FileBytes.{HasBytes};
ghost use Rattle.cms_host.specs.HeldBytes.{HoldsTrue};
ghost use Rattle.cms_host.specs.declared.system.Deed.TheVariants.{Wrote, Synced};
ghost use Rattle.cms_host.specs.declared.system.Lock.TheVariants.{Refused};

use crate::read_ahead::{Place, ReadAhead};
use crate::system::{Lock, Sharing, System};
use crate::trouble::Trouble;
use cms_journal::MOST_BLOCKS;
use cms_world::Access;
use std::io;

/// An image file that stands as a unit.
#[derive(Clone, Copy)]
pub struct FileUnit {
    /// the number of its file
    pub file: usize,
    /// what came of asking for the lock on its file
    pub lock: Lock,
    /// the bytes of a block
    pub bsize: u32,
    /// how many whole blocks it has
    pub blocks: u32,
    /// it may be written
    pub writable: bool,
    /// a sync of it failed, so that what was written may be gone, whatever a later one says
    pub lost: bool,
}

impl FileUnit {
    // Where a block of that many bytes begins in the file, if the unit has it.
    fn place(&self, block: u32, size: usize) -> Option<u64>
        ensures place { IfSome result (λ place. place ≡ (block - 1) * self.now.bsize) }
        ensures has { IsSome result
            ↔ ((size ≡ self.now.bsize) × (1 ≤ block) × (block ≤ self.now.blocks)) }
    {
        let has_it = size == self.bsize as usize && block >= 1 && block <= self.blocks;
        has_it.then_some((block as u64).saturating_sub(1) * self.bsize as u64)
    }

    // How many bytes may be read from a place on: those of the unit, where its file is locked, so that nobody else writes to it.
    fn most(&self, place: u64) -> u64 {
        match self.lock {
            Lock::Taken => (self.blocks as u64 * self.bsize as u64).saturating_sub(place),
            _ => 0,
        }
    }

    /// Reads a block, and says whether all of it was read.
    pub fn read<S: System>(
        &self,
        system: &mut S,
        ahead: &mut ReadAhead,
        block: u32,
        into: &mut [u8],
    ) -> bool
        requires { HoldsTrue (S.files system.old) ahead.old }
        ensures has { IsTrue result
            → (length into.old ≡ self.now.bsize) × (1 ≤ block) × (block ≤ self.now.blocks) }
        ensures told { S.told system.new ≡ S.told system.old }
        ensures bytes { IsTrue result → HasBytes (S.files system.old self.now.file)
            ((block - 1) * self.now.bsize) into.new }
        ensures held { HoldsTrue (S.files system.new) ahead.new }
    {
        match self.place(block, into.len()) {
            Some(byte) => {
                let place = Place {
                    file: self.file,
                    byte,
                };
                ahead.read(system, place, self.most(byte), into)
            }
            None => false,
        }
    }

    /// Writes a block, and says whether all of it was written.
    #[tactic(auto, using(crate::proofs::HeldBytes::write_lemmas))]
    pub fn write<S: System>(
        &self,
        system: &mut S,
        ahead: &mut ReadAhead,
        block: u32,
        from: &[u8],
    ) -> bool
        requires { HoldsTrue (S.files system.old) ahead.old }
        ensures has { IsTrue result
            → (length from.now ≡ self.now.bsize) × (1 ≤ block) × (block ≤ self.now.blocks) }
        ensures writable { IsTrue result → IsTrue self.now.writable }
        ensures wrote { IsTrue result → S.told system.new
            ≡ then_done (S.told system.old)
            (Wrote self.now.file ((block - 1) * self.now.bsize) from.now ∷ []) }
        ensures failed { MayDo (Wrote self.now.file ((block - 1) * self.now.bsize) from.now ∷ [])
            (S.told system.old) (S.told system.new) }
        ensures held { HoldsTrue (S.files system.new) ahead.new }
    {
        match self.place(block, from.len()) {
            Some(byte) if self.writable => {
                let place = Place {
                    file: self.file,
                    byte,
                };
                ahead.let_go(place, from.len());
                system.write_at(self.file, from, byte)
            }
            _ => false,
        }
    }

    /// Waits until all that was written is on the device, and says whether it is. Once it couldn't it never is again: the
    /// system may have dropped what was written, and then answer well.
    pub fn sync<S: System>(&mut self, system: &mut S) -> bool
        ensures synced { IsTrue result → S.told system.new
            ≡ then_done (S.told system.old) (Synced self.old.file ∷ []) }
        ensures failed { result ≡ false → S.told system.new ≡ S.told system.old }
        ensures files { S.files system.new ≡ S.files system.old }
        ensures believed { IsTrue self.old.lost → result ≡ false }
        ensures lost { self.new ≡ record self.old { lost = not result } }
    {
        if self.lost {
            return false;
        }
        let synced = system.sync(self.file);
        self.lost = !synced;
        synced
    }
}

// With whom an image is shared.
fn sharing(access: Access) -> Sharing
    ensures { result ≡ sharing_of access }
{
    match access {
        Access::ReadOnly => Sharing::Shared,
        Access::ReadWrite => Sharing::Alone,
        Access::New(_) => Sharing::Alone,
    }
}

// Gives a new image its blocks of zeros, and makes sure that it stays with its name.
#[tactic(auto, using(crate::proofs::Printed::made_lemmas))]
fn make_blocks<S: System>(
    system: &mut S,
    file: usize,
    name: &str,
    bsize: u32,
    access: Access,
) -> io::Result<()>
    ensures { OnOk result (S.told system.new
        ≡ then_done (S.told system.old) (making_deeds file name.now bsize access)) }
{
    let Access::New(count) = access else {
        return Ok(());
    };
    system.set_size(file, count as u64 * bsize as u64)?;
    if !system.sync(file) {
        return Err(io::Error::other("it can't be synced"));
    }
    system.sync_folder(name)
}

// The whole blocks in so many bytes, up to the last one that counts.
fn whole_blocks(bytes: u64, bsize: u32) -> u32
    requires { 0 < bsize }
    ensures { result ≡ min (bytes / bsize) most_blocks }
{
    (bytes / bsize as u64).min(u64::from(MOST_BLOCKS)) as u32
}

/// An image as a unit, with the lock on its file. What isn't a plain file is refused, and so is one that is in use.
#[tactic(auto, using(crate::proofs::Printed::made_lemmas))]
pub fn open_unit<S: System>(
    system: &mut S,
    name: &str,
    bsize: u32,
    access: Access,
) -> Result<FileUnit, Trouble>
    requires { 0 < bsize }
    ensures bsize { IfOk result (λ unit. unit.bsize ≡ bsize) }
    ensures blocks { IfOk result (λ unit. unit.blocks ≤ most_blocks) }
    ensures writable { IfOk result (λ unit. unit.writable ≡ may_write access) }
    ensures lock { IfOk result (λ unit. unit.lock ≡ Refused → ⊥) }
    ensures lost { IfOk result (λ unit. unit.lost ≡ false) }
    ensures opened { IfOk result (λ unit. S.told system.new
        ≡ then_done (S.told system.old) (opening_deeds unit.file name.now bsize access unit.lock)) }
{
    let file = system.open(name, access).map_err(Trouble::Image)?;
    let lock = system.lock(file, sharing(access)).map_err(Trouble::Image)?;
    if let Lock::Refused = lock {
        return Err(Trouble::InUse);
    }
    make_blocks(system, file, name, bsize, access).map_err(Trouble::Image)?;
    let bytes = system.size(file).map_err(Trouble::Image)?;
    let blocks = whole_blocks(bytes, bsize);
    let writable = access != Access::ReadOnly;
    Ok(FileUnit {
        file,
        lock,
        bsize,
        blocks,
        writable,
        lost: false,
    })
}
