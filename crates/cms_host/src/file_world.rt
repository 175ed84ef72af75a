// The world of real files, the standard streams and the system's clock.
ghost use Rattle.std.specs.Prelude.{◌≡◌, ◌≢◌, ◌≤◌, ◌<◌, ◌↔◌, ◌-◌, ◌*◌, ◌⊎◌, [], ◌∷◌, ◌++◌, length, take, slice_get, vec_len, false, None, IfSome, IsSomeAnd, IsNone, OnSome, IfOk, OnOk, OnErr, IsTrue, is_ok};
ghost use Rattle.cms_journal.specs.Causes.{HasCause};
ghost use Rattle.cms_journal.specs.Journal.{IsBlockSize};
ghost use Rattle.cms_host.specs.Answers.{one_more};
ghost use Rattle.cms_host.specs.Deeds.{Prints, PrintsThen, opening_deeds};
ghost use Rattle.std.proofs.Props.{props};
ghost use Rattle.cms_host.specs.FileBytes.{HasBytes};
ghost use Rattle.cms_host.specs.HeldBytes.{HoldsTrue};
ghost use Rattle.cms_host.specs.Units.{OnlyLoses, UnitDeeds};
ghost use Rattle.cms_host.specs.declared.system.Deed.TheVariants.{Wrote, Synced, ScriptRead};

use crate::file_unit::{FileUnit, open_unit};
use crate::output::Gathered;
use crate::read_ahead::ReadAhead;
use crate::system::{Lock, System, Warning};
use crate::trouble::Trouble;
use cms_world::{Access, Failed, Unit, World};
use std::alloc::{AllocError, Global};
use std::io;
use std::io::ErrorKind;

/// A world over real files: a unit is an image file, the console is standard input and output, and the clock is the
/// system's. It keeps no journal.
///
/// What is typed is gathered. It is printed before the script is read, an image is attached, or a unit is written or synced, when
/// 65,536 bytes are gathered, and at the end; where output is taken line by line it isn't gathered. Where it can't be printed the
/// call fails before it does anything, and what is left is tried again with the next call.
///
/// Blocks that are read one behind the other are read together, where their image is locked, up to 65,536 bytes at a time. What a block
/// gives is what its file has when it is asked for, and a failure is that of this block alone.
///
/// An image is locked as long as the world stands. A unit whose sync failed once isn't synced any more: each later sync of it fails.
#[derive(Drop)]
pub struct FileWorld<S: System + Drop> {
    system: S,
    output: Gathered,
    ahead: ReadAhead,
    units: Vec<FileUnit>,
    faults: u64,
    edges: u64,
    trouble: Option<Trouble>,
    warned: bool,
    ghost held: { HoldsTrue (S.files system) ahead } by { Prim.hlevel props },
}

impl<S: System + Drop> FileWorld<S> {
    /// A world with no units, whose output is gathered or is taken line by line.
    pub fn new(alloc: Global, system: S, lines: bool) -> Result<Self, AllocError>
        ensures units { IfOk result (λ world. world.units.items ≡ []) }
        ensures counts { IfOk result (λ world. (world.faults ≡ 0) × (world.edges ≡ 0)) }
        ensures output { IfOk result (λ world. world.output ≡ []) }
    {
        Ok(FileWorld {
            system,
            output: Gathered::new(alloc, lines)?,
            ahead: ReadAhead::new(alloc),
            units: Vec::new(alloc),
            faults: 0,
            edges: 0,
            trouble: None,
            warned: false,
        })
    }

    /// What failed last: a call other than on a unit before all others.
    pub fn trouble(&self) -> Option<&Trouble> {
        self.trouble.as_ref()
    }

    /// The system that is asked.
    pub fn system(&self) -> &S
        ensures { result.now ≡ self.now.system }
    {
        &self.system
    }

    /// How many calls on units failed, and how many others.
    pub fn failures(&self) -> (u64, u64)
        ensures faults { result.0 ≡ self.now.faults }
        ensures edges { result.1 ≡ self.now.edges }
    {
        (self.faults, self.edges)
    }

    /// How many units were attached.
    pub fn attached(&self) -> usize
        ensures { result ≡ vec_len self.now.units }
    {
        self.units.len()
    }

    /// Prints all that was typed, and says whether it could.
    pub fn finish(&mut self) -> bool
        ensures all { IsTrue result ↔ (self.new.output ≡ []) }
        ensures prints { Prints self.old.output self.new.output
            (S.told self.old.system) (S.told self.new.system) }
        ensures units { self.new.units.items ≡ self.old.units.items }
        ensures faults { self.new.faults ≡ self.old.faults }
        ensures edges { self.new.edges ≡ self.old.edges }
    {
        let printed = self.output.flush(&mut self.system);
        if !printed {
            self.trouble = Some(Trouble::Output);
        }
        printed
    }

    // Adds an image as the next unit.
    #[tactic(auto, using(crate::proofs::Printed::done_lemmas))]
    fn add_unit(&mut self, name: &str, bsize: u32, access: Access) -> Result<Unit, Trouble>
        requires { 0 < bsize }
        ensures number { IfOk result (λ unit. unit.number ≡ length self.old.units.items) }
        ensures opened { IfOk result (λ unit. UnitDeeds self.new.units.items unit.number
            (λ u. opening_deeds u.file name.now bsize access u.lock) self.old.output self.new.output
            (S.told self.old.system) (S.told self.new.system)) }
        ensures units { OnOk result (take (length self.old.units.items) self.new.units.items
            ≡ self.old.units.items) }
        ensures kept { OnErr result (self.new.units.items ≡ self.old.units.items) }
        ensures faults { self.new.faults ≡ self.old.faults }
        ensures edges { self.new.edges ≡ self.old.edges }
    {
        if !self.finish() {
            return Err(Trouble::Output);
        }
        let Ok(number) = u8::try_from(self.units.len()) else {
            return Err(Trouble::Image(io::Error::from(ErrorKind::QuotaExceeded)));
        };
        self.ahead.clear();
        let unit = open_unit(&mut self.system, name, bsize, access)?;
        match self.units.push(unit) {
            Ok(()) => Ok(Unit {
                number,
                blocks: unit.blocks,
            }),
            Err(_) => Err(Trouble::Image(io::Error::from(ErrorKind::OutOfMemory))),
        }
    }

    // An image as the next unit. Where it can't be locked a person is told so, once.
    fn attach_image(&mut self, name: &str, bsize: u32, access: Access) -> Option<Unit>
        requires { 0 < bsize }
        ensures number { IfSome result (λ unit. unit.number ≡ length self.old.units.items) }
        ensures opened { IfSome result (λ unit. UnitDeeds self.new.units.items unit.number
            (λ u. opening_deeds u.file name.now bsize access u.lock) self.old.output self.new.output
            (S.told self.old.system) (S.told self.new.system)) }
        ensures units { OnSome result (take (length self.old.units.items) self.new.units.items
            ≡ self.old.units.items) }
        ensures kept { IsNone result → self.new.units.items ≡ self.old.units.items }
        ensures faults { self.new.faults ≡ self.old.faults }
        ensures edges { self.new.edges ≡ self.old.edges }
    {
        match self.add_unit(name, bsize, access) {
            Ok(unit) => {
                self.warn_of_locks();
                Some(unit)
            }
            Err(trouble) => {
                self.trouble = Some(trouble);
                None
            }
        }
    }

    // Tells a person, once, that the last image has no lock.
    fn warn_of_locks(&mut self)
        ensures told { S.told self.new.system ≡ S.told self.old.system }
        ensures output { self.new.output ≡ self.old.output }
        ensures units { self.new.units.items ≡ self.old.units.items }
        ensures faults { self.new.faults ≡ self.old.faults }
        ensures edges { self.new.edges ≡ self.old.edges }
    {
        if self.warned {
            return;
        }
        if let Some(unit) = self.units.last() {
            if let Lock::Unknown = unit.lock {
                self.warned = true;
                self.system.warn(Warning::NoLocks(unit.file));
            }
        }
    }

    // Reads a block of a unit, and says whether all of it was read.
    fn read_unit(&mut self, unit: u8, block: u32, into: &mut [u8]) -> bool
        ensures bytes { IsTrue result → IsSomeAnd (slice_get self.old.units.items unit)
            (λ u. HasBytes (S.files self.old.system u.file) ((block - 1) * u.bsize) into.new) }
        ensures told { S.told self.new.system ≡ S.told self.old.system }
        ensures output { self.new.output ≡ self.old.output }
        ensures units { self.new.units.items ≡ self.old.units.items }
        ensures faults { self.new.faults ≡ self.old.faults }
        ensures edges { self.new.edges ≡ self.old.edges }
    {
        match self.units.get(unit as usize) {
            Some(unit) => unit.read(&mut self.system, &mut self.ahead, block, into),
            None => false,
        }
    }

    // Writes a block of a unit once what was typed is printed, and says whether all of it was written.
    #[tactic(auto, using(crate::proofs::Printed::done_lemmas))]
    fn write_unit(&mut self, unit: u8, block: u32, from: &[u8]) -> bool
        ensures wrote { IsTrue result → UnitDeeds self.old.units.items unit
            (λ u. Wrote u.file ((block - 1) * u.bsize) from.now ∷ [])
            self.old.output self.new.output (S.told self.old.system) (S.told self.new.system) }
        ensures failed { Prints self.old.output self.new.output
            (S.told self.old.system) (S.told self.new.system)
            ⊎ UnitDeeds self.old.units.items unit
            (λ u. Wrote u.file ((block - 1) * u.bsize) from.now ∷ [])
            self.old.output self.new.output (S.told self.old.system) (S.told self.new.system) }
        ensures units { self.new.units.items ≡ self.old.units.items }
        ensures faults { self.new.faults ≡ self.old.faults }
        ensures edges { self.new.edges ≡ self.old.edges }
    {
        let printed = self.finish();
        match self.units.get(unit as usize) {
            Some(unit) if printed => unit.write(&mut self.system, &mut self.ahead, block, from),
            _ => false,
        }
    }

    // Syncs a unit once what was typed is printed, and says whether it is. Where that fails a person is told so, once a unit.
    #[tactic(auto, using(crate::proofs::Printed::done_lemmas))]
    fn sync_unit(&mut self, unit: u8) -> bool
        ensures synced { IsTrue result → UnitDeeds self.old.units.items unit
            (λ u. Synced u.file ∷ []) self.old.output self.new.output
            (S.told self.old.system) (S.told self.new.system) }
        ensures believed { IsTrue result → IfSome (slice_get self.old.units.items unit)
            (λ u. u.lost ≡ false) }
        ensures failed { result ≡ false → Prints self.old.output self.new.output
            (S.told self.old.system) (S.told self.new.system) }
        ensures lost { result ≡ false → (self.new.output ≢ [])
            ⊎ IfSome (slice_get self.new.units.items unit) (λ u. IsTrue u.lost) }
        ensures units { OnlyLoses unit result self.old.units.items self.new.units.items }
        ensures faults { self.new.faults ≡ self.old.faults }
        ensures edges { self.new.edges ≡ self.old.edges }
    {
        if !self.finish() {
            return false;
        }
        let place = unit as usize;
        if place >= self.units.len() {
            return false;
        }
        let mut unit = self.units[place];
        let was_lost = unit.lost;
        let synced = unit.sync(&mut self.system);
        self.units[place] = unit;
        if !synced && !was_lost {
            self.system.warn(Warning::LostSync(unit.file));
        }
        synced
    }

    // The next bytes of the script, once what was typed is printed.
    #[tactic(auto, using(crate::proofs::Printed::done_lemmas))]
    fn read_script(&mut self, into: &mut [u8]) -> Option<usize>
        ensures within { IfSome result (λ n. n ≤ length into.old) }
        ensures done { OnSome result (PrintsThen (ScriptRead ∷ []) self.old.output self.new.output
            (S.told self.old.system) (S.told self.new.system)) }
        ensures failed { Prints self.old.output self.new.output
            (S.told self.old.system) (S.told self.new.system)
            ⊎ PrintsThen (ScriptRead ∷ []) self.old.output self.new.output
            (S.told self.old.system) (S.told self.new.system) }
        ensures units { self.new.units.items ≡ self.old.units.items }
        ensures faults { self.new.faults ≡ self.old.faults }
        ensures edges { self.new.edges ≡ self.old.edges }
    {
        if !self.finish() {
            return None;
        }
        let count = self.system.read(into);
        if count.is_none() {
            self.trouble = Some(Trouble::Input);
        }
        count
    }

    // A failed call on a unit, counted.
    fn unit_failed(&mut self) -> Failed
        ensures faults { self.new.faults ≡ one_more self.old.faults }
        ensures later { self.old.faults ≤ self.new.faults }
        ensures edges { self.new.edges ≡ self.old.edges }
        ensures units { self.new.units.items ≡ self.old.units.items }
        ensures output { self.new.output ≡ self.old.output }
        ensures told { S.told self.new.system ≡ S.told self.old.system }
    {
        self.faults = self.faults.saturating_add(1);
        if self.trouble.is_none() {
            self.trouble = Some(Trouble::Device);
        }
        Failed
    }

    // Another failed call, counted.
    fn edge_failed(&mut self) -> Failed
        ensures edges { self.new.edges ≡ one_more self.old.edges }
        ensures later { self.old.edges ≤ self.new.edges }
        ensures faults { self.new.faults ≡ self.old.faults }
        ensures units { self.new.units.items ≡ self.old.units.items }
        ensures output { self.new.output ≡ self.old.output }
        ensures told { S.told self.new.system ≡ S.told self.old.system }
    {
        self.edges = self.edges.saturating_add(1);
        Failed
    }
}

#[tactic(auto, using(crate::proofs::Failures::cause_of))]
impl<S: System + Drop> World for FileWorld<S> {
    ghost faults = { λ w. w.faults };

    ghost edges = { λ w. w.edges };

    ghost told = { λ w. None };

    fn attach(&mut self, name: &str, bsize: u32, access: Access) -> Result<Unit, Failed>
        requires { IsBlockSize bsize }
        ensures number { IfOk result (λ unit. unit.number ≡ length self.old.units.items) }
        ensures opened { IfOk result (λ unit. UnitDeeds self.new.units.items unit.number
            (λ u. opening_deeds u.file name.now bsize access u.lock) self.old.output self.new.output
            (S.told self.old.system) (S.told self.new.system)) }
        ensures units { OnOk result (take (length self.old.units.items) self.new.units.items
            ≡ self.old.units.items) }
        ensures kept { OnErr result (self.new.units.items ≡ self.old.units.items) }
        ensures cause { HasCause self.old.edges self.new.edges result }
        ensures faults { self.new.faults ≡ self.old.faults }
    {
        match self.attach_image(name, bsize, access) {
            Some(unit) => Ok(unit),
            None => Err(self.edge_failed()),
        }
    }

    fn read_block(&mut self, unit: u8, block: u32, into: &mut [u8]) -> Result<(), Failed>
        ensures bytes { OnOk result (IsSomeAnd (slice_get self.old.units.items unit)
            (λ u. HasBytes (S.files self.old.system u.file) ((block - 1) * u.bsize) into.new)) }
        ensures done { S.told self.new.system ≡ S.told self.old.system }
        ensures output { self.new.output ≡ self.old.output }
        ensures units { self.new.units.items ≡ self.old.units.items }
        ensures cause { HasCause self.old.faults self.new.faults result }
        ensures edges { self.new.edges ≡ self.old.edges }
    {
        if self.read_unit(unit, block, into) {
            return Ok(());
        }
        Err(self.unit_failed())
    }

    fn write_block(&mut self, unit: u8, block: u32, from: &[u8]) -> Result<(), Failed>
        ensures done { OnOk result (UnitDeeds self.old.units.items unit
            (λ u. Wrote u.file ((block - 1) * u.bsize) from.now ∷ [])
            self.old.output self.new.output (S.told self.old.system) (S.told self.new.system)) }
        ensures may_be_done { Prints self.old.output self.new.output
            (S.told self.old.system) (S.told self.new.system)
            ⊎ UnitDeeds self.old.units.items unit
            (λ u. Wrote u.file ((block - 1) * u.bsize) from.now ∷ [])
            self.old.output self.new.output (S.told self.old.system) (S.told self.new.system) }
        ensures units { self.new.units.items ≡ self.old.units.items }
        ensures cause { HasCause self.old.faults self.new.faults result }
        ensures edges { self.new.edges ≡ self.old.edges }
    {
        if self.write_unit(unit, block, from) {
            return Ok(());
        }
        Err(self.unit_failed())
    }

    fn sync(&mut self, unit: u8) -> Result<(), Failed>
        ensures done { OnOk result (UnitDeeds self.old.units.items unit
            (λ u. Synced u.file ∷ []) self.old.output self.new.output
            (S.told self.old.system) (S.told self.new.system)) }
        ensures believed { OnOk result (IfSome (slice_get self.old.units.items unit)
            (λ u. u.lost ≡ false)) }
        ensures prints { OnErr result (Prints self.old.output self.new.output
            (S.told self.old.system) (S.told self.new.system)) }
        ensures lost { OnErr result ((self.new.output ≢ [])
            ⊎ IfSome (slice_get self.new.units.items unit) (λ u. IsTrue u.lost)) }
        ensures units { OnlyLoses unit (is_ok result) self.old.units.items self.new.units.items }
        ensures cause { HasCause self.old.faults self.new.faults result }
        ensures edges { self.new.edges ≡ self.old.edges }
    {
        if self.sync_unit(unit) {
            return Ok(());
        }
        Err(self.unit_failed())
    }

    fn read(&mut self, into: &mut [u8]) -> Result<usize, Failed>
        ensures within { IfOk result (λ n. n ≤ length into.old) }
        ensures done { OnOk result (PrintsThen (ScriptRead ∷ []) self.old.output self.new.output
            (S.told self.old.system) (S.told self.new.system)) }
        ensures may_be_done { Prints self.old.output self.new.output
            (S.told self.old.system) (S.told self.new.system)
            ⊎ PrintsThen (ScriptRead ∷ []) self.old.output self.new.output
            (S.told self.old.system) (S.told self.new.system) }
        ensures units { self.new.units.items ≡ self.old.units.items }
        ensures cause { HasCause self.old.edges self.new.edges result }
        ensures faults { self.new.faults ≡ self.old.faults }
    {
        match self.read_script(into) {
            Some(count) => Ok(count),
            None => Err(self.edge_failed()),
        }
    }

    fn type_out(&mut self, from: &[u8]) -> Result<usize, Failed>
        requires { 0 < length from.now }
        ensures within { IfOk result (λ n. (0 < n) × (n ≤ length from.now)) }
        ensures taken { IfOk result (λ n. Prints (self.old.output ++ take n from.now)
            self.new.output (S.told self.old.system) (S.told self.new.system)) }
        ensures prints { OnErr result (Prints self.old.output self.new.output
            (S.told self.old.system) (S.told self.new.system)) }
        ensures units { self.new.units.items ≡ self.old.units.items }
        ensures cause { HasCause self.old.edges self.new.edges result }
        ensures faults { self.new.faults ≡ self.old.faults }
    {
        match self.output.add(&mut self.system, from) {
            Some(count) => Ok(count),
            None => {
                self.trouble = Some(Trouble::Output);
                Err(self.edge_failed())
            }
        }
    }

    fn now(&mut self) -> Result<i64, Failed>
        ensures done { S.told self.new.system ≡ S.told self.old.system }
        ensures output { self.new.output ≡ self.old.output }
        ensures units { self.new.units.items ≡ self.old.units.items }
        ensures cause { HasCause self.old.edges self.new.edges result }
        ensures faults { self.new.faults ≡ self.old.faults }
    {
        match self.system.seconds() {
            Some(seconds) => Ok(seconds),
            None => {
                self.trouble = Some(Trouble::Clock);
                Err(self.edge_failed())
            }
        }
    }
}
