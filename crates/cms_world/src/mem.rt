// A world in memory, which tells its journal and fails where it is told to.
ghost use Rattle.std.specs.Prelude.{◌≡◌, ◌≢◌, ◌⊎◌, ◌↔◌, ◌≤◌, ◌<◌, ◌+◌, ◌-◌, ◌^◌, ℕ, List, [], ◌∷◌, ◌++◌, length, take, drop, min, option_map, Option, None, Some, true, IfOk, OnOk, OnErr, All, IsTrue};
ghost use Rattle.std.specs.List.{concat};
ghost use Rattle.std.specs.Option.{ForSome};
ghost use Rattle.cms_journal.specs.Causes.{Rose, HasCause};
ghost use Rattle.cms_journal.specs.Journal.{IsBlockSize, HasUnit, HasBlock, HasBlocks, IsWritable, IsAttached, IsFresh, IsMade, may_write, adds, MayAdd, NoneIsNamed, block_of, typed_of, first_events, start_of};
ghost use Rattle.cms_journal.specs.declared.event.Event.TheVariants.{Read, Now, Typed, Wrote, Synced, Missed};
ghost use Rattle.cms_world.specs.Crash.{chosen_image, HoldsCrashImage};
ghost use Rattle.cms_world.specs.Images.{starting};

use crate::attach::attach_image;
use crate::images::Image;
use crate::plan::{ATTACH, NOW, Next, Plan, READ, READ_BLOCK, SYNC, TYPE_OUT, WRITE_BLOCK};
use crate::recorder::Recorder;
use crate::script::Script;
use crate::{Access, Failed, Unit, World};
use cms_journal::{Bytes, Event};
use std::alloc::{AllocError, Global};
use std::collections::BTreeMap;

/// A world in memory, for tests. It tells its journal, never fails but where it is told to or finds no memory, and makes the
/// images that a crash may leave.
///
/// An image lives on under its name: attached again, also with another block size, it has what was written to it by then, and so
/// has an image that was made by `New`. Units of one name that are attached at the same time don't see each other's writes; where
/// they differ, those of the unit attached last stand.
#[derive(Drop)]
pub struct MemWorld {
    alloc: Global,
    images: BTreeMap<String, Image>,
    recorder: Recorder,
    script: Script,
    seconds: i64,
    plan: Plan,
    faults: u64,
    edges: u64,
}

impl MemWorld {
    ghost use Rattle.cms_world.specs.Mem.{journal_of, told_of, faults_of, edges_of, calls_of, planned_of, images_of, image_of, standing_of, rest_of, IsStill};

    /// A world with no images and no units, with this script and a clock that says `start` first and then a second more at each
    /// call, held at the greatest `i64`.
    pub fn new(alloc: Global, script: &[u8], start: i64) -> Result<MemWorld, AllocError>
        ensures journal { IfOk result (λ w. journal_of w ≡ record { units = []; events = [] }) }
        ensures rest { IfOk result (λ w. rest_of w
            ≡ record { script = script.now; clock = start; images = []; failing = [] }) }
        ensures calls { IfOk result (λ w. calls_of w ≡ []) }
        ensures faults { IfOk result (λ w. faults_of w ≡ 0) }
        ensures edges { IfOk result (λ w. edges_of w ≡ 0) }
    {
        Ok(MemWorld {
            alloc,
            images: BTreeMap::new(alloc),
            recorder: Recorder::new(alloc),
            script: Script::new(script.to_vec(alloc)?),
            seconds: start,
            plan: Plan::new(alloc),
            faults: 0,
            edges: 0,
        })
    }

    /// Gives an image; one of that name is replaced. Units that are attached don't see it.
    pub fn add_image(&mut self, name: &str, bytes: &[u8]) -> Result<(), AllocError>
        ensures given { OnOk result (standing_of self.new name.now ≡ Some bytes.now) }
        ensures others { (other : List ℕ) → other ≢ name.now
            → image_of self.new other ≡ image_of self.old other }
        ensures rest { rest_of self.new
            ≡ record (rest_of self.old) { images = images_of self.new } }
        ensures err { OnErr result (images_of self.new ≡ images_of self.old) }
        ensures still { IsStill self.old self.new }
    {
        let image = Image {
            bytes: Bytes::of(self.alloc, bytes)?,
            since: self.recorder.units(),
        };
        self.images
            .insert(String::from_str(self.alloc, name)?, image)?;
        Ok(())
    }

    /// Plans that the call with this number fails, counted from 1 over all seven calls of the trait; a write adds its event where
    /// it `lands`, and is no call where no memory is left for that. Of two plans for one call the later holds.
    pub fn fail_at(&mut self, call: u32, lands: bool) -> Result<(), AllocError>
        ensures planned { OnOk result (planned_of self.new call ≡ Some lands) }
        ensures others { (other : ℕ) → other ≢ call
            → planned_of self.new other ≡ planned_of self.old other }
        ensures rest { rest_of self.new
            ≡ record (rest_of self.old) { failing = (rest_of self.new).failing } }
        ensures err { OnErr result (rest_of self.new ≡ rest_of self.old) }
        ensures still { IsStill self.old self.new }
    {
        self.plan.fail_at(call, lands)
    }

    /// All that was typed.
    pub fn typed(&self) -> &[u8]
        ensures { result.now ≡ typed_of (journal_of self.now).events }
    {
        self.recorder.typed()
    }

    /// How many events there are.
    pub fn events(&self) -> usize
        ensures { result ≡ length (journal_of self.now).events }
    {
        self.recorder.len()
    }

    /// How many units are attached.
    pub fn units(&self) -> usize
        ensures { result ≡ length (journal_of self.now).units }
    {
        self.recorder.units()
    }

    /// An ASCII letter for each call of the trait so far, in their order: `a` attach, `r` read_block, `w` write_block, `s` sync, `i`
    /// read, `o` type_out, `n` now.
    pub fn calls(&self) -> &[u8]
        ensures { result.now ≡ calls_of self.now }
    {
        &self.plan.calls
    }

    /// Whether a unit is attached.
    pub fn has_unit(&self, unit: u8) -> bool
        ensures { IsTrue result ↔ HasUnit (journal_of self.now).units unit }
    {
        self.recorder.has_unit(unit)
    }

    /// Whether a unit is attached with this block size and has this block, from 1.
    pub fn has_block(&self, unit: u8, block: u32, size: usize) -> bool
        ensures { IsTrue result ↔ HasBlock (journal_of self.now).units unit block size }
    {
        self.recorder.has_block(unit, block, size)
    }

    /// Whether a unit is attached so that it may be written.
    pub fn is_writable(&self, unit: u8) -> bool
        ensures { IsTrue result ↔ IsWritable (journal_of self.now).units unit }
    {
        self.recorder.is_writable(unit)
    }

    /// The image of a unit that a crash right after the first `at` events leaves: each block that was written and not synced is as
    /// last written where its bit of `choice` is 1, and as at the last sync where it is 0. The k-th such block in ascending order,
    /// from 0, has bit `k mod 64`.
    ///
    /// It looks through the events once for each block.
    pub fn crash(
        &self,
        alloc: Global,
        unit: u8,
        at: usize,
        choice: u64,
    ) -> Result<Vec<u8>, AllocError>
        requires unit { HasUnit (journal_of self.now).units unit }
        requires at { at ≤ length (journal_of self.now).events }
        ensures chosen { IfOk result (λ image. let j = journal_of self.now in image.items
            ≡ concat (chosen_image (first_events at j.events) unit choice
            (start_of j.units unit))) }
        ensures crash { IfOk result (λ image.
            let j = journal_of self.now in HoldsCrashImage (first_events at j.events) unit
            (start_of j.units unit) image.items) }
    {
        self.recorder.crash(alloc, unit, at, choice)
    }

    // A write fails and lands: it is written down only once its event stands.
    fn land(&mut self, unit: u8, block: u32, from: &[u8])
        requires { HasBlock (journal_of self.old).units unit block (length from.now) }
        ensures landed { (told_of self.new ≡ adds (Wrote unit block from.now) (told_of self.old))
            ⊎ IsStill self.old self.new }
        ensures calls { (calls_of self.new ≡ calls_of self.old ++ WRITE_BLOCK ∷ [])
            ⊎ (calls_of self.new ≡ calls_of self.old) }
        ensures rest { rest_of self.new ≡ rest_of self.old }
        ensures faults { faults_of self.new ≡ faults_of self.old }
        ensures edges { edges_of self.new ≡ edges_of self.old }
    {
        if self
            .recorder
            .add_write(self.alloc, unit, block, from)
            .is_ok()
        {
            let _ = self.plan.write_down(WRITE_BLOCK);
        }
    }

    // The bytes that stand under a name by now.
    fn standing(&self, name: &str) -> Result<Option<Vec<u8>>, AllocError>
        ensures standing { IfOk result (λ standing. option_map (λ bytes. bytes.items) standing
            ≡ standing_of self.now name.now) }
        ensures absent { IfOk result (λ standing. standing ≡ None
            → NoneIsNamed (journal_of self.now).units name.now) }
    {
        let recorder = &self.recorder;
        match self.images.get(name) {
            Some(image) => Ok(Some(recorder.written_over(
                self.alloc,
                name,
                image.since,
                image.bytes.bytes(),
            )?)),
            None => {
                if recorder.is_named(name) {
                    Ok(Some(recorder.written_over(self.alloc, name, 0, &[])?))
                } else {
                    Ok(None)
                }
            }
        }
    }
}

// Counts a failure.
fn counted(failures: &mut u64) -> Failed
    ensures count { failures.new ≡ min (failures.old + 1) (2 ^ 64 - 1) }
    ensures later { failures.old ≤ failures.new }
    ensures rose { Rose failures.old failures.new }
{
    *failures = failures.saturating_add(1);
    Failed
}

impl World for MemWorld {
    ghost use Rattle.cms_world.specs.Mem.{journal_of, told_of, faults_of, edges_of, calls_of, planned_next, standing_of, rest_of, next_second, IsCalled};

    ghost faults = { faults_of };

    ghost edges = { edges_of };

    ghost told = { told_of };

    // What the trait says; and the unit has the blocks of what stands under its name.
    fn attach(&mut self, name: &str, bsize: u32, access: Access) -> Result<Unit, Failed>
        requires size { IsBlockSize bsize }
        requires room { ForSome (told_of self.old) (λ j. length j.units < 256) }
        ensures attached { IfOk result (λ unit. ForSome (told_of self.old)
            (λ j. IsAttached j (told_of self.new) name.now bsize access unit.number unit.blocks)) }
        ensures held { IfOk result (λ unit. ForSome (told_of self.new)
            (λ j. HasBlocks j.units unit.number unit.blocks bsize)) }
        ensures writable { IfOk result (λ unit. IsTrue (may_write access)
            → ForSome (told_of self.new) (λ j. IsWritable j.units unit.number)) }
        ensures silent { told_of self.old ≡ None → told_of self.new ≡ None }
        ensures failed { OnErr result (MayAdd (Missed name.now bsize access) (told_of self.old)
            (told_of self.new)) }
        ensures cause { HasCause (edges_of self.old) (edges_of self.new) result }
        ensures faults { faults_of self.new ≡ faults_of self.old }

        ensures start { IfOk result (λ unit. starting (standing_of self.old name.now) access bsize
            ≡ Some (start_of (journal_of self.new).units unit.number)) }
        ensures rest { rest_of self.new ≡ rest_of self.old }
        ensures called { IsCalled ATTACH self.old self.new result }
    {
        if let Next::Goes = self.plan.next(ATTACH)
            && let Ok(standing) = self.standing(name)
            && let Ok(Some(unit)) = attach_image(
                self.alloc,
                &mut self.recorder,
                standing,
                name,
                bsize,
                access,
            )
        {
            return Ok(unit);
        }
        let _ = self.recorder.add_missed(self.alloc, name, bsize, access);
        Err(counted(&mut self.edges))
    }

    // What the trait says, and nothing else is changed.
    fn read_block(&mut self, unit: u8, block: u32, into: &mut [u8]) -> Result<(), Failed>
        requires { ForSome (told_of self.old) (λ j. HasBlock j.units unit block (length into.old)) }
        ensures bytes { OnOk result (ForSome (told_of self.old)
            (λ j. into.new ≡ block_of j unit block)) }
        ensures told { told_of self.new ≡ told_of self.old }
        ensures cause { HasCause (faults_of self.old) (faults_of self.new) result }
        ensures edges { edges_of self.new ≡ edges_of self.old }

        ensures rest { rest_of self.new ≡ rest_of self.old }
        ensures called { IsCalled READ_BLOCK self.old self.new result }
    {
        if let Next::Goes = self.plan.next(READ_BLOCK) {
            into.copy_from_slice(self.recorder.block(unit, block, into.len()));
            return Ok(());
        }
        Err(counted(&mut self.faults))
    }

    // What the trait says; and a failed write adds its event where it was planned to land, or finds no memory and isn't written
    // down. Else it adds nothing.
    fn write_block(&mut self, unit: u8, block: u32, from: &[u8]) -> Result<(), Failed>
        requires block { ForSome (told_of self.old)
            (λ j. HasBlock j.units unit block (length from.now)) }
        requires writable { ForSome (told_of self.old) (λ j. IsWritable j.units unit) }
        ensures wrote { OnOk result (told_of self.new
            ≡ adds (Wrote unit block from.now) (told_of self.old)) }
        ensures failed { OnErr result (MayAdd (Wrote unit block from.now) (told_of self.old)
            (told_of self.new)) }
        ensures cause { HasCause (faults_of self.old) (faults_of self.new) result }
        ensures edges { edges_of self.new ≡ edges_of self.old }

        ensures dropped { OnErr result (planned_next self.old ≢ Some true
            → journal_of self.new ≡ journal_of self.old) }
        ensures landed { OnErr result (planned_next self.old ≡ Some true
            → (told_of self.new ≡ adds (Wrote unit block from.now) (told_of self.old))
            ⊎ (calls_of self.new ≡ calls_of self.old)) }
        ensures rest { rest_of self.new ≡ rest_of self.old }
        ensures called { IsCalled WRITE_BLOCK self.old self.new result }
    {
        if self.plan.lands_next() {
            self.land(unit, block, from);
        } else if let Next::Goes = self.plan.next(WRITE_BLOCK)
            && self
                .recorder
                .add_write(self.alloc, unit, block, from)
                .is_ok()
        {
            return Ok(());
        }
        Err(counted(&mut self.faults))
    }

    // What the trait says, and nothing else is changed.
    fn sync(&mut self, unit: u8) -> Result<(), Failed>
        requires { ForSome (told_of self.old) (λ j. HasUnit j.units unit) }
        ensures synced { OnOk result (told_of self.new ≡ adds (Synced unit) (told_of self.old)) }
        ensures failed { OnErr result (told_of self.new ≡ told_of self.old) }
        ensures cause { HasCause (faults_of self.old) (faults_of self.new) result }
        ensures edges { edges_of self.new ≡ edges_of self.old }

        ensures rest { rest_of self.new ≡ rest_of self.old }
        ensures called { IsCalled SYNC self.old self.new result }
    {
        if let Next::Goes = self.plan.next(SYNC)
            && self.recorder.add(Event::Synced(unit)).is_ok()
        {
            return Ok(());
        }
        Err(counted(&mut self.faults))
    }

    // What the trait says; and the bytes are the next of the script, as many as there is room for.
    fn read(&mut self, into: &mut [u8]) -> Result<usize, Failed>
        requires { 0 < length into.old }
        ensures within { IfOk result (λ n. n ≤ length into.old) }
        ensures bytes { IfOk result (λ n. told_of self.new
            ≡ adds (Read (take n into.new)) (told_of self.old)) }
        ensures failed { OnErr result (told_of self.new ≡ told_of self.old) }
        ensures cause { HasCause (edges_of self.old) (edges_of self.new) result }
        ensures faults { faults_of self.new ≡ faults_of self.old }

        ensures next { IfOk result (λ n. take n into.new
            ≡ take (length into.old) (rest_of self.old).script) }
        ensures rest { IfOk result (λ n. rest_of self.new
            ≡ record (rest_of self.old) { script = drop n (rest_of self.old).script }) }
        ensures kept { OnErr result (rest_of self.new ≡ rest_of self.old) }
        ensures called { IsCalled READ self.old self.new result }
    {
        if let Next::Goes = self.plan.next(READ) {
            let count = self.script.copy(into);
            if self.recorder.add_read(self.alloc, &into[..count]).is_ok() {
                self.script.advance(count);
                return Ok(count);
            }
        }
        Err(counted(&mut self.edges))
    }

    // What the trait says, and all the bytes are taken.
    fn type_out(&mut self, from: &[u8]) -> Result<usize, Failed>
        requires { 0 < length from.now }
        ensures within { IfOk result (λ n. (0 < n) × (n ≤ length from.now)) }
        ensures typed { IfOk result (λ n. told_of self.new
            ≡ adds (Typed (take n from.now)) (told_of self.old)) }
        ensures failed { OnErr result (told_of self.new ≡ told_of self.old) }
        ensures cause { HasCause (edges_of self.old) (edges_of self.new) result }
        ensures faults { faults_of self.new ≡ faults_of self.old }

        ensures all { IfOk result (λ n. n ≡ length from.now) }
        ensures rest { rest_of self.new ≡ rest_of self.old }
        ensures called { IsCalled TYPE_OUT self.old self.new result }
    {
        if let Next::Goes = self.plan.next(TYPE_OUT)
            && self.recorder.add_typed(self.alloc, from).is_ok()
        {
            return Ok(from.len());
        }
        Err(counted(&mut self.edges))
    }

    // What the trait says; and the clock goes on by a second, held at the greatest `i64`.
    fn now(&mut self) -> Result<i64, Failed>
        ensures now { IfOk result (λ t. told_of self.new ≡ adds (Now t) (told_of self.old)) }
        ensures failed { OnErr result (told_of self.new ≡ told_of self.old) }
        ensures cause { HasCause (edges_of self.old) (edges_of self.new) result }
        ensures faults { faults_of self.new ≡ faults_of self.old }

        ensures clock { IfOk result (λ t. t ≡ (rest_of self.old).clock) }
        ensures rest { OnOk result (rest_of self.new
            ≡ record (rest_of self.old) { clock = next_second (rest_of self.old).clock }) }
        ensures kept { OnErr result (rest_of self.new ≡ rest_of self.old) }
        ensures called { IsCalled NOW self.old self.new result }
    {
        if let Next::Goes = self.plan.next(NOW)
            && self.recorder.add(Event::Now(self.seconds)).is_ok()
        {
            let seconds = self.seconds;
            self.seconds = self.seconds.saturating_add(1);
            return Ok(seconds);
        }
        Err(counted(&mut self.edges))
    }
}
