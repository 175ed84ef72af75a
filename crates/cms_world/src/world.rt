// What a session asks of its surroundings.
ghost use Rattle.std.specs.Prelude.{◌≡◌, ◌≤◌, ◌<◌, ℕ, length, take, Option, None, OnOk, OnErr, IfOk, IsTrue};
ghost use Rattle.std.specs.Option.{ForSome};
ghost use Rattle.cms_journal.specs.Causes.{HasCause};
ghost use Rattle.cms_journal.specs.Journal.{Journal, IsBlockSize, HasUnit, HasBlock, HasBlocks, IsWritable, IsAttached, may_write, adds, MayAdd, block_of};
ghost use Rattle.cms_journal.specs.declared.event.Event.TheVariants.{Read, Now, Typed, Wrote, Synced, Missed};

use crate::{Access, Failed, Unit};

/// Units of blocks, a console and a clock.
///
/// A world has two counts that never fall. Each call answers [`Failed`] only where its own count rose in this call (or stands at
/// the last value of a counter), and leaves the other one as it was. A world may tell its journal; what a call needs of units
/// and blocks it needs only there.
pub trait World {
    /// How often a call on a unit failed: `read_block`, `write_block` or `sync`.
    ghost faults: { Self → ℕ };

    /// How often another call failed: `attach`, `read`, `type_out` or `now`.
    ghost edges: { Self → ℕ };

    /// The journal, or none where the world doesn't tell it.
    ghost told: { Self → Option Journal };

    /// Attaches an image as the next unit, from number 0, with blocks of `bsize` bytes: 512, 1024, 2048 or 4096. A told journal
    /// must have fewer than 256 units.
    ///
    /// The unit has the whole blocks of the image. `New(n)` makes an image of n blocks of zeros, and where the journal is told
    /// a name that is there already is a fault. A failed call adds no unit, and `Missed` or nothing.
    fn attach(&mut self, name: &str, bsize: u32, access: Access) -> Result<Unit, Failed>
        requires size { IsBlockSize bsize }
        requires room { ForSome (told self.old) (λ j. length j.units < 256) }
        ensures attached { IfOk result (λ unit. ForSome (told self.old)
            (λ j. IsAttached j (told self.new) name.now bsize access unit.number unit.blocks)) }
        ensures held { IfOk result (λ unit. ForSome (told self.new)
            (λ j. HasBlocks j.units unit.number unit.blocks bsize)) }
        ensures writable { IfOk result (λ unit. IsTrue (may_write access)
            → ForSome (told self.new) (λ j. IsWritable j.units unit.number)) }
        ensures silent { told self.old ≡ None → told self.new ≡ None }
        ensures failed { OnErr result (MayAdd (Missed name.now bsize access) (told self.old)
            (told self.new)) }
        ensures cause { HasCause (edges self.old) (edges self.new) result }
        ensures faults { faults self.new ≡ faults self.old };

    /// Reads a block of an attached unit, from 1 to its count, into a slice of the unit's block size. It adds no event.
    fn read_block(&mut self, unit: u8, block: u32, into: &mut [u8]) -> Result<(), Failed>
        requires { ForSome (told self.old) (λ j. HasBlock j.units unit block (length into.old)) }
        ensures bytes { OnOk result (ForSome (told self.old)
            (λ j. into.new ≡ block_of j unit block)) }
        ensures told { told self.new ≡ told self.old }
        ensures cause { HasCause (faults self.old) (faults self.new) result }
        ensures edges { edges self.new ≡ edges self.old };

    /// Writes a block of an attached unit that may be written, from 1 to its count, from a slice of the unit's block size. A
    /// failed call adds its `Wrote` or nothing.
    fn write_block(&mut self, unit: u8, block: u32, from: &[u8]) -> Result<(), Failed>
        requires block { ForSome (told self.old)
            (λ j. HasBlock j.units unit block (length from.now)) }
        requires writable { ForSome (told self.old) (λ j. IsWritable j.units unit) }
        ensures wrote { OnOk result (told self.new
            ≡ adds (Wrote unit block from.now) (told self.old)) }
        ensures failed { OnErr result (MayAdd (Wrote unit block from.now) (told self.old)
            (told self.new)) }
        ensures cause { HasCause (faults self.old) (faults self.new) result }
        ensures edges { edges self.new ≡ edges self.old };

    /// Makes sure that all that was written to an attached unit stays.
    fn sync(&mut self, unit: u8) -> Result<(), Failed>
        requires { ForSome (told self.old) (λ j. HasUnit j.units unit) }
        ensures synced { OnOk result (told self.new ≡ adds (Synced unit) (told self.old)) }
        ensures failed { OnErr result (told self.new ≡ told self.old) }
        ensures cause { HasCause (faults self.old) (faults self.new) result }
        ensures edges { edges self.new ≡ edges self.old };

    /// Reads the next bytes of the script into the front of a slice that isn't empty, and says how many: none are its end.
    fn read(&mut self, into: &mut [u8]) -> Result<usize, Failed>
        requires { 0 < length into.old }
        ensures within { IfOk result (λ n. n ≤ length into.old) }
        ensures bytes { IfOk result (λ n. told self.new
            ≡ adds (Read (take n into.new)) (told self.old)) }
        ensures failed { OnErr result (told self.new ≡ told self.old) }
        ensures cause { HasCause (edges self.old) (edges self.new) result }
        ensures faults { faults self.new ≡ faults self.old };

    /// Types bytes from the front of a slice that isn't empty, one at least, and says how many.
    fn type_out(&mut self, from: &[u8]) -> Result<usize, Failed>
        requires { 0 < length from.now }
        ensures within { IfOk result (λ n. (0 < n) × (n ≤ length from.now)) }
        ensures typed { IfOk result (λ n. told self.new
            ≡ adds (Typed (take n from.now)) (told self.old)) }
        ensures failed { OnErr result (told self.new ≡ told self.old) }
        ensures cause { HasCause (edges self.old) (edges self.new) result }
        ensures faults { faults self.new ≡ faults self.old };

    /// The seconds since 1970-01-01 00:00:00 UTC.
    fn now(&mut self) -> Result<i64, Failed>
        ensures now { IfOk result (λ t. told self.new ≡ adds (Now t) (told self.old)) }
        ensures failed { OnErr result (told self.new ≡ told self.old) }
        ensures cause { HasCause (edges self.old) (edges self.new) result }
        ensures faults { faults self.new ≡ faults self.old };
}
