// A world that never fails.
ghost use Rattle.std.specs.Prelude.{◌≡◌, ◌≤◌, ◌<◌, ◌↔◌, ◌++◌, ◌+◌, ◌-◌, ℕ, ℤ, ⊤, pos, [], ◌∷◌, length, slice_get, slice_index_or, slice_set, take, drop, replicate, position, min, option_map, Option, None, Some, IsNone, IfOk, OnOk, OnErr, IsTrue};
ghost use Rattle.std.specs.Option.{option_copied, ForSome};
ghost use Rattle.std.specs.Str.{bytes_eq};
ghost use Rattle.std.specs.String.{string_bytes};
ghost use Rattle.cms_journal.specs.Causes.{HasCause};
ghost use Rattle.cms_journal.specs.Journal.{IsBlockSize, HasUnit, HasBlock, HasBlocks, IsWritable, IsAttached, may_write, adds, MayAdd, block_of};
ghost use Rattle.cms_journal.specs.declared.event.Event.TheVariants.{Read, Now, Typed, Wrote, Synced, Missed};
ghost use Rattle.cms_journal.specs.declared.event.Unit.{Unit};
ghost use Rattle.cms_world.specs.Quiet.{named_bytes, NeverFails};
ghost use Rattle.cms_world.specs.QuietUnits.{place_of, bytes_at, put_over, put_in, part_of, unit_over, unit_for};

use crate::script::Script;
use crate::{Access, Failed, Unit, World};
use std::alloc::{AllocError, Global};
use std::marker::Model;

/// An image that was made before, and its name.
#[derive(Drop)]
pub struct Image {
    pub name: String,
    pub bytes: Vec<u8>,
}

/// A list of images. Contracts see the bytes of each name and of its image.
#[derive(Drop)]
pub struct ImageList {
    images: Vec<Image>,
}

impl Model for ImageList {
    ghost use Rattle.std.specs.Prelude.{List, ℕ, map};
    ghost use Rattle.cms_world.specs.Quiet.{named_bytes};

    ghost Value = { List (List ℕ × List ℕ) };

    ghost view = { λ l. map named_bytes l.images.items };
}

impl ImageList {
    /// No images.
    pub fn new(alloc: Global) -> Self
        ensures { result ≡ [] }
    {
        ImageList {
            images: Vec::new(alloc),
        }
    }

    /// Adds an image at the end.
    pub fn push(&mut self, image: Image) -> Result<(), AllocError>
        ensures ok { OnOk result (self.new ≡ self.old ++ named_bytes image ∷ []) }
        ensures err { OnErr result (self.new ≡ self.old) }
    {
        self.images.push(image)?;
        Ok(())
    }

    /// How many images there are.
    pub fn len(&self) -> usize
        ensures { result ≡ length self.now }
    {
        self.images.len()
    }

    /// The image at a place, from 0: none exactly past the end.
    pub fn get(&self, place: usize) -> Option<&Image>
        ensures image { option_map named_bytes (option_copied result) ≡ slice_get self.now place }
        ensures past { IsNone result ↔ (length self.now ≤ place) }
    {
        self.images.get(place)
    }

    // Where the first image of a name stands.
    fn place_of(&self, name: &str) -> Option<usize>
        ensures { result ≡ place_of self.now name.now }
    {
        place_in(&self.images, name)
    }

    // The bytes of the image at a place, if there is one.
    fn bytes_at(&self, place: Option<usize>) -> &[u8]
        ensures { result.now ≡ bytes_at self.now place }
    {
        match place {
            Some(place) => match self.get(place) {
                Some(image) => &image.bytes,
                None => &[],
            },
            None => &[],
        }
    }

    // Puts bytes over those of the image at a place, from `start` on, where all of them fit.
    fn put(&mut self, place: usize, start: usize, from: &[u8])
        ensures { self.new ≡ put_in self.old (Some place) (Some start) from.now }
    {
        if let Some(image) = self.images.get_mut(place) {
            put(&mut image.bytes, start, from);
        }
    }
}

// Where the first of these images that has the name stands.
fn place_in(images: &[Image], name: &str) -> Option<usize>
    ensures { result ≡ position (λ image. bytes_eq (string_bytes image.name) name.now) images.now }
{
    images.iter().position(|image| image.name.as_str() == name)
}

// Puts bytes over others from a place on, where all of them fit.
fn put(bytes: &mut [u8], start: usize, from: &[u8])
    ensures { bytes.new ≡ put_over bytes.old start from.now }
{
    if start <= bytes.len() && from.len() <= bytes.len() - start {
        bytes[start..start + from.len()].copy_from_slice(from);
    }
}

// The bytes from a place on, as many as fill the slice; zeros where there aren't so many.
fn take(bytes: &[u8], start: usize, into: &mut [u8])
    ensures { into.new ≡ part_of bytes.now start (length into.old) }
{
    if start <= bytes.len() && into.len() <= bytes.len() - start {
        into.copy_from_slice(&bytes[start..start + into.len()]);
    } else {
        into.fill(0);
    }
}

// A unit: the place of its image, if it has one, and its blocks.
#[derive(Clone, Copy)]
struct QuietUnit {
    image: Option<usize>,
    bsize: u32,
    blocks: u32,
    writable: bool,
}

const NO_UNIT: QuietUnit = QuietUnit {
    image: None,
    bsize: 0,
    blocks: 0,
    writable: false,
};

impl QuietUnit {
    ghost use Rattle.cms_world.specs.QuietUnits.{start_of};

    // Where a block of so many bytes begins in the image, if the unit has it.
    fn start(&self, block: u32, size: usize) -> Option<usize>
        ensures { result ≡ start_of self.now block size }
    {
        if size == self.bsize as usize && block >= 1 && block <= self.blocks {
            Some((block as usize - 1) * size)
        } else {
            None
        }
    }
}

/// A world over images that were made before, which never fails: both its counts are 0 for good.
///
/// It keeps no journal, drops what is typed, and its clock stands at 0. None of its calls takes memory: its units stand in a table
/// of 256, and the 257th attach and each later one give the number 255 again, for the image of that call. A name that isn't there
/// is a unit of 0 blocks; of images of one name the first is taken. A new image reads as zeros and drops what is written. What is
/// written to an image that may be written stands in it. A block that a unit hasn't reads as zeros, and a write of it is dropped.
#[derive(Drop)]
pub struct QuietWorld {
    images: ImageList,
    script: Script,
    units: [QuietUnit; 256],
    // the number that the next attach gives
    next: u8,
}

impl QuietWorld {
    ghost use Rattle.cms_world.specs.QuietWorlds.{quiet_of, no_unit};

    /// A world with these images and this script, and no units.
    pub fn new(images: ImageList, script: Vec<u8>) -> QuietWorld
        ensures { quiet_of result ≡ record {
          images = images;
          script = script.items;
          units = replicate 256 no_unit;
          next = 0;
        } }
    {
        QuietWorld {
            images,
            script: Script::new(script),
            units: [NO_UNIT; 256],
            next: 0,
        }
    }
}

// The unit of the image of a name.
fn unit_over(images: &ImageList, name: &str, bsize: u32, writable: bool) -> QuietUnit
    requires { 0 < bsize }
    ensures { result ≡ unit_over images.now name.now bsize writable }
{
    let image = images.place_of(name);
    let blocks = images.bytes_at(image).len() / bsize as usize;
    QuietUnit {
        image,
        bsize,
        blocks: blocks.min(u32::MAX as usize) as u32,
        writable,
    }
}

// The unit that an attach adds.
fn unit_for(images: &ImageList, name: &str, bsize: u32, access: Access) -> QuietUnit
    requires { 0 < bsize }
    ensures { result ≡ unit_for images.now name.now bsize access }
{
    match access {
        Access::New(blocks) => QuietUnit {
            image: None,
            bsize,
            blocks,
            writable: false,
        },
        Access::ReadOnly => unit_over(images, name, bsize, false),
        Access::ReadWrite => unit_over(images, name, bsize, true),
    }
}

impl World for QuietWorld {
    ghost use Rattle.cms_world.specs.QuietUnits.{block_in, written_in, unit_for};
    ghost use Rattle.cms_world.specs.QuietWorlds.{quiet_of, no_unit, told_of, count_of};

    ghost faults = { count_of };

    ghost edges = { count_of };

    ghost told = { told_of };

    // What the trait says; and the unit stands in the table, over the image of the name as it is now.
    fn attach(&mut self, name: &str, bsize: u32, access: Access) -> Result<Unit, Failed>
        requires size { IsBlockSize bsize }
        requires room { ForSome (told_of self.old) (λ j. length j.units < 256) }
        ensures attached { IfOk result (λ unit. ForSome (told_of self.old)
            (λ j. IsAttached j (told_of self.new) name.now bsize access unit.number unit.blocks)) }
        ensures held { IfOk result (λ unit. ForSome (told_of self.new)
            (λ j. HasBlocks j.units unit.number unit.blocks bsize)) }
        ensures writable { IfOk result (λ unit. IsTrue (may_write access)
            → ForSome (told_of self.new) (λ j. IsWritable j.units unit.number)) }
        ensures silent { told_of self.old ≡ None → told_of self.new ≡ None }
        ensures failed { OnErr result
            (MayAdd (Missed name.now bsize access) (told_of self.old) (told_of self.new)) }
        ensures cause { HasCause (count_of self.old) (count_of self.new) result }
        ensures faults { count_of self.new ≡ count_of self.old }

        ensures number { IfOk result (λ unit. unit.number ≡ (quiet_of self.old).next) }
        ensures blocks { IfOk result (λ unit. unit.blocks
            ≡ (unit_for (quiet_of self.old).images name.now bsize access).blocks) }
        ensures units { quiet_of self.new ≡ record (quiet_of self.old) {
          units = slice_set (quiet_of self.old).units (quiet_of self.old).next
              (unit_for (quiet_of self.old).images name.now bsize access);
          next = min ((quiet_of self.old).next + 1) 255;
        } }
    {
        let number = self.next;
        let unit = unit_for(&self.images, name, bsize, access);
        self.units[number as usize] = unit;
        self.next = self.next.saturating_add(1);
        Ok(Unit {
            number,
            blocks: unit.blocks,
        })
    }

    // What the trait says; and the bytes are those of the unit's image, or zeros.
    fn read_block(&mut self, unit: u8, block: u32, into: &mut [u8]) -> Result<(), Failed>
        requires { ForSome (told_of self.old) (λ j. HasBlock j.units unit block (length into.old)) }
        ensures bytes { OnOk result
            (ForSome (told_of self.old) (λ j. into.new ≡ block_of j unit block)) }
        ensures told { told_of self.new ≡ told_of self.old }
        ensures cause { HasCause (count_of self.old) (count_of self.new) result }
        ensures edges { count_of self.new ≡ count_of self.old }

        ensures read { into.new ≡ block_in (quiet_of self.old).images
            (slice_index_or (quiet_of self.old).units unit no_unit) block (length into.old) }
        ensures same { quiet_of self.new ≡ quiet_of self.old }
    {
        let unit = self.units[unit as usize];
        match unit.start(block, into.len()) {
            Some(start) => take(self.images.bytes_at(unit.image), start, into),
            None => into.fill(0),
        }
        Ok(())
    }

    // What the trait says; and the bytes stand in the unit's image, if it may be written and has the block.
    fn write_block(&mut self, unit: u8, block: u32, from: &[u8]) -> Result<(), Failed>
        requires block { ForSome (told_of self.old)
            (λ j. HasBlock j.units unit block (length from.now)) }
        requires writable { ForSome (told_of self.old) (λ j. IsWritable j.units unit) }
        ensures wrote { OnOk result
            (told_of self.new ≡ adds (Wrote unit block from.now) (told_of self.old)) }
        ensures failed { OnErr result
            (MayAdd (Wrote unit block from.now) (told_of self.old) (told_of self.new)) }
        ensures cause { HasCause (count_of self.old) (count_of self.new) result }
        ensures edges { count_of self.new ≡ count_of self.old }

        ensures images { quiet_of self.new ≡ record (quiet_of self.old) {
          images = written_in (quiet_of self.old).images
              (slice_index_or (quiet_of self.old).units unit no_unit) block from.now;
        } }
    {
        let unit = self.units[unit as usize];
        if unit.writable
            && let Some(image) = unit.image
            && let Some(start) = unit.start(block, from.len())
        {
            self.images.put(image, start, from);
        }
        Ok(())
    }

    // What the trait says, and nothing is changed.
    fn sync(&mut self, _unit: u8) -> Result<(), Failed>
        requires { ForSome (told_of self.old) (λ j. HasUnit j.units _unit) }
        ensures synced { OnOk result (told_of self.new ≡ adds (Synced _unit) (told_of self.old)) }
        ensures failed { OnErr result (told_of self.new ≡ told_of self.old) }
        ensures cause { HasCause (count_of self.old) (count_of self.new) result }
        ensures edges { count_of self.new ≡ count_of self.old }

        ensures same { quiet_of self.new ≡ quiet_of self.old }
    {
        Ok(())
    }

    // What the trait says; and the bytes are the next of the script, as many as there is room for.
    fn read(&mut self, into: &mut [u8]) -> Result<usize, Failed>
        requires { 0 < length into.old }
        ensures within { IfOk result (λ n. n ≤ length into.old) }
        ensures bytes { IfOk result (λ n. told_of self.new
            ≡ adds (Read (take n into.new)) (told_of self.old)) }
        ensures failed { OnErr result (told_of self.new ≡ told_of self.old) }
        ensures cause { HasCause (count_of self.old) (count_of self.new) result }
        ensures faults { count_of self.new ≡ count_of self.old }

        ensures next { IfOk result (λ n. take n into.new
            ≡ take (length into.old) (quiet_of self.old).script) }
        ensures rest { IfOk result (λ n. quiet_of self.new
            ≡ record (quiet_of self.old) { script = drop n (quiet_of self.old).script }) }
    {
        let count = self.script.copy(into);
        self.script.advance(count);
        Ok(count)
    }

    // What the trait says; all the bytes are taken, and nothing is changed.
    fn type_out(&mut self, from: &[u8]) -> Result<usize, Failed>
        requires { 0 < length from.now }
        ensures within { IfOk result (λ n. (0 < n) × (n ≤ length from.now)) }
        ensures typed { IfOk result (λ n. told_of self.new
            ≡ adds (Typed (take n from.now)) (told_of self.old)) }
        ensures failed { OnErr result (told_of self.new ≡ told_of self.old) }
        ensures cause { HasCause (count_of self.old) (count_of self.new) result }
        ensures faults { count_of self.new ≡ count_of self.old }

        ensures all { IfOk result (λ n. n ≡ length from.now) }
        ensures same { quiet_of self.new ≡ quiet_of self.old }
    {
        Ok(from.len())
    }

    // What the trait says; the clock is at 0, and nothing is changed.
    fn now(&mut self) -> Result<i64, Failed>
        ensures now { IfOk result (λ t. told_of self.new ≡ adds (Now t) (told_of self.old)) }
        ensures failed { OnErr result (told_of self.new ≡ told_of self.old) }
        ensures cause { HasCause (count_of self.old) (count_of self.new) result }
        ensures faults { count_of self.new ≡ count_of self.old }

        ensures clock { IfOk result (λ t. t ≡ pos 0) }
        ensures same { quiet_of self.new ≡ quiet_of self.old }
    {
        Ok(0)
    }
}

/// A quiet world never fails: its counts are 0, and no call answers a failure, which would raise one of them. The clauses are those of
/// `attach`, of the three calls on units, of `read` and `type_out`, and of `now`.
pub fn quiet_laws()
    ensures counts { (w : QuietWorld) → (⟦<QuietWorld as World>⟧.faults w ≡ 0)
        × (⟦<QuietWorld as World>⟧.edges w ≡ 0) }
    ensures attach { NeverFails ⟦<QuietWorld as World>⟧.edges Unit }
    ensures unit { NeverFails ⟦<QuietWorld as World>⟧.faults ⊤ }
    ensures bytes { NeverFails ⟦<QuietWorld as World>⟧.edges ℕ }
    ensures now { NeverFails ⟦<QuietWorld as World>⟧.edges ℤ }
{}
