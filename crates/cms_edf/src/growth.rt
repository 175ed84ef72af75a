// A file that is written on behind its records: it keeps its full data blocks, and the pointer blocks that end within these.
ghost use Rattle.std.specs.Prelude.{◌≡◌, ℕ, List, [], ◌≤◌, ◌<◌, ◌+◌, ◌-◌, ◌*◌, ◌/◌, ◌%◌, ◌^◌, ◌++◌, true, Some, None, Err, IsSome, length, position, replicate, take, slice_get, slice_index, IfOk, IfErr, OnOk};
ghost use Rattle.std.specs.Option.{ForSome};
ghost use Rattle.cms_journal.specs.Journal.{HasBlock, HasBlocks, contents_of};
ghost use Rattle.cms_fields.specs.Limits.{most_bytes};
ghost use Rattle.cms_fields.specs.Stamps.{is_stamp};
ghost use Rattle.cms_model.specs.Minidisks.{same_name};
ghost use Rattle.cms_model.specs.Trees.{image_of};
ghost use Rattle.cms_held.specs.Drafts.{Front, filled};
ghost use Rattle.cms_tree.specs.Paths.{fresh_places};
ghost use Rattle.cms_held.specs.Growths.{places_behind};
ghost use Rattle.cms_held.specs.HeldVolumes as volumes;
ghost use Rattle.cms_held.specs.HeldVolumes.{names_in};
ghost use Rattle.cms_held.specs.Kept.{IsKeptFile, Keeps};
ghost use Rattle.cms_held.specs.Puts.{limit_put};
ghost use Rattle.cms_held.specs.BegunFiles.{HaveShapeOn};
ghost use Rattle.cms_held.specs.FileWriters.{Drafts};
ghost use Rattle.cms_held.specs.declared.shape.DraftShape.{DraftShape};
ghost use Rattle.cms_edf.specs.FileDrafts.{IsSomeDraft, tree_of};
ghost use Rattle.cms_edf.specs.Growths.{CanGrow, GrowsAs, IsBegunOf, IsBehind, IsFileOf, IsFrontOf, IsGrowthOf, IsGrownPlan, IsMoreFor, IsMoreRefused, IsReadFault, more_fault, resume_fault, unread_fault};
ghost use Rattle.cms_edf.specs.declared.growth.MoreFault.TheVariants.{Device, Limit};
ghost use Rattle.cms_world.specs.Seen.{OnlyReads, seen};
ghost use Rattle.cms_world.specs.declared.block.ReadFault.TheVariants as unread;

use crate::allotment::{Exchange, Made, PlanFault, allot, written_count};
use crate::blocks::{ReadFault, read_block};
use crate::change_plan::FIRST_FILE;
use crate::draft::{Draft, entry_for, passed_limit, plan_entry};
use crate::held::{Held, HeldFile, HeldTree};
use crate::system_blocks::Systems;
use crate::tree_part::{TreePart, left_blocks, shared_tree};
use cms_fields::{Entry, Stamp, pointer_size};
use cms_held::{Begun, DraftShape, FileWriter};
use cms_journal::BlockSize;
use cms_names::Name;
use cms_tree::{Climb, Mark, ResumeFault, shape};
use cms_world::World;
use std::alloc::{AllocError, Global};

/// Why no addition is planned.
#[derive(Clone, Copy)]
pub enum MoreFault {
    /// a limit is passed: 2 the number of records, 3 that of stored bytes
    Limit(u32),
    /// there is no room
    Full {
        /// the free blocks that are needed
        need: u32,
        /// the blocks that are free, fewer
        free: u32,
    },
    /// the device failed
    Device,
    /// there is no memory
    Memory,
}

impl From<PlanFault> for MoreFault {
    ghost from_gives = { λ why e. e ≡ more_fault why };

    fn from(why: PlanFault) -> Self {
        match why {
            PlanFault::Limit(which) => MoreFault::Limit(which),
            PlanFault::Full { need, free } => MoreFault::Full { need, free },
            PlanFault::Memory => MoreFault::Memory,
        }
    }
}

impl From<ReadFault> for MoreFault {
    ghost from_gives = { λ why e. e ≡ unread_fault why };

    fn from(why: ReadFault) -> Self {
        match why {
            ReadFault::Device => MoreFault::Device,
            ReadFault::Memory => MoreFault::Memory,
        }
    }
}

impl From<ResumeFault> for MoreFault {
    ghost from_gives = { λ why e. e ≡ resume_fault why };

    fn from(why: ResumeFault) -> Self {
        match why {
            ResumeFault::Device => MoreFault::Device,
            ResumeFault::Memory => MoreFault::Memory,
        }
    }
}

// How a tree grows.
#[derive(Clone, Copy)]
struct Growth {
    // the pointers of a pointer block
    fan: u32,
    // the data blocks before, how many of them are kept, and the data blocks after with the levels over them
    before: u32,
    kept: u32,
    count: u32,
    levels: u8,
}

// How a file's tree grows.
fn growth_of(bsize: BlockSize, file: &HeldFile, asked: &DraftShape) -> Growth
    requires grows { GrowsAs file.now asked.now }
    requires kept { (total : ℕ) × IsKeptFile bsize total file.now }
    requires few { asked.now.bytes ≤ most_bytes }
    ensures { IsGrowthOf bsize file.now asked.now result }
{
    let bytes = bsize.bytes();
    let fan = bytes / u32::from(pointer_size(asked.format));
    let count = (asked.bytes as u32).div_ceil(bytes);
    Growth {
        fan,
        before: file.leaves().len() as u32,
        kept: file.size / bytes,
        count,
        levels: shape(count, fan).levels,
    }
}

impl Growth {
    // The places of the data blocks that are written, and of the pointer blocks that aren't kept.
    fn places(&self, alloc: Global) -> Result<TreePart, AllocError>
        requires some { 1 ≤ self.now.before }
        requires wide { 2 ≤ self.now.fan }
        requires less { self.now.kept < self.now.count }
        ensures leaves { IfOk result (λ p. p.leaves ≡ places_behind self.now.kept self.now.count) }
        ensures nodes { IfOk result (λ p. p.nodes
            ≡ fresh_places self.now.fan self.now.before self.now.count p.leaves) }
    {
        let written = (self.kept..self.count).collect(alloc)?;
        TreePart::of_shared(alloc, self.before, self.count, self.fan, written)
    }
}

// All of a file that grows but what the unit says of it.
#[derive(Drop)]
struct GrownPlan {
    growth: Growth,
    entry: Entry,
    tree: HeldTree,
    systems: Systems,
}

// Plans by what is held alone.
fn plan_growth(
    alloc: Global,
    held: &Held,
    place: u32,
    name: &Name,
    asked: &DraftShape,
    stamp: &Stamp,
) -> Result<GrownPlan, PlanFault>
    requires stamp { is_stamp stamp.now ≡ true }
    requires grows { CanGrow held.now.volume name.now place asked.now }
    requires unlimited { limit_put (length held.now.volume.files) asked.now.count asked.now.bytes
        ≡ None }
    ensures planned { IfOk result (IsGrownPlan held.now.volume name.now place asked.now stamp.now) }
    ensures full { IfErr result (λ e. (f : volumes.HeldFile)
        → slice_get held.now.volume.files place ≡ Some f
        → IsMoreRefused held.now.volume place f asked.now (more_fault e)) }
{
    let file = &held.files[place as usize];
    let old = file.tree();
    let growth = growth_of(held.bsize, file, asked);
    let places = growth.places(alloc)?;
    let left = left_blocks(alloc, old, growth.count, growth.fan, &places.leaves)?;
    let exchange = Exchange {
        files: held.count(),
        made: Made::Entries(&[0, place + FIRST_FILE]),
        file: written_count(&places),
        leaves: &left,
        pointers: &[],
    };
    let allotment = allot(alloc, held, &exchange)?;
    let Ok(tree) = shared_tree(
        alloc,
        old,
        growth.count,
        growth.fan,
        &places,
        &allotment.file,
    ) else {
        drop(allotment);
        return Err(PlanFault::Memory);
    };
    let entry = entry_for(name, asked, &tree, growth.levels);
    let systems = plan_entry(
        alloc,
        held,
        Some(place),
        &entry,
        &exchange,
        allotment,
        stamp,
    )?;
    Ok(GrownPlan {
        growth,
        entry,
        tree,
        systems,
    })
}

// Leaves so many bytes, and zeros behind them.
fn clear_behind(bytes: &mut [u8], len: usize)
    requires { len ≤ length bytes.old }
    ensures { bytes.new ≡ take len bytes.old ++ replicate (length bytes.old - len) 0 }
{
    bytes[len..].fill(0);
}

// The bytes of the data block that isn't full, with zeros behind them.
fn read_rest<W: World>(
    alloc: Global,
    world: &mut W,
    held: &Held,
    file: &HeldFile,
    kept: u32,
) -> Result<Vec<u8>, ReadFault>
    requires kept { kept ≡ file.now.size / held.now.volume.disk.bsize }
    requires room { file.now.size ≤ length file.now.tree.leaves * held.now.volume.disk.bsize }
    requires blocks { ForSome (W.told world.old) (λ j. (k : ℕ) → k < length file.now.tree.leaves
        → HasBlock j.units held.now.volume.unit
        (slice_index file.now.tree.leaves k) held.now.volume.disk.bsize) }
    ensures bytes { IfOk result (λ v. ForSome (W.told world.old)
        (λ j. 1 ≤ file.now.size % held.now.volume.disk.bsize
        → v.items ≡ filled held.now.volume.disk.bsize
        (take (file.now.size % held.now.volume.disk.bsize)
        (image_of (contents_of j held.now.volume.unit) (slice_index file.now.tree.leaves kept))))) }
    ensures zeros { IfOk result (λ v. file.now.size % held.now.volume.disk.bsize ≡ 0
        → v.items ≡ filled held.now.volume.disk.bsize []) }
    ensures long { IfOk result (λ v. length v.items ≡ held.now.volume.disk.bsize) }
    ensures reads { OnlyReads (seen W.World world.old)
        (seen W.World world.new) unread.Device result }
{
    let bsize = held.bsize.bytes();
    let filled = (file.size % bsize) as usize;
    if filled == 0 {
        let Ok(block) = vec![in alloc; 0; bsize as usize] else {
            return Err(ReadFault::Memory);
        };
        return Ok(block);
    }
    let mut block = read_block(alloc, world, held.unit, file.leaves()[kept as usize], bsize)?;
    clear_behind(&mut block, filled);
    Ok(block)
}

// What stands of the file, as the unit has it.
fn begin<W: World>(
    alloc: Global,
    world: &mut W,
    held: &Held,
    place: u32,
    growth: &Growth,
) -> Result<Begun, MoreFault>
    requires place { place < length held.now.volume.files }
    requires grown { (f : volumes.HeldFile) → slice_get held.now.volume.files place ≡ Some f
        → (asked : DraftShape) × GrowsAs f asked
        × IsGrowthOf held.now.volume.disk.bsize f asked growth.now }
    requires blocks { ForSome (W.told world.old)
        (λ j. HasBlocks j.units held.now.volume.unit held.now.volume.disk.count
        held.now.volume.disk.bsize) }
    ensures begun { IfOk result (λ b. (f : volumes.HeldFile)
        → slice_get held.now.volume.files place ≡ Some f
        → IsBegunOf (W.told world.old) held.now.volume f growth.now b) }
    ensures fault { IfErr result IsReadFault }
    ensures reads { OnlyReads (seen W.World world.old) (seen W.World world.new) Device result }
{
    let file = &held.files[place as usize];
    let block = read_rest(alloc, world, held, file, growth.kept)?;
    let mark = Mark {
        last: file.entry.count,
        place: file.start,
    };
    let climb = Climb::resume(
        alloc,
        world,
        held.unit,
        growth.before,
        file.tree.pointers(),
        file.leaves()[growth.before as usize - 1],
        &mark,
        growth.kept,
        growth.count,
        held.bsize,
        pointer_size(file.entry.format),
    )?;
    Ok(Begun {
        climb,
        kept: growth.kept,
        block,
        filled: file.size % held.bsize.bytes(),
        mark,
    })
}

/// Plans the addition of records to the file of a name: all that is written then but its own blocks, and all memory that the update needs.
/// `asked` is what the whole file is to be; only the added records are put then. The file keeps its full data blocks, and the pointer blocks
/// that end within these.
///
/// Nothing is written, and the volume stays as it is held. `Limit` comes exactly where the file would pass one, the lowest of them; else
/// `Full` exactly where it needs more blocks than are free. `Device` comes only where a read failed, where none of these does.
pub fn plan_more<W: World>(
    alloc: Global,
    world: &mut W,
    held: &mut Held,
    name: &Name,
    asked: &DraftShape,
    stamp: &Stamp,
) -> Result<Draft, MoreFault>
    requires stamp { is_stamp stamp.now ≡ true }
    requires grows { (place : ℕ) → position (same_name name.now) (names_in held.old.volume.files)
        ≡ Some place
        → CanGrow held.old.volume name.now place asked.now }
    requires there { IsSome (position (same_name name.now) (names_in held.old.volume.files)) }
    requires blocks { ForSome (W.told world.old)
        (λ j. HasBlocks j.units held.old.volume.unit held.old.volume.disk.count
        held.old.volume.disk.bsize) }
    ensures planned { IfOk result (λ d. (f : volumes.HeldFile) → IsFileOf held.old.volume name.now f
        → IsMoreFor held.old.volume name.now f asked.now stamp.now d) }
    ensures some { IfOk result (IsSomeDraft held.new.volume) }
    ensures behind { IfOk result (λ d. (f : volumes.HeldFile) → IsFileOf held.old.volume name.now f
        → IsBehind f asked.now d) }
    ensures drafts { IfOk result (λ d. ForSome (W.told world.old)
        (λ j. (f : volumes.HeldFile) (front : Front) (records : List (List ℕ))
        → IsFileOf held.old.volume name.now f → IsFrontOf j held.old.volume f (tree_of d) front
        → HaveShapeOn asked.now front records → Drafts d.writer front [] records)) }
    ensures refused { IfErr result (λ e. (f : volumes.HeldFile) → (at : IsFileOf held.old.volume name.now f)
        → IsMoreRefused held.old.volume at.place f asked.now e) }
    ensures limited { (which : ℕ) → limit_put
        (length held.old.volume.files) asked.now.count asked.now.bytes ≡ Some which
        → result ≡ Err (Limit which) }
    ensures kept { Keeps held.old.volume }
    ensures volume { held.new.volume ≡ held.old.volume }
    ensures spare { OnOk result (1 ≤ held.new.spare) }
    ensures places { held.old.spare ≤ held.new.spare }
    ensures reads { OnlyReads (seen W.World world.old) (seen W.World world.new) Device result }
{
    let place = held.place(name);
    plan_more_at(alloc, world, held, place, name, asked, stamp)
}

/// The same where the place of the file of that name is known.
pub fn plan_more_at<W: World>(
    alloc: Global,
    world: &mut W,
    held: &mut Held,
    place: u32,
    name: &Name,
    asked: &DraftShape,
    stamp: &Stamp,
) -> Result<Draft, MoreFault>
    requires stamp { is_stamp stamp.now ≡ true }
    requires grows { CanGrow held.old.volume name.now place asked.now }
    requires blocks { ForSome (W.told world.old)
        (λ j. HasBlocks j.units held.old.volume.unit held.old.volume.disk.count
        held.old.volume.disk.bsize) }
    ensures planned { IfOk result (λ d. (f : volumes.HeldFile) → IsFileOf held.old.volume name.now f
        → IsMoreFor held.old.volume name.now f asked.now stamp.now d) }
    ensures some { IfOk result (IsSomeDraft held.new.volume) }
    ensures behind { IfOk result (λ d. (f : volumes.HeldFile) → IsFileOf held.old.volume name.now f
        → IsBehind f asked.now d) }
    ensures drafts { IfOk result (λ d. ForSome (W.told world.old)
        (λ j. (f : volumes.HeldFile) (front : Front) (records : List (List ℕ))
        → IsFileOf held.old.volume name.now f → IsFrontOf j held.old.volume f (tree_of d) front
        → HaveShapeOn asked.now front records → Drafts d.writer front [] records)) }
    ensures refused { IfErr result (λ e. (f : volumes.HeldFile)
        → (at : IsFileOf held.old.volume name.now f)
        → IsMoreRefused held.old.volume at.place f asked.now e) }
    ensures limited { (which : ℕ) → limit_put
        (length held.old.volume.files) asked.now.count asked.now.bytes ≡ Some which
        → result ≡ Err (Limit which) }
    ensures kept { Keeps held.old.volume }
    ensures volume { held.new.volume ≡ held.old.volume }
    ensures spare { OnOk result (1 ≤ held.new.spare) }
    ensures places { held.old.spare ≤ held.new.spare }
    ensures reads { OnlyReads (seen W.World world.old) (seen W.World world.new) Device result }
{
    if let Some(which) = passed_limit(held.count(), asked) {
        return Err(MoreFault::Limit(which));
    }
    let Ok(()) = held.reserve() else {
        return Err(MoreFault::Memory);
    };
    let planned = plan_growth(alloc, held, place, name, asked, stamp)?;
    let begun = match begin(alloc, world, held, place, &planned.growth) {
        Ok(begun) => begun,
        Err(fault) => {
            drop(planned);
            return Err(fault);
        }
    };
    let put = held.files[place as usize].entry.count;
    Ok(Draft {
        entry: planned.entry,
        writer: FileWriter::resume(held.unit, held.bsize, asked, put, planned.tree, begun),
        systems: planned.systems,
    })
}
